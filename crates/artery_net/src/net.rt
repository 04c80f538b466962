//! The connections and moments of a node.
ghost use Rattle.std.specs.Prelude.{◌≡◌, ℕ, List, Option, IfOk, OnErr};
ghost use Rattle.artery_net.specs.declared.event.Step.{Step};
ghost use Rattle.artery_net.specs.declared.event.Step.TheVariants.{Gave, Did};
ghost use Rattle.artery_net.specs.declared.event.Act.TheVariants as act;
ghost use Rattle.artery_io.specs.InMemory.{one_more};
ghost use Rattle.artery_net.specs.Story.{HasNetCause, GoesOn, moment_after, IsFit, Acted, dialing, writing, MayGoOn};

use crate::event::{NetEvent, NetFault};
use artery_base::Address;
use artery_machine::Conn;
use std::alloc::Global;

/// A node's outside: connections that are dialed and that come in, and moments.
///
/// Each call answers `Failed` only where the count of faults rose in it, and `NoMemory` where memory runs out. A count that a `u64` keeps stays
/// at its end, and is said to have risen where it stands there.
pub trait Net {
    /// The events given and the acts received, in order, where the net tells them.
    ghost story: { Self → Option (List Step) };

    /// How many calls have failed.
    ghost faults: { Self → ℕ };

    /// How many calls of `next` have failed.
    ghost next_faults: { Self → ℕ };

    /// How many calls of `next` were made; more than 2^64 - 1 are told as that number.
    ghost asked: { Self → ℕ };

    /// The moment of the last `Tick`, 0 before the first.
    ghost moment: { Self → ℕ };

    /// Gives one event. A piece has 1 to 65,536 bytes, and the moment of a tick is at least that of the last one and below 2^62. Where the call
    /// fails, no event was given.
    fn next(&mut self, alloc: Global) -> Result<NetEvent, NetFault>
        ensures asked { asked self.new ≡ one_more (asked self.old) }
        ensures story { IfOk result (λ e. GoesOn (story self.old) (story self.new) (Gave e)) }
        ensures untold { OnErr result (story self.new ≡ story self.old) }
        ensures fit { IfOk result (λ e. IsFit (moment self.old) e) }
        ensures moment { IfOk result (λ e. moment self.new ≡ moment_after (moment self.old) e) }
        ensures unmoved { OnErr result (moment self.new ≡ moment self.old) }
        ensures cause { HasNetCause (faults self.old) (faults self.new) result }
        ensures next_cause { HasNetCause (next_faults self.old) (next_faults self.new) result };

    /// Begins a connection to an address, under this dial number. Whether it is up comes as an event.
    fn dial(&mut self, alloc: Global, dial: u64, address: &Address) -> Result<(), NetFault>
        ensures story { Acted (story self.old) (story self.new) (dialing dial address.now) result }
        ensures cause { HasNetCause (faults self.old) (faults self.new) result }
        ensures next_faults { next_faults self.new ≡ next_faults self.old }
        ensures asked { asked self.new ≡ asked self.old }
        ensures moment { moment self.new ≡ moment self.old };

    /// Writes bytes on the own connection with this dial number, behind those written before.
    fn write(&mut self, alloc: Global, dial: u64, bytes: &[u8]) -> Result<(), NetFault>
        ensures story { Acted (story self.old) (story self.new) (writing dial bytes.now) result }
        ensures cause { HasNetCause (faults self.old) (faults self.new) result }
        ensures next_faults { next_faults self.new ≡ next_faults self.old }
        ensures asked { asked self.new ≡ asked self.old }
        ensures moment { moment self.new ≡ moment self.old };

    /// Ends a connection, without notice. This can't fail. A net that tells its story may stop telling it here.
    fn hang(&mut self, conn: Conn)
        ensures story { MayGoOn (story self.old) (story self.new) (Did (act.Hang conn)) }
        ensures faults { faults self.new ≡ faults self.old }
        ensures next_faults { next_faults self.new ≡ next_faults self.old }
        ensures asked { asked self.new ≡ asked self.old }
        ensures moment { moment self.new ≡ moment self.old };
}
