//! Connections that come in, their bytes, and what was done so far.
ghost use Rattle.std.specs.Prelude.{◌≡◌, ◌<◌, ◌≤◌, ◌++◌, [], ◌∷◌, filter, not, false, position, length, IfSome, IfNone, OnOk, OnErr, option_map};
ghost use Rattle.artery_frame.specs.Kept.{nothing_kept};
ghost use Rattle.artery_machine.specs.Parts.{kept};
ghost use Rattle.artery_machine.specs.Node.{inbound_at, is_number, put_inbound, accepted_as};
ghost use Rattle.artery_machine.specs.Doing.{in_bytes, inbound_becomes, becomes};
ghost use Rattle.artery_machine.specs.Reacting.{accepts, with_bytes, with_inbound, without_inbound, owes, quarantined};
ghost use Rattle.artery_node.specs.Steps.{is_at_least, without_effects};

use crate::work::Work;
use artery_base::{Address, NoMemory};
use artery_frame::Deframer;
use artery_journal::{Cause, Reason};
use artery_machine::Effect;
use artery_peer::Inbound;
use std::mem;

/// At most so many connections come in.
const MOST_INBOUND: usize = 256;

/// Removes the inbound connection with a number.
fn remove_inbound(inbound: &mut Vec<Inbound>, number: u64)
    ensures { inbound.new.items ≡ filter (λ i. not (is_number number i)) inbound.old.items }
{
    inbound.retain(
        |i: &Inbound| -> bool
            ensures { result ≡ not (is_number number i.now) }
        { !i.is_number(number) },
    );
}

/// The place of the first of them whose number is at least this one.
fn place_from(inbound: &[Inbound], number: u64) -> Option<usize>
    ensures place { result ≡ position (is_at_least number) inbound.now }
    ensures within { IfSome result (λ at. at < length inbound.now) }
{
    inbound.iter().position(|i| i.number() >= number)
}

/// A connection that came in takes the place of that with its number, or its own place among the others. Without memory nothing changes.
#[tactic(auto, using(crate::proofs::Inserted::put_behind, crate::proofs::Inserted::put_over, crate::proofs::Inserted::put_before))]
fn put(inbound: &mut Vec<Inbound>, accepted: Inbound) -> Result<(), NoMemory>
    ensures { OnOk result (inbound.new.items ≡ put_inbound accepted inbound.old.items) }
{
    let number = accepted.number();
    let Some(at) = place_from(inbound, number) else {
        inbound.push(accepted)?;
        return Ok(());
    };
    if inbound[at].is_number(number) {
        inbound[at] = accepted;
        return Ok(());
    }
    inbound.insert(at, accepted)?;
    Ok(())
}

impl Work {
    /// A connection that came in stands among the others.
    fn puts_inbound(&mut self, number: u64) -> Result<(), NoMemory>
        ensures { OnOk result (self.new ≡ becomes (with_inbound number) self.old) }
    {
        let accepted = Inbound::new(self.alloc, number);
        put(&mut self.inbound, accepted)
    }

    /// A connection came in. Beside 256 others it is refused and hung up.
    pub fn accepts(&mut self, number: u64) -> Result<(), NoMemory>
        ensures { OnOk result (self.new ≡ accepts number self.old) }
    {
        if self.inbound.len() < MOST_INBOUND {
            return self.puts_inbound(number);
        }
        self.refuses(Reason::Connections)?;
        self.hang_up_inbound(number)
    }

    /// The inbound connection with a number is gone.
    pub fn removes_inbound(&mut self, number: u64)
        ensures { self.new ≡ becomes (without_inbound number) self.old }
    {
        remove_inbound(&mut self.inbound, number);
    }

    /// What came on the inbound connection with a number is set aside, where there is one.
    #[tactic(auto, using(crate::proofs::Places::set_is_change, crate::proofs::Places::no_place_same, crate::proofs::Places::place_is_found, crate::proofs::Places::no_place))]
    pub fn takes_bytes(&mut self, number: u64) -> Option<Deframer>
        ensures bytes { result ≡ option_map (λ i. i.bytes) (inbound_at number self.old.node) }
        ensures work { self.new ≡ inbound_becomes number (with_bytes (nothing_kept false)) self.old }
        ensures none { IfNone result (self.new ≡ self.old) }
    {
        let alloc = self.alloc;
        let at = self.place_of_inbound(number)?;
        let inbound = &mut self.inbound[at];
        Some(inbound.take_bytes(alloc))
    }

    /// These bytes came on the inbound connection with a number, where there is one.
    #[tactic(auto, using(crate::proofs::Places::set_is_change, crate::proofs::Places::no_place_same))]
    pub fn puts_bytes(&mut self, number: u64, bytes: Deframer)
        ensures { self.new ≡ inbound_becomes number (with_bytes bytes) self.old }
    {
        let Some(at) = self.place_of_inbound(number) else {
            return;
        };
        let inbound = &mut self.inbound[at];
        inbound.put_bytes(bytes);
    }

    /// The current incarnation at an address is closed for ever, where there is one. It makes no peer.
    pub fn quarantined(&mut self, address: &Address) -> Result<(), NoMemory>
        ensures { OnOk result (self.new ≡ quarantined address.now self.old) }
    {
        let current = self.current_at(address);
        self.closes_or_refuses(address, current, Cause::Quarantined, Reason::NotCurrent)
    }

    /// Whether messages to some peer are kept, wait or are held.
    pub fn owes(&self) -> bool
        ensures { result ≡ owes self.now.node }
    {
        self.peers.iter().any(|p| p.owes())
    }

    // ---- what was done

    /// What was done so far comes behind these effects, and nothing was done since. Without memory nothing changes.
    pub fn hand_out(&mut self, effects: &mut Vec<Effect>) -> Result<(), NoMemory>
        ensures work { OnOk result (self.new ≡ without_effects self.old) }
        ensures effects { OnOk result (effects.new.items ≡ effects.old.items ++ self.old.deeds.effects) }
        ensures kept { OnErr result (self.new ≡ self.old) }
        ensures err { OnErr result (effects.new.items ≡ effects.old.items) }
    {
        if effects.is_empty() {
            mem::swap(effects, &mut self.effects);
            return Ok(());
        }
        effects.append(&mut self.effects)?;
        Ok(())
    }

    /// What was done so far is forgotten.
    pub fn forget_effects(&mut self)
        ensures { self.new ≡ without_effects self.old }
    {
        self.effects.clear();
    }
}
