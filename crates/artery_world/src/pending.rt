//! A dial that is pending.
ghost use Rattle.std.specs.Prelude.{◌≡◌};
ghost use Rattle.artery_machine.specs.World.{is_pending};

use artery_base::Address;
use std::marker::Model;

/// A dial that is pending: the UID of who dialed, the number of the dial, and the address.
#[derive(Drop)]
pub struct Pending {
    dialer: u64,
    dial: u64,
    address: Address,
}

impl Model for Pending {
    ghost use Rattle.artery_machine.specs.World.{Pending};

    ghost Value = { Pending };

    ghost view = { λ p. record { dialer = p.dialer; dial = p.dial; address = p.address } };
}

impl Pending {
    /// A dial with this number of who has this UID.
    pub fn new(dialer: u64, dial: u64, address: Address) -> Pending
        ensures { result ≡ record { dialer = dialer; dial = dial; address = address } }
    {
        Pending {
            dialer,
            dial,
            address,
        }
    }

    /// Whether it has this dialer and this number.
    pub fn is(&self, uid: u64, dial: u64) -> bool
        ensures { result ≡ is_pending uid dial self.now }
    {
        self.dialer == uid && self.dial == dial
    }

    /// The UID of who dialed.
    pub fn dialer(&self) -> u64
        ensures { result ≡ self.now.dialer }
    {
        self.dialer
    }

    /// The number of the dial.
    pub fn dial(&self) -> u64
        ensures { result ≡ self.now.dial }
    {
        self.dial
    }

    /// The address that was dialed.
    pub fn address(&self) -> &Address
        ensures { result.now ≡ self.now.address }
    {
        &self.address
    }
}
