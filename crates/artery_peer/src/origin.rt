//! What a node knows of one origin.
ghost use Rattle.std.specs.Prelude.{◌≡◌, false, true};
ghost use Rattle.artery_machine.specs.Parts.{kept};
ghost use Rattle.artery_machine.specs.Node.{new_origin, is_origin};

use artery_base::UniqueAddress;
use artery_tables::InTables;
use std::marker::Model;

/// An origin: who it is, the tables announced to it, the moment at which they were last due, and whether an acknowledgement is owed.
#[derive(Drop)]
pub struct Origin {
    pub(crate) who: UniqueAddress,
    pub(crate) refs: InTables,
    pub(crate) manifests: InTables,
    pub(crate) advertised: u64,
    pub(crate) owes: bool,
}

impl Model for Origin {
    ghost use Rattle.artery_machine.specs.Parts.{kept};
    ghost use Rattle.artery_machine.specs.Node as nodes;

    ghost Value = { nodes.Origin kept };

    ghost view = { λ o. record { who = o.who; tables = record { refs = o.refs; manifests = o.manifests }; advertised = o.advertised; owes = o.owes } };
}

impl Origin {
    /// An origin that is new at this moment.
    pub fn new(now: u64, who: UniqueAddress) -> Origin
        ensures { result ≡ new_origin now who }
    {
        Origin {
            who,
            refs: InTables::new(),
            manifests: InTables::new(),
            advertised: now,
            owes: false,
        }
    }

    /// Whether this is the origin.
    pub fn is(&self, who: &UniqueAddress) -> bool
        ensures { result ≡ is_origin who.now self.now }
    {
        self.who == *who
    }
}
