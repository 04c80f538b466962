//! What a node knows of one inbound connection.
ghost use Rattle.std.specs.Prelude.{◌≡◌};
ghost use Rattle.std.specs.Option.{option_copied};
ghost use Rattle.artery_machine.specs.Parts.{kept};
ghost use Rattle.artery_machine.specs.Node.{accepted_as, is_number, speaker_in, nonce_in};

use artery_base::UniqueAddress;
use artery_frame::Deframer;
use artery_handshake::{InConn, InState};
use artery_machine::Answer;
use std::alloc::Global;
use std::marker::Model;

/// An inbound connection: its number, its bytes, who is known to speak on it, the answer that is owed, and for each kind the number of the
/// table that was last seen to be used on it.
#[derive(Drop)]
pub struct Inbound {
    pub(crate) number: u64,
    pub(crate) bytes: Deframer,
    pub(crate) conn: InConn,
    pub(crate) owed: Option<Answer>,
    pub(crate) shown_refs: Option<u64>,
    pub(crate) shown_manifests: Option<u64>,
}

impl Model for Inbound {
    ghost use Rattle.artery_machine.specs.Parts.{kept};
    ghost use Rattle.artery_machine.specs.Node as nodes;

    ghost Value = { nodes.Inbound kept };

    ghost view = { λ i. record { number = i.number; bytes = i.bytes; state = i.conn; owed = i.owed; shown = record { refs = i.shown_refs; manifests = i.shown_manifests } } };
}

impl Inbound {
    /// A connection that was just accepted.
    pub fn new(alloc: Global, number: u64) -> Inbound
        ensures { result ≡ accepted_as number }
    {
        Inbound {
            number,
            bytes: Deframer::new(alloc),
            conn: InConn::new(),
            owed: None,
            shown_refs: None,
            shown_manifests: None,
        }
    }

    /// Its number.
    pub fn number(&self) -> u64
        ensures { result ≡ self.now.number }
    {
        self.number
    }

    /// Whether this is its number.
    pub fn is_number(&self, number: u64) -> bool
        ensures { result ≡ is_number number self.now }
    {
        self.number == number
    }

    /// Who is known to speak on it, and with which nonce.
    pub fn state(&self) -> &InState
        ensures { result.now ≡ self.now.state }
    {
        self.conn.state()
    }
}
