//! What comes to the nodes of a network.
ghost use Rattle.std.specs.Prelude.{◌≡◌, ◌≤◌, length, take, min, OnOk, IfOk};
ghost use Rattle.artery_machine.specs.World.{going_on, gives, each, pieces, live_of, carries, cuts, ends_far, by_connection};
ghost use Rattle.artery_machine.specs.declared.input.Input.TheVariants as inputs;
ghost use Rattle.artery_world.specs.Running.{IsFitFor};

use crate::network::Network;
use artery_base::{Bytes, NoMemory};
use artery_machine::{Conn, Input};

/// Bytes are given in pieces of at most so many.
const PIECE_SIZE: usize = 65_536;

impl Network {
    /// Something comes to the incarnation with this UID, where it lives.
    #[tactic(auto, using(crate::proofs::Coming::given, crate::proofs::Coming::nobody, crate::proofs::Places::place_is_found))]
    pub(crate) fn gives(&mut self, uid: u64, input: Input) -> Result<(), NoMemory>
        requires { IsFitFor input (live_of uid self.old) }
        ensures { OnOk result (self.new ≡ gives uid input self.old) }
    {
        let Some(at) = self.place_of(uid) else {
            return Ok(());
        };
        let mut effects = Vec::new(self.alloc);
        let live = &mut self.live[at];
        live.takes(input, &mut effects)?;
        let moment = live.moment();
        self.acts_all(uid, moment, effects)?;
        Ok(())
    }

    /// A piece of bytes comes on the inbound connection with a number, unless the network has ended.
    #[tactic(auto, using(crate::proofs::Coming::piece_fits))]
    fn gives_piece(&mut self, far: u64, number: u64, piece: Bytes) -> Result<(), NoMemory>
        requires { length piece ≤ 65536 }
        ensures { OnOk result (self.new ≡ going_on (gives far (inputs.Bytes number piece)) self.old) }
    {
        if self.has_ended() {
            return Ok(());
        }
        self.gives(
            far,
            Input::Bytes {
                conn: number,
                piece,
            },
        )
    }

    /// The first piece of these bytes comes on the inbound connection with a number. Tells its size.
    fn gives_first(&mut self, far: u64, number: u64, rest: &[u8]) -> Result<usize, NoMemory>
        ensures network { OnOk result (self.new ≡ going_on (gives far (inputs.Bytes number (take 65536 rest.now))) self.old) }
        ensures size { IfOk result (λ size. size ≡ min (length rest.now) 65536) }
    {
        let size = rest.len().min(PIECE_SIZE);
        let piece = Bytes::from_slice(self.alloc, &rest[..size])?;
        self.gives_piece(far, number, piece)?;
        Ok(size)
    }

    /// Bytes come on the inbound connection with a number, in pieces of at most 65,536 bytes, at most `most` of them.
    #[tactic(auto, using(crate::proofs::Coming::next_piece, crate::proofs::Coming::none_left, crate::proofs::Coming::all_given))]
    fn gives_pieces(
        &mut self,
        far: u64,
        number: u64,
        most: usize,
        bytes: &[u8],
    ) -> Result<(), NoMemory>
        ensures { OnOk result (self.new ≡ each (pieces most bytes.now) (λ piece. gives far (inputs.Bytes number piece)) self.old) }
    {
        let mut at = 0;
        let mut left = most;
        while left > 0 && at < bytes.len() {
            let size = self.gives_first(far, number, &bytes[at..])?;
            at += size;
            left -= 1;
        }
        Ok(())
    }

    /// All these bytes come on the inbound connection with a number, in pieces of at most 65,536 bytes.
    #[tactic(auto, using(crate::proofs::Coming::no_pieces, crate::proofs::Coming::last_piece))]
    fn gives_bytes(
        &mut self,
        far: u64,
        number: u64,
        most: usize,
        bytes: Bytes,
    ) -> Result<(), NoMemory>
        ensures { OnOk result (self.new ≡ each (pieces most bytes) (λ piece. gives far (inputs.Bytes number piece)) self.old) }
    {
        if most == 0 || bytes.is_empty() {
            return Ok(());
        }
        if bytes.len() > PIECE_SIZE {
            return self.gives_pieces(far, number, most, bytes.as_slice());
        }
        self.gives_piece(far, number, bytes)
    }

    /// So many bytes arrive of the connection at a place.
    pub(crate) fn carries(&mut self, count: usize, place: usize) -> Result<(), NoMemory>
        ensures { OnOk result (self.new ≡ by_connection (carries count) place self.old) }
    {
        let Some(connection) = self.connections.get(place) else {
            return Ok(());
        };
        let far = connection.far();
        let number = connection.number();
        let bytes = self.connections.take(self.alloc, place, count)?;
        self.gives_bytes(far, number, count, bytes)
    }

    /// The near side of the connection at a place ends.
    #[tactic(auto, using(crate::proofs::Coming::ended_fits))]
    pub(crate) fn cuts(&mut self, place: usize) -> Result<(), NoMemory>
        ensures { OnOk result (self.new ≡ by_connection cuts place self.old) }
    {
        let Some(connection) = self.connections.get(place) else {
            return Ok(());
        };
        let dialer = connection.dialer();
        let conn = Conn::Outward(connection.dial());
        self.connections.end_near(place);
        self.gives(dialer, Input::Ended { conn })
    }

    /// The far side of the connection at a place ends.
    #[tactic(auto, using(crate::proofs::Coming::ended_fits))]
    pub(crate) fn ends_far(&mut self, place: usize) -> Result<(), NoMemory>
        ensures { OnOk result (self.new ≡ by_connection ends_far place self.old) }
    {
        let Some(connection) = self.connections.get(place) else {
            return Ok(());
        };
        let far = connection.far();
        let conn = Conn::Inward(connection.number());
        self.connections.end_far(place);
        self.gives(far, Input::Ended { conn })
    }
}
