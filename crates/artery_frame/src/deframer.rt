ghost use Rattle.std.specs.Prelude.{◌≡◌, ◌+◌, ◌<◌, ◌≤◌, ℕ, List, [], ◌++◌, length, true, false, IsTrue, IsSome, is_some, is_err, IsOk, vec_capacity, IfOk, OnOk, OnErr, IsErrOf};
ghost use Rattle.std.specs.Borrow.{sem};
ghost use Rattle.std.specs.Io.BufRead.{Rests};
ghost use Rattle.artery_frame.specs.Stream.{reading_of, preamble_of, piece_limit};
ghost use Rattle.artery_frame.specs.Standing.{Stands, next_of, AfterNext, given_out, place_after};
ghost use Rattle.artery_frame.specs.Kept.{told, nothing_kept, kept_fed, kept_answer, kept_given, held_limit, IsSettled, new_stream, seen, Looks, FindsNone, fault_place};

use crate::buffer::cut_off;
use crate::fault::{Broken, FeedFault, FrameFault};
use crate::front::{LENGTH_LEN, frame_len};
use crate::preamble::{PREAMBLE_LEN, preamble_of};
use crate::stream::Stream;
use artery_base::NoMemory;
use std::alloc::{AllocError, Global};
use std::marker::Model;

/// The most bytes of a piece.
pub const PIECE_LIMIT: usize = 65_536;

/// The most bytes that are held with the next piece: less than a whole frame with its length, and a piece.
pub const HELD_LIMIT: usize = 327_684;

/// So many bytes have room, so that what was given out need not be cut off at each piece.
const ROOM: usize = 2 * HELD_LIMIT;

/// The bytes of a stream, as they come in pieces, and the frames that were not given yet.
#[derive(Drop)]
pub struct Deframer {
    buffer: Vec<u8>,
    from: usize,
    place: u64,
    stream: Option<Stream>,
    fault: Option<FrameFault>,
    has_room: bool,
}

impl Model for Deframer {
    ghost use Rattle.std.specs.Prelude.{◌≤◌, drop, vec_len, vec_capacity, IsTrue};
    ghost use Rattle.artery_frame.specs.Kept.{Kept, IsSettledBy};

    ghost Value = { Kept };

    ghost view = { λ d. record { rest = drop d.from d.buffer.items; place = d.place; stream = d.stream; fault = d.fault; has_room = d.has_room } };

    ghost invariant = { λ d. (d.from ≤ vec_len d.buffer) × (IsTrue d.has_room → 655368 ≤ vec_capacity d.buffer)
        × IsSettledBy d.stream (drop d.from d.buffer.items) };
}

impl Deframer {
    ghost use Rattle.artery_frame.specs.contracts.deframer.Deframer.{the_row};

    /// Takes the first piece of a stream. It has no room but what `feed` makes, and takes no memory now:
    /// its buffer keeps the allocator.
    pub fn new(alloc: Global) -> Deframer
        ensures kept { result ≡ nothing_kept false }
        ensures stands { Stands result [] [] }
    {
        Deframer::with_buffer(Vec::new(alloc), false)
    }

    /// The same, with the room that `feed_room` needs.
    pub fn with_room(alloc: Global) -> Result<Deframer, NoMemory>
        ensures kept { IfOk result (λ d. d ≡ nothing_kept true) }
        ensures stands { IfOk result (λ d. Stands d [] []) }
    {
        let buffer = Vec::with_capacity(alloc, ROOM)?;
        Ok(Deframer::with_buffer(buffer, true))
    }

    /// Takes the next piece of the stream, at most 65,536 bytes. `Broken` comes exactly where `next` has
    /// answered a fault. A refused piece changes nothing.
    #[tactic(auto)]
    pub fn feed(&mut self, piece: &[u8]) -> Result<(), FeedFault>
        requires { length piece.now ≤ piece_limit }
        ensures ok { OnOk result (self.new ≡ kept_fed piece.now self.old) }
        ensures err { OnErr result (self.new ≡ self.old) }
        ensures broken { IsErrOf result FeedFault.Broken → IsSome self.old.fault }
        ensures refused { IsSome self.old.fault → result ≡ Err FeedFault.Broken }
        ensures room { self.new.has_room ≡ self.old.has_room }
        ensures fault { self.new.fault ≡ self.old.fault }
        ensures stands { OnOk result ((fed : List ℕ) (given : List (List ℕ)) → Stands self.old fed given
            → Stands self.new (fed ++ piece.now) given) }
    {
        if self.is_broken() {
            return Err(FeedFault::Broken);
        }
        self.append(piece)?;
        Ok(())
    }

    /// Takes the next piece of the stream, as `feed`, but without memory: it wants room, and with the
    /// piece at most 327,684 bytes held. `Broken` comes exactly where `next` has answered a fault, and
    /// changes nothing.
    #[tactic(auto)]
    pub fn feed_room(&mut self, piece: &[u8]) -> Result<(), Broken>
        requires has_room { IsTrue self.old.has_room }
        requires piece { length piece.now ≤ piece_limit }
        requires held { length self.old.rest + length piece.now ≤ held_limit }
        ensures ok { OnOk result (self.new ≡ kept_fed piece.now self.old) }
        ensures err { OnErr result (self.new ≡ self.old) }
        ensures broken { is_err result ≡ is_some self.old.fault }
        ensures room { self.new.has_room ≡ self.old.has_room }
        ensures fault { self.new.fault ≡ self.old.fault }
        ensures stands { OnOk result ((fed : List ℕ) (given : List (List ℕ)) → Stands self.old fed given
            → Stands self.new (fed ++ piece.now) given) }
    {
        if self.is_broken() {
            return Err(Broken);
        }
        let added = self.append(piece);
        prove!(added.is_ok());
        Ok(())
    }

    /// The next frame, in order, which is no longer held then. None where all whole frames were given and
    /// the stream may go on: less than 262,148 bytes are held then, whatever was fed. A fault where all were
    /// given and the stream has it, and again at each later call. Takes no memory.
    #[tactic(auto)]
    pub fn next(&mut self) -> Result<Option<&[u8]>, FrameFault>
        ensures answer { seen result ≡ kept_answer self.old }
        ensures given { (fed : List ℕ) (given : List (List ℕ)) → Stands self.old fed given
            → seen result ≡ next_of (reading_of fed) given }
        ensures small { seen result ≡ Ok None → length self.old.rest < 262148 }
        ensures* after { sem 𝓛 (Rests the_row self.entry (λ new. AfterNext self.old new (seen result))) }
    {
        self.take_frame()
    }

    /// What the stream carries, as soon as its five first bytes have come.
    pub fn stream(&self) -> Option<Stream>
        ensures kept { result ≡ self.now.stream }
        ensures read { (fed : List ℕ) (given : List (List ℕ)) → Stands self.now fed given
            → result ≡ (reading_of fed).stream }
    {
        self.stream
    }

    /// The place in the stream of the first byte not yet given out, and once a fault was answered that of
    /// the byte at fault, or of the first byte of the length at fault; at most 2^64 - 1.
    pub fn offset(&self) -> u64
        ensures kept { result ≡ self.now.place }
        ensures read { (fed : List ℕ) (given : List (List ℕ)) → Stands self.now fed given
            → result ≡ told (place_after self.now.fault (reading_of fed) given) }
    {
        self.place
    }

    /// How many bytes were fed and not yet given out. A frame counts with its length.
    #[tactic(auto, using(crate::proofs::Stood::held_is))]
    pub fn held(&self) -> usize
        ensures kept { result ≡ length self.now.rest }
        ensures read { (fed : List ℕ) (given : List (List ℕ)) → Stands self.now fed given
            → result + given_out (reading_of fed).stream given ≡ length fed }
    {
        self.buffer.len() - self.from
    }

    #[tactic(auto, using(crate::proofs::Holding::nothing_settled))]
    fn with_buffer(buffer: Vec<u8>, has_room: bool) -> Deframer
        requires empty { buffer.items ≡ [] }
        requires room { IsTrue has_room → ROOM ≤ vec_capacity buffer }
        ensures { result ≡ nothing_kept has_room }
    {
        Deframer {
            buffer,
            from: 0,
            place: 0,
            stream: None,
            fault: None,
            has_room,
        }
    }

    /// Whether a fault was answered.
    fn is_broken(&self) -> bool
        ensures { result ≡ is_some self.now.fault }
    {
        self.fault.is_some()
    }

    /// Adds a piece behind what is held, which is moved to the front first where that is worth its while,
    /// and takes the preamble off the front, once it is whole and good.
    #[tactic(auto, using(crate::proofs::Stood::fed_room, crate::proofs::Stood::fed_fault, crate::proofs::Holding::none_told, crate::proofs::Holding::one_told, crate::proofs::Holding::none_settled))]
    fn append(&mut self, piece: &[u8]) -> Result<(), AllocError>
        requires { length piece.now ≤ piece_limit }
        ensures ok { OnOk result (self.new ≡ kept_fed piece.now self.old) }
        ensures err { OnErr result (self.new ≡ self.old) }
        ensures room { self.new.has_room ≡ self.old.has_room }
        ensures fault { self.new.fault ≡ self.old.fault }
        ensures fits { IsTrue self.old.has_room → length self.old.rest + length piece.now ≤ held_limit → IsOk result }
    {
        self.from = cut_off(&mut self.buffer, self.from);
        self.buffer.extend_from_slice(piece)?;
        if let Some(stream) = new_stream(self.stream, &self.buffer[self.from..]) {
            self.from += PREAMBLE_LEN;
            self.place = PREAMBLE_LEN as u64;
            self.stream = Some(stream);
        }
        Ok(())
    }

    /// Takes the frame at the front, if a whole one stands there.
    #[tactic(auto, using(crate::proofs::Cuts::frame_cut_off, crate::proofs::Cuts::frame_shown, crate::proofs::Holding::frame_settled))]
    fn take_frame(&mut self) -> Result<Option<&[u8]>, FrameFault>
        ensures answer { seen result ≡ kept_answer self.old }
        ensures settled { IsSettled self.old }
        ensures* after { sem 𝓛 (Rests the_row self.entry (λ new. new ≡ kept_given self.old)) }
    {
        match self.look()? {
            None => Ok(None),
            Some(len) => {
                let start = self.from + LENGTH_LEN;
                self.from = start + len;
                self.place = self.place.saturating_add((LENGTH_LEN + len) as u64);
                Ok(Some(&self.buffer[start..start + len]))
            }
        }
    }

    /// The length of the whole frame at the front, which stays; a fault is kept.
    fn look(&mut self) -> Result<Option<usize>, FrameFault>
        ensures found { Looks result self.old self.new }
        ensures settled { IsSettled self.old }
    {
        if let Some(fault) = self.fault {
            return Err(fault);
        }
        let rest = &self.buffer[self.from..];
        let found = if self.stream.is_some() {
            frame_len(rest)
        } else {
            no_frame(rest)
        };
        if let Err(fault) = found {
            self.place = fault_place(fault, self.place);
            self.fault = Some(fault);
        }
        found
    }
}

/// The stream whose whole preamble stands at the front, where none is known.
fn new_stream(known: Option<Stream>, bytes: &[u8]) -> Option<Stream>
    ensures told { result ≡ new_stream known (preamble_of bytes.now) }
    ensures whole { IsSome result → 5 ≤ length bytes.now }
{
    if known.is_some() {
        return None;
    }
    match preamble_of(bytes) {
        Ok(stream) => stream,
        Err(_) => None,
    }
}

/// Before the preamble is whole there is no frame, but there may be a fault.
fn no_frame(bytes: &[u8]) -> Result<Option<usize>, FrameFault>
    ensures { FindsNone result bytes.now }
{
    preamble_of(bytes)?;
    Ok(None)
}

/// The place of a fault, where the first byte not yet given out has this place.
fn fault_place(fault: FrameFault, place: u64) -> u64
    ensures { result ≡ fault_place fault place }
{
    match fault {
        FrameFault::BadMagic { at } => at,
        FrameFault::BadStream { id: _ } => 4,
        FrameFault::TooLong { len: _ } => place,
    }
}
