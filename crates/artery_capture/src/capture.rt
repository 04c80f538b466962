ghost use Rattle.std.specs.Prelude.{◌≡◌, ◌≢◌, ℕ, ◌+◌, ◌<◌, ◌≤◌, ◌^◌, [], ◌∷◌, ◌++◌, List, length, take, codes, decimal, Option, Some, None, IsTrue, IfSome, IsOk, IfOk, OnOk, OnErr};
ghost use Rattle.artery_frame.specs.Stream.{id_of};
ghost use Rattle.artery_frame.specs.Kept.{kept_given, kept_answer};
ghost use Rattle.artery_frame.specs.Standing.{Stands};
ghost use Rattle.artery_capture.specs.declared.progress.Progress.TheVariants.{GoingOn};
ghost use Rattle.artery_capture.specs.Shown.{stream_line, stream_fault_word, rest_line, fault_line, last_line, has_fault};
ghost use Rattle.artery_capture.specs.Captured.{KeptCapture, ShowsBy, Shows, TellsMore, HoldsLittle, new_stream_line, answer_lines, end_of, AllShown};

use crate::frame_text::print_frame;
use crate::progress::Progress;
use artery_base::{Bytes, NoMemory};
use artery_frame::{
    Deframer, FrameFault, Stream, keeping_stands, one_reading, readings_are_within,
};
use artery_text::print_number;
use std::alloc::Global;
use std::marker::Model;

/// The bytes of one connection, as they come in pieces, and how far they were shown as lines.
#[derive(Drop)]
pub struct Capture {
    deframer: Deframer,
    progress: Progress,
}

impl Model for Capture {
    ghost use Rattle.std.specs.Prelude.{length, IsTrue};
    ghost use Rattle.artery_capture.specs.Captured.{KeptCapture, HoldsLittle};

    ghost Value = { KeptCapture };

    ghost view = { λ c. record { deframer = c.deframer; progress = c.progress } };

    ghost invariant = { λ c. IsTrue c.deframer.has_room × HoldsLittle c.progress (length c.deframer.rest) };
}

fn stream_id(stream: Stream) -> u64
    ensures { result ≡ id_of stream }
{
    match stream {
        Stream::Control => 1,
        Stream::Ordinary => 2,
    }
}

#[tactic(auto, using(crate::proofs::Appending::keeps_front))]
fn put_stream_line(stream: Stream, out: &mut Bytes) -> Result<(), NoMemory>
    ensures ok { OnOk result (out.new ≡ out.old ++ stream_line (Some stream)) }
    ensures kept { take (length out.old) out.new ≡ out.old }
{
    out.extend_from_slice(b"stream ")?;
    print_number(stream_id(stream), out)?;
    out.push(b'\n')
}

// The line of the stream, where it was not known before.
fn put_stream(known: Option<Stream>, now: Option<Stream>, out: &mut Bytes) -> Result<(), NoMemory>
    ensures ok { OnOk result (out.new ≡ out.old ++ new_stream_line known now) }
    ensures kept { take (length out.old) out.new ≡ out.old }
{
    match known {
        Some(_) => Ok(()),
        None => match now {
            None => Ok(()),
            Some(stream) => put_stream_line(stream, out),
        },
    }
}

// The lines of the next frame; without one, how far the capture is then.
fn put_next(
    deframer: &mut Deframer,
    alloc: Global,
    out: &mut Bytes,
) -> Result<Option<Progress>, NoMemory>
    ensures given { deframer.new ≡ kept_given deframer.old }
    ensures room { deframer.new.has_room ≡ deframer.old.has_room }
    ensures end { IfOk result (λ end. end ≡ end_of (kept_answer deframer.old)) }
    ensures falls { IfOk result (λ end. end ≡ None → length deframer.new.rest < length deframer.old.rest) }
    ensures little { IfOk result (λ end. IfSome end (λ progress. HoldsLittle progress (length deframer.new.rest))) }
    ensures lines { OnOk result (out.new ≡ out.old ++ answer_lines (kept_answer deframer.old)) }
    ensures err { OnErr result (out.new ≡ out.old) }
{
    match deframer.next() {
        Ok(Some(frame)) => {
            print_frame(alloc, frame, out)?;
            Ok(None)
        }
        Ok(None) => Ok(Some(Progress::GoingOn)),
        Err(fault) => Ok(Some(Progress::Faulty { fault })),
    }
}

#[tactic(auto, using(crate::proofs::Appending::keeps_front))]
fn put_frames(deframer: &mut Deframer, alloc: Global, out: &mut Bytes) -> Result<Progress, NoMemory>
    ensures room { deframer.new.has_room ≡ deframer.old.has_room }
    ensures little { IfOk result (λ progress. HoldsLittle progress (length deframer.new.rest)) }
    ensures shown { IfOk result (λ progress. (fed : List ℕ) (given : List (List ℕ)) → Stands deframer.old fed given
        → AllShown progress deframer.new fed given out.old out.new) }
    ensures kept { take (length out.old) out.new ≡ out.old }
{
    keeping_stands();
    loop {
        match put_next(deframer, alloc, out)? {
            Some(progress) => return Ok(progress),
            None => {}
        }
    }
}

#[tactic(auto, using(crate::proofs::Appending::keeps_front, crate::proofs::Appending::keeps_on))]
fn put_piece(
    deframer: &mut Deframer,
    alloc: Global,
    piece: &[u8],
    out: &mut Bytes,
) -> Result<Progress, NoMemory>
    requires room { IsTrue deframer.old.has_room }
    requires little { length deframer.old.rest < 262148 }
    requires piece { length piece.now ≤ 65536 }
    ensures room { deframer.new.has_room ≡ deframer.old.has_room }
    ensures little { IfOk result (λ progress. HoldsLittle progress (length deframer.new.rest)) }
    ensures told { IfOk result (λ progress. (fed : List ℕ) → ShowsBy GoingOn deframer.old fed
        → TellsMore (record { deframer = deframer.new; progress = progress }) fed piece.now out.old out.new) }
    ensures kept { take (length out.old) out.new ≡ out.old }
{
    one_reading();
    readings_are_within();
    let known = deframer.stream();
    let Ok(()) = deframer.feed_room(piece) else {
        return Ok(Progress::GoingOn);
    };
    put_stream(known, deframer.stream(), out)?;
    let progress = put_frames(deframer, alloc, out)?;
    Ok(progress)
}

fn stream_fault_word(fault: FrameFault) -> &'static [u8]
    ensures { result.now ≡ stream_fault_word fault }
{
    match fault {
        FrameFault::BadMagic { at: _ } => b"bad-magic",
        FrameFault::BadStream { id: _ } => b"bad-stream",
        FrameFault::TooLong { len: _ } => b"too-long",
    }
}

#[tactic(auto, using(crate::proofs::Appending::keeps_front))]
fn put_rest(count: u64, out: &mut Bytes) -> Result<(), NoMemory>
    ensures ok { OnOk result (out.new ≡ out.old ++ rest_line count) }
    ensures kept { take (length out.old) out.new ≡ out.old }
{
    out.extend_from_slice(b"rest ")?;
    print_number(count, out)?;
    out.push(b'\n')
}

#[tactic(auto, using(crate::proofs::Appending::keeps_front))]
fn put_fault(fault: FrameFault, offset: u64, out: &mut Bytes) -> Result<(), NoMemory>
    ensures ok { OnOk result (out.new ≡ out.old ++ fault_line fault offset) }
    ensures kept { take (length out.old) out.new ≡ out.old }
{
    out.extend_from_slice(b"fault stream ")?;
    out.extend_from_slice(stream_fault_word(fault))?;
    out.push(b' ')?;
    print_number(offset, out)?;
    out.push(b'\n')
}

impl Capture {
    /// A capture of which no bytes have come, with the room for its pieces.
    pub fn with_room(alloc: Global) -> Result<Capture, NoMemory>
        ensures { IfOk result (λ c. Shows c []) }
    {
        Ok(Capture {
            deframer: Deframer::with_room(alloc)?,
            progress: Progress::GoingOn,
        })
    }

    /// Takes the next piece, at most 65,536 bytes, and appends the lines of the frames that it completes,
    /// behind the stream's line where it completes the preamble. A stream at fault takes each further
    /// piece: the answer is Ok and nothing is appended. Without memory `out` stays as it was, and the
    /// capture is of no further use.
    pub fn tell(&mut self, alloc: Global, piece: &[u8], out: &mut Bytes) -> Result<(), NoMemory>
        requires { length piece.now ≤ 65536 }
        ensures told { OnOk result ((fed : List ℕ) → Shows self.old fed → TellsMore self.new fed piece.now out.old out.new) }
        ensures at_fault { (fed : List ℕ) → Shows self.old fed → IsTrue (has_fault fed)
            → IsOk result × (self.new ≡ self.old) × (out.new ≡ out.old) }
        ensures err { OnErr result (out.new ≡ out.old) }
    {
        one_reading();
        match self.progress {
            Progress::GoingOn => {}
            Progress::Faulty { fault: _ } => return Ok(()),
            Progress::Lost => return Err(NoMemory),
        }
        let before = out.len();
        match put_piece(&mut self.deframer, alloc, piece, out) {
            Ok(progress) => {
                self.progress = progress;
                Ok(())
            }
            Err(fault) => {
                self.progress = Progress::Lost;
                out.truncate(before);
                Err(fault)
            }
        }
    }

    fn put_last(&self, out: &mut Bytes) -> Result<bool, NoMemory>
        ensures ok { (fed : List ℕ) → Shows self.now fed → length fed < 2 ^ 63
            → IfOk result (λ faulty. (faulty ≡ has_fault fed) × (out.new ≡ out.old ++ last_line fed)) }
        ensures kept { take (length out.old) out.new ≡ out.old }
    {
        keeping_stands();
        readings_are_within();
        match self.progress {
            Progress::GoingOn => {
                put_rest(self.deframer.held() as u64, out)?;
                Ok(false)
            }
            Progress::Faulty { fault } => {
                put_fault(fault, self.deframer.offset(), out)?;
                Ok(true)
            }
            Progress::Lost => Err(NoMemory),
        }
    }

    /// Appends the last line, once all bytes were taken, and answers whether the stream has a fault: how
    /// many bytes are no whole preamble or frame, or the fault and its place. Without memory `out` stays as
    /// it was.
    pub fn finish(&self, out: &mut Bytes) -> Result<bool, NoMemory>
        ensures ok { (fed : List ℕ) → Shows self.now fed → length fed < 2 ^ 63
            → IfOk result (λ faulty. (faulty ≡ has_fault fed) × (out.new ≡ out.old ++ last_line fed)) }
        ensures err { OnErr result (out.new ≡ out.old) }
    {
        let before = out.len();
        match self.put_last(out) {
            Ok(faulty) => Ok(faulty),
            Err(fault) => {
                out.truncate(before);
                Err(fault)
            }
        }
    }
}
