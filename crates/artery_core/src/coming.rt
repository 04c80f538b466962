//! Bytes that come on an inbound connection.
ghost use Rattle.std.specs.Prelude.{◌≡◌, ◌≤◌, OnOk, IfOk, true, is_some, length};
ghost use Rattle.artery_frame.specs.Kept.{kept_answer, kept_given, LeavesHeld};
ghost use Rattle.artery_machine.specs.Parts.{kept, answers, frames_given, frames_gone, frames_kept, came_kept};
ghost use Rattle.artery_machine.specs.Doing.{in_bytes, each};
ghost use Rattle.artery_machine.specs.Hearing.{hears};
ghost use Rattle.artery_machine.specs.Reacting.{comes, ends_broken, ended};
ghost use Rattle.artery_core.specs.Coming.{next_told, TellsFault, frame_in};

use artery_base::NoMemory;
use artery_frame::{Deframer, FeedFault, FrameFault, Stream};
use artery_hearing::hears;
use artery_machine::Conn;
use artery_meeting::lost;
use artery_node::Work;
use artery_verdict::stream_rule;

/// What a stream gave next: a frame, nothing yet, or its fault.
enum Next {
    Frame,
    Nothing,
    Broken(FrameFault),
}

/// The next frame of a stream is heard, if a whole one came. Tells what came.
#[tactic(auto, using(crate::proofs::Given::nothing_told, crate::proofs::Given::fault_told))]
fn hears_next(
    work: &mut Work,
    number: u64,
    stream: Option<Stream>,
    bytes: &mut Deframer,
) -> Result<Next, NoMemory>
    ensures given { bytes.new ≡ kept_given bytes.old }
    ensures next { IfOk result (λ next. next ≡ next_told (kept_answer bytes.old)) }
    ensures held { OnOk result (LeavesHeld (kept_answer bytes.old) bytes.old.rest bytes.new.rest) }
    ensures fault { IfOk result (λ next. TellsFault next bytes.new.fault) }
    ensures work { OnOk result (work.new ≡ each (frame_in (kept_answer bytes.old)) (hears number stream) work.old) }
{
    match bytes.next() {
        Ok(Some(frame)) => {
            hears(work, number, stream, frame)?;
            Ok(Next::Frame)
        }
        Ok(None) => Ok(Next::Nothing),
        Err(fault) => Ok(Next::Broken(fault)),
    }
}

/// All frames of a stream that are whole are heard, in order. Tells the fault of the stream, where it has one.
fn hears_frames(
    work: &mut Work,
    number: u64,
    stream: Option<Stream>,
    bytes: &mut Deframer,
) -> Result<Option<FrameFault>, NoMemory>
    ensures bytes { OnOk result (bytes.new ≡ frames_gone (answers bytes.old) bytes.old) }
    ensures fault { IfOk result (λ fault. fault ≡ bytes.new.fault) }
    ensures work { OnOk result (work.new ≡ each (frames_given (answers bytes.old) bytes.old) (hears number stream) work.old) }
{
    let mut left = bytes.held();
    loop {
        match hears_next(work, number, stream, bytes)? {
            Next::Frame => left -= 1,
            Next::Nothing => return Ok(None),
            Next::Broken(fault) => return Ok(Some(fault)),
        }
    }
}

/// The fault that a stream told before, where it did.
fn fault_of(bytes: &mut Deframer) -> Option<FrameFault>
    requires { is_some bytes.old.fault ≡ true }
    ensures bytes { bytes.new ≡ bytes.old }
    ensures fault { result ≡ bytes.old.fault }
{
    match bytes.next() {
        Ok(_) => None,
        Err(fault) => Some(fault),
    }
}

/// A piece of a stream came: each frame that is whole now is heard, in order. Tells the fault of the stream, where it has one.
#[tactic(auto, using(crate::proofs::Given::stream_stays))]
fn hears_piece(
    work: &mut Work,
    number: u64,
    bytes: &mut Deframer,
    piece: &[u8],
) -> Result<Option<FrameFault>, NoMemory>
    requires { length piece.now ≤ 65536 }
    ensures bytes { OnOk result (bytes.new ≡ came_kept piece.now bytes.old) }
    ensures fault { IfOk result (λ fault. fault ≡ bytes.new.fault) }
    ensures work { OnOk result (work.new ≡ each (frames_kept piece.now bytes.old) (hears number (came_kept piece.now bytes.old).stream) work.old) }
{
    match bytes.feed(piece) {
        Ok(()) => {
            let stream = bytes.stream();
            let fault = hears_frames(work, number, stream, bytes)?;
            Ok(fault)
        }
        Err(FeedFault::Broken) => Ok(fault_of(bytes)),
        Err(FeedFault::NoMemory) => Err(NoMemory),
    }
}

/// A stream that is broken is dropped and hung up.
fn ends_broken(work: &mut Work, number: u64, fault: Option<FrameFault>) -> Result<(), NoMemory>
    ensures { OnOk result (work.new ≡ ends_broken number fault work.old) }
{
    let Some(fault) = fault else {
        return Ok(());
    };
    work.drops(number, stream_rule(fault))?;
    work.hang_up_inbound(number)?;
    work.removes_inbound(number);
    Ok(())
}

/// Bytes came on the inbound connection with a number: each frame that is whole now is heard, in order, and a broken stream ends. While its
/// frames are heard what came is set aside. Where there is no such connection, it is hung up.
pub fn comes(work: &mut Work, number: u64, piece: &[u8]) -> Result<(), NoMemory>
    requires { length piece.now ≤ 65536 }
    ensures { OnOk result (work.new ≡ comes number piece.now work.old) }
{
    let Some(mut bytes) = work.takes_bytes(number) else {
        return work.hang_up_inbound(number);
    };
    let fault = hears_piece(work, number, &mut bytes, piece)?;
    work.puts_bytes(number, bytes);
    ends_broken(work, number, fault)
}

/// A connection ended at the other side.
pub fn ended(work: &mut Work, conn: Conn) -> Result<(), NoMemory>
    ensures { OnOk result (work.new ≡ ended conn work.old) }
{
    match conn {
        Conn::Outward(dial) => lost(work, dial),
        Conn::Inward(number) => {
            work.removes_inbound(number);
            Ok(())
        }
    }
}
