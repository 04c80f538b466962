ghost use Rattle.std.specs.Prelude.{◌≡◌, ℕ, List, [], ◌+◌, ◌≤◌, ◌<◌, ◌++◌, length, Some, OnOk, IfOk, IfErr, IfSome, IsErrOf};
ghost use Rattle.artery_io.specs.Faults.{Rose};
ghost use Rattle.artery_capture.specs.Captured.{Shows};
ghost use Rattle.artery_capture.specs.Shown.{last_line};
ghost use Rattle.artery_cli.specs.Answers.{Answers, show_answer, capture_answer};
ghost use Rattle.artery_cli.specs.Leaving.{Leaves, LeavesRead, WritingStops};
ghost use Rattle.artery_cli.specs.Reading.{ReadsAll, ReadsAtMost};
ghost use Rattle.artery_cli.specs.Showing.{WritesLines, StopsInPiece, Ends};
ghost use Rattle.artery_cli.specs.declared.command.Command.TheVariants.{Show};
ghost use Rattle.artery_cli.specs.Limits.{most_bytes};
ghost use Rattle.artery_cli.specs.declared.stop.Stop.TheVariants as stops;

use crate::input::MOST_BYTES;
use crate::stop::Stop;
use crate::telling::{put, tell};
use artery_base::Bytes;
use artery_capture::{Capture, nothing_told};
use artery_io::{Failed, Sink, Source};
use std::alloc::Global;

/// The most bytes of a piece.
const MOST_PIECE: usize = 65_536;

/// Writes the lines of the frames that a piece completes.
#[tactic(auto, using(crate::proofs::ShownSoFar::piece_written, crate::proofs::ShownSoFar::piece_stopped, crate::proofs::Sinks::keeps_same))]
fn show_piece<K: Sink>(
    alloc: Global,
    capture: &mut Capture,
    piece: &[u8],
    lines: &mut Bytes,
    output: &mut K,
) -> Result<(), Stop>
    requires { length piece.now ≤ MOST_PIECE }
    ensures shown { OnOk result ((fed : List ℕ) → Shows capture.old fed → WritesLines capture.new fed piece.now (K.held output.old) (K.held output.new)) }
    ensures left { IfErr result (λ stop. (fed : List ℕ) → Shows capture.old fed → StopsInPiece stop fed piece.now (K.held output.old) (K.held output.new)) }
    ensures later { K.faults output.old ≤ K.faults output.new }
    ensures write { IsErrOf result stops.Write → Rose (K.faults output.old) (K.faults output.new) }
{
    lines.clear();
    capture.tell(alloc, piece, lines)?;
    put(output, lines.as_slice())
}

/// Writes the last line, and tells whether the stream has a fault.
fn show_end<K: Sink>(capture: &Capture, lines: &mut Bytes, output: &mut K) -> Result<u8, Stop>
    ensures ended { IfOk result (λ status. (fed : List ℕ) → Shows capture.now fed → length fed ≤ most_bytes → Ends status fed (K.held output.old) (K.held output.new)) }
    ensures left { IfErr result (λ stop. (fed : List ℕ) → Shows capture.now fed → length fed ≤ most_bytes → WritingStops stop (last_line fed) (K.held output.old) (K.held output.new)) }
    ensures plain { IfOk result (λ status. status ≤ 1) }
    ensures later { K.faults output.old ≤ K.faults output.new }
    ensures write { IsErrOf result stops.Write → Rose (K.faults output.old) (K.faults output.new) }
{
    lines.clear();
    let faulty = capture.finish(lines)?;
    tell(output, lines.as_slice(), if faulty { 1 } else { 0 })
}

/// Tells the bytes of a connection: the lines of each frame as it comes, and at the end the last
/// line.
#[tactic(auto, using(crate::proofs::ShownSoFar::shows_first, crate::proofs::ShownSoFar::shows_next, crate::proofs::ShownSoFar::shows_end, crate::proofs::ShownSoFar::shows_long, crate::proofs::ShownSoFar::shows_read, crate::proofs::ShownSoFar::shows_stopped, crate::proofs::ShownSoFar::shows_until, crate::proofs::ShownSoFar::shows_end_stopped, crate::proofs::ShownSoFar::shows_long_stopped, crate::proofs::ShownSoFar::ended_here, crate::proofs::ShownSoFar::ended_past_limit, crate::proofs::Stopping::leaves_nothing_here))]
pub fn show<S: Source, K: Sink>(
    alloc: Global,
    input: &mut S,
    output: &mut K,
    buffer: &mut [u8],
) -> Result<u8, Stop>
    requires { 0 < length buffer.old }
    ensures answers { IfOk result (λ status. IfSome (S.left input.old) (λ bytes. Answers (show_answer bytes) (K.held output.old) (K.held output.new) status)) }
    ensures left { IfErr result (λ stop. IfSome (S.left input.old) (λ bytes. Leaves stop (Some Show) bytes (K.held output.old) (K.held output.new))) }
    ensures ended { IfOk result (λ _. ReadsAll (S.left input.old) (S.left input.new)) }
    ensures bounded { ReadsAtMost (most_bytes + 1) (S.left input.old) (S.left input.new) }
    ensures read { IsErrOf result stops.Read → Rose (S.faults input.old) (S.faults input.new) }
    ensures seen { IsErrOf result stops.Read → LeavesRead (Some Show) [] (S.left input.old) (S.left input.new) (K.held output.old) (K.held output.new) }
    ensures plain { IfOk result (λ status. (status ≡ 3 → ⊥) × (status ≡ 4 → ⊥) × (status ≡ 9 → ⊥)) }
    ensures later { K.faults output.old ≤ K.faults output.new }
    ensures write { IsErrOf result stops.Write → Rose (K.faults output.old) (K.faults output.new) }
{
    nothing_told();
    let mut capture = Capture::with_room(alloc)?;
    let mut lines = Bytes::new(alloc);
    let mut seen = 0;
    for _ in 0..u64::MAX {
        let room = buffer.len().min(MOST_PIECE).min(MOST_BYTES + 1 - seen);
        let (into, _) = buffer.split_at_mut(room);
        let count = match input.read(into) {
            Ok(count) => count,
            Err(Failed) => return Err(Stop::Read),
        };
        if count == 0 {
            return show_end(&capture, &mut lines, output);
        }
        let (piece, _) = into.split_at(count);
        show_piece(alloc, &mut capture, piece, &mut lines, output)?;
        seen += count;
        if seen > MOST_BYTES {
            return tell(output, b"fault limit bytes\n", 6);
        }
    }
    Err(Stop::NoMemory)
}
