ghost use Rattle.std.specs.Prelude.{◌≡◌, ◌++◌, ◌+◌, ◌<◌, ◌≤◌, Bool, List, ℕ, [], length, Ok, None};
ghost use Rattle.std.specs.List.{AllByRecursion};
ghost use Rattle.artery_base.specs.Words.{IsPrefix};
ghost use Rattle.artery_frame.specs.declared.stream.Stream.{Stream};
ghost use Rattle.artery_frame.specs.Stream.{Reading, IsReading, reading_of, GoesOn, new_frames, written, IsShort, whole_reading, IsFrontReading, frame_limit, piece_limit};
ghost use Rattle.artery_frame.specs.Kept.{Kept, nothing_kept, kept_fed, kept_answer, kept_given, IsSettled, LeavesHeld, held_limit};
ghost use Rattle.artery_frame.specs.Standing.{Stands, next_of, with_answer, given_out};

use crate::deframer::{HELD_LIMIT, PIECE_LIMIT};
use crate::front::FRAME_LIMIT;

/// Every list of bytes has exactly one reading. A longer list keeps the stream and the frames of a shorter
/// one, and has its reading once that has a fault, so it does not matter where a stream is cut. What was
/// written of a stream is read again, and bytes that begin it have a reading without a fault whose frames
/// are the first ones.
pub fn one_reading()
    ensures reading { (bytes : List ℕ) → IsReading bytes (reading_of bytes) }
    ensures only { (bytes : List ℕ) (r : Reading) → IsReading bytes r → r ≡ reading_of bytes }
    ensures longer { (bytes more : List ℕ) → GoesOn (reading_of bytes) (reading_of (bytes ++ more)) }
    ensures written { (stream : Stream) (frames : List (List ℕ)) → AllByRecursion IsShort frames
        → reading_of (written stream frames) ≡ whole_reading stream frames }
    ensures front { (stream : Stream) (frames : List (List ℕ)) (bytes : List ℕ) → AllByRecursion IsShort frames
        → IsPrefix bytes (written stream frames) → IsFrontReading stream frames (reading_of bytes) }
{}

/// Without an id there are no frames. The place of a reading is within the bytes, and without a fault it is
/// that behind the preamble and the frames.
pub fn readings_are_within()
    ensures nameless { (bytes : List ℕ) → (reading_of bytes).stream ≡ None → (reading_of bytes).frames ≡ [] }
    ensures within { (bytes : List ℕ) → (reading_of bytes).offset ≤ length bytes }
    ensures sound { (bytes : List ℕ) → (reading_of bytes).end ≡ None
        → (reading_of bytes).offset ≡ given_out (reading_of bytes).stream (reading_of bytes).frames }
{}

/// The frames of a stream are those that its pieces complete, in order: a piece completes the frames that the
/// bytes have with it and not without it, and a joined piece completes those of the first part, and then
/// those of the second behind it.
pub fn pieces_join()
    ensures first { (piece : List ℕ) → new_frames [] piece ≡ (reading_of piece).frames }
    ensures whole { (fed piece : List ℕ)
        → (reading_of (fed ++ piece)).frames ≡ (reading_of fed).frames ++ new_frames fed piece }
    ensures joined { (fed piece next : List ℕ)
        → new_frames fed (piece ++ next) ≡ new_frames fed piece ++ new_frames (fed ++ piece) next }
{}

/// How much is held, of whatever was fed: a piece that was taken leaves no whole preamble held, and neither
/// does `next`. So where nothing is given less than a whole frame with its length is held, and a frame
/// that was given is no longer held.
pub fn holding_stands()
    ensures start { (room : Bool) → IsSettled (nothing_kept room) }
    ensures fed { (k : Kept) (piece : List ℕ) → IsSettled (kept_fed piece k) }
    ensures given { (k : Kept) → IsSettled k → IsSettled (kept_given k) }
    ensures small { (k : Kept) → IsSettled k → kept_answer k ≡ Ok None → length k.rest < 262148 }
    ensures less { (k : Kept) → LeavesHeld (kept_answer k) k.rest (kept_given k).rest }
{}

/// The limits that the code compares with are the numbers of the definitions.
pub fn limits_stand()
    ensures frame { FRAME_LIMIT ≡ frame_limit }
    ensures piece { PIECE_LIMIT ≡ piece_limit }
    ensures held { HELD_LIMIT ≡ held_limit }
{}

/// What a `Deframer` keeps stands, through each call, for what was fed and given. Two pieces one after
/// the other are the joined piece.
pub fn keeping_stands()
    ensures start { (room : Bool) → Stands (nothing_kept room) [] [] }
    ensures fed { (k : Kept) (fed piece : List ℕ) (given : List (List ℕ)) → Stands k fed given → k.fault ≡ None
        → Stands (kept_fed piece k) (fed ++ piece) given }
    ensures answer { (k : Kept) (fed : List ℕ) (given : List (List ℕ)) → Stands k fed given
        → kept_answer k ≡ next_of (reading_of fed) given }
    ensures given { (k : Kept) (fed : List ℕ) (given : List (List ℕ)) → Stands k fed given
        → Stands (kept_given k) fed (with_answer given (kept_answer k)) }
    ensures held { (k : Kept) (fed : List ℕ) (given : List (List ℕ)) → Stands k fed given
        → length k.rest + given_out (reading_of fed).stream given ≡ length fed }
    ensures small { (k : Kept) (fed : List ℕ) (given : List (List ℕ)) → Stands k fed given → kept_answer k ≡ Ok None
        → length k.rest < 262148 }
    ensures joined { (k : Kept) (piece next : List ℕ) → kept_fed next (kept_fed piece k) ≡ kept_fed (piece ++ next) k }
{}
