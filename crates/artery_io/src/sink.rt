ghost use Rattle.std.specs.Prelude.{OnOk, ℕ, ◌<◌, ◌≤◌, List, length, Option, IfOk};
ghost use Rattle.std.specs.Io.KnownBytes.{WriteAppends, Appends};
ghost use Rattle.artery_io.specs.Faults.{HasCause};
ghost use Rattle.artery_io.specs.Written.{TakesFront};

use crate::source::Failed;

/// Where bytes go: a file, a terminal, a buffer in memory.
pub trait Sink {
    /// The bytes that it holds, where the sink tells them.
    ghost held: { Self → Option (List ℕ) };

    /// How many writes have failed. A count that a `u64` keeps stays at its end.
    ghost faults: { Self → ℕ };

    /// Takes a front of `piece`, at least one byte, and answers how many bytes it took.
    /// `Failed` comes only where the count of faults rose, and takes nothing.
    fn write(&mut self, piece: &[u8]) -> Result<usize, Failed>
        requires { 0 < length piece.now }
        ensures some { IfOk result (λ n. 0 < n) }
        ensures bound { IfOk result (λ n. n ≤ length piece.now) }
        ensures bytes { WriteAppends (held self.old) (held self.new) result piece.now }
        ensures cause { HasCause (faults self.old) (faults self.new) result };
}

/// Writes all of `piece`, however many bytes the sink takes at a time. At `Failed` the sink has
/// taken a front of it.
#[tactic(auto, using(crate::proofs::WrittenLemmas::takes_nothing, crate::proofs::WrittenLemmas::takes_more, crate::proofs::WrittenLemmas::front_taken, crate::proofs::WrittenLemmas::all_taken))]
pub fn write_all<K: Sink>(sink: &mut K, piece: &[u8]) -> Result<(), Failed>
    ensures all { OnOk result (Appends (K.held sink.old) (K.held sink.new) piece.now) }
    ensures front { TakesFront (K.held sink.old) (K.held sink.new) piece.now }
    ensures cause { HasCause (K.faults sink.old) (K.faults sink.new) result }
{
    let mut rest = piece;
    while !rest.is_empty() {
        let taken = sink.write(rest)?;
        let (_, more) = rest.split_at(taken);
        rest = more;
    }
    Ok(())
}
