ghost use Rattle.std.specs.Prelude.{◌≡◌, ◌≤◌, OnOk, IfOk, IfErr, IsErrOf};
ghost use Rattle.std.specs.Io.KnownBytes.{Appends};
ghost use Rattle.artery_io.specs.Faults.{Rose};
ghost use Rattle.artery_cli.specs.Answers.{IsDone, answer_with};
ghost use Rattle.artery_cli.specs.Leaving.{WritingStops};
ghost use Rattle.artery_cli.specs.Telling.{AnswersOrStops};
ghost use Rattle.artery_cli.specs.declared.stop.Stop.TheVariants as stops;

use crate::stop::Stop;
use artery_io::{Failed, Sink, write_all};

/// Writes a text.
pub fn put<K: Sink>(output: &mut K, text: &[u8]) -> Result<(), Stop>
    ensures written { OnOk result (Appends (K.held output.old) (K.held output.new) text.now) }
    ensures left { IfErr result (λ stop. WritingStops stop text.now (K.held output.old) (K.held output.new)) }
    ensures later { K.faults output.old ≤ K.faults output.new }
    ensures write { IsErrOf result stops.Write → Rose (K.faults output.old) (K.faults output.new) }
{
    match write_all(output, text) {
        Ok(()) => Ok(()),
        Err(Failed) => Err(Stop::Write),
    }
}

/// Writes a text, and gives a status.
pub fn tell<K: Sink>(output: &mut K, text: &[u8], status: u8) -> Result<u8, Stop>
    ensures written { OnOk result (Appends (K.held output.old) (K.held output.new) text.now) }
    ensures is_status { IfOk result (λ answer. answer ≡ status) }
    ensures left { IfErr result (λ stop. WritingStops stop text.now (K.held output.old) (K.held output.new)) }
    ensures later { K.faults output.old ≤ K.faults output.new }
    ensures write { IsErrOf result stops.Write → Rose (K.faults output.old) (K.faults output.new) }
    ensures ends { IsDone status → AnswersOrStops (answer_with text.now status) result (K.held output.old) (K.held output.new) (K.faults output.old) (K.faults output.new) }
{
    put(output, text)?;
    Ok(status)
}
