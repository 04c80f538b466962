ghost use Rattle.artery_cli.specs.Answers.{refusal_answer};
ghost use Rattle.artery_cli.specs.Telling.{AnswersOrStops};

use crate::fault_text::bad_line;
use crate::stop::Stop;
use crate::telling::tell;
use artery_io::Sink;
use std::alloc::Global;

/// Why an input is refused before its command is done.
#[derive(Clone, Copy, Debug, PartialEq, Eq)]
pub enum Refusal {
    /// There are more than 67,108,864 bytes.
    TooManyBytes,
    /// There are more than 1,000,000 lines.
    TooManyLines,
    /// There are more than 64 parts of an audit.
    TooManyParts,
    /// The first line that tells nothing, is missing or is too many, counted from 1.
    BadLine { line: u64 },
}

/// Tells why an input is refused, and gives the status.
pub fn refuse<K: Sink>(alloc: Global, refusal: Refusal, output: &mut K) -> Result<u8, Stop>
    ensures { AnswersOrStops (refusal_answer refusal) result (K.held output.old) (K.held output.new) (K.faults output.old) (K.faults output.new) }
{
    match refusal {
        Refusal::TooManyBytes => tell(output, b"fault limit bytes\n", 6),
        Refusal::TooManyLines => tell(output, b"fault limit lines\n", 6),
        Refusal::TooManyParts => tell(output, b"fault limit parts\n", 6),
        Refusal::BadLine { line } => {
            let text = bad_line(alloc, line)?;
            tell(output, text.as_slice(), 2)
        }
    }
}
