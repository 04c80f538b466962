ghost use Rattle.artery_making.specs.Made.{stream_made};
ghost use Rattle.artery_cli.specs.Answers.{made_answer};
ghost use Rattle.artery_cli.specs.Telling.{AnswersOrStops};

use crate::refusal::{Refusal, refuse};
use crate::stop::Stop;
use crate::telling::tell;
use artery_io::Sink;
use artery_making::{MakeFault, make_stream};
use std::alloc::Global;

/// Answers lines of a connection with its bytes, or tells their first fault.
pub fn make_text<K: Sink>(alloc: Global, text: &[u8], output: &mut K) -> Result<u8, Stop>
    ensures { AnswersOrStops (made_answer (stream_made text.now)) result (K.held output.old) (K.held output.new) (K.faults output.old) (K.faults output.new) }
{
    match make_stream(alloc, text) {
        Ok(bytes) => tell(output, bytes.as_slice(), 0),
        Err(MakeFault::BadLine { line }) => refuse(alloc, Refusal::BadLine { line }, output),
        Err(MakeFault::TooManyLines) => refuse(alloc, Refusal::TooManyLines, output),
        Err(MakeFault::NoMemory) => Err(Stop::NoMemory),
    }
}
