ghost use Rattle.std.specs.Prelude.{◌≡◌, IfOk, Result, Ok, Err};
ghost use Rattle.artery_cli.specs.Answers.{check_answer, checked, payload_in, payload_of};
ghost use Rattle.artery_cli.specs.Checking.{ReadsPayload, control_memory};
ghost use Rattle.artery_cli.specs.Telling.{AnswersOrStops};
ghost use Rattle.artery_control.specs.Message.{message_of};
ghost use Rattle.artery_lines.specs.Lines.{lines_of};

use crate::refusal::{Refusal, refuse};
use crate::stop::Stop;
use crate::telling::tell;
use artery_base::{Bytes, NoMemory};
use artery_capture::{print_control, print_control_fault};
use artery_control::{Control, ControlFault, read_control};
use artery_io::Sink;
use artery_lines::{TextLines, has_few_lines};
use artery_text::{WordFault, read_hex};
use std::alloc::Global;

/// Why no payload was read.
enum PayloadFault {
    Refused(Refusal),
    NoMemory,
}

/// The payload of the only line.
fn read_only_line(alloc: Global, lines: &mut TextLines<'_>) -> Result<Bytes, PayloadFault>
    ensures { ReadsPayload result (payload_in lines.old) }
{
    let Some(line) = lines.next() else {
        return Err(PayloadFault::Refused(Refusal::BadLine { line: 1 }));
    };
    let payload = match read_hex(alloc, line) {
        Ok(payload) => payload,
        Err(WordFault::BadWord { at: _ }) => {
            return Err(PayloadFault::Refused(Refusal::BadLine { line: 1 }));
        }
        Err(WordFault::NoMemory) => return Err(PayloadFault::NoMemory),
    };
    if let Some(_line) = lines.next() {
        return Err(PayloadFault::Refused(Refusal::BadLine { line: 2 }));
    }
    Ok(payload)
}

/// The payload that a text tells in hexadecimal on its one line.
fn read_payload(alloc: Global, text: &[u8]) -> Result<Bytes, PayloadFault>
    ensures { ReadsPayload result (payload_of text.now) }
{
    if !has_few_lines(text) {
        return Err(PayloadFault::Refused(Refusal::TooManyLines));
    }
    let mut lines = TextLines::new(text);
    read_only_line(alloc, &mut lines)
}

/// The line that tells a control message.
fn message_line(alloc: Global, control: &Control) -> Result<Bytes, NoMemory>
    ensures { IfOk result (λ text. text ≡ (checked (Ok control.now)).written) }
{
    let mut text = Bytes::from_slice(alloc, b"control ")?;
    print_control(control, &mut text)?;
    text.extend_from_slice(b"\n")?;
    Ok(text)
}

/// The line that tells why a payload is no control message.
fn fault_line(alloc: Global, fault: ControlFault) -> Result<Bytes, NoMemory>
    ensures { IfOk result (λ text. text ≡ (checked (Err fault)).written) }
{
    let mut text = Bytes::from_slice(alloc, b"fault control ")?;
    print_control_fault(fault, &mut text)?;
    text.extend_from_slice(b"\n")?;
    Ok(text)
}

/// Whether memory ran out.
fn is_memory(fault: ControlFault) -> bool
    ensures { result ≡ control_memory fault }
{
    matches!(fault, ControlFault::NoMemory)
}

/// Tells a payload as the control message of a manifest, or its first fault.
#[tactic(auto, using(crate::proofs::Faults::first_fault))]
fn check_payload<K: Sink>(
    alloc: Global,
    manifest: &[u8],
    payload: &[u8],
    output: &mut K,
) -> Result<u8, Stop>
    ensures { AnswersOrStops (checked (message_of manifest.now payload.now)) result (K.held output.old) (K.held output.new) (K.faults output.old) (K.faults output.new) }
{
    match read_control(alloc, manifest, payload) {
        Ok(control) => {
            let text = message_line(alloc, &control)?;
            tell(output, text.as_slice(), 0)
        }
        Err(fault) => {
            if is_memory(fault) {
                return Err(Stop::NoMemory);
            }
            let text = fault_line(alloc, fault)?;
            tell(output, text.as_slice(), 1)
        }
    }
}

/// Answers a payload in hexadecimal with its control message, or tells the first fault.
pub fn check_text<K: Sink>(
    alloc: Global,
    manifest: &[u8],
    text: &[u8],
    output: &mut K,
) -> Result<u8, Stop>
    ensures { AnswersOrStops (check_answer manifest.now (payload_of text.now)) result (K.held output.old) (K.held output.new) (K.faults output.old) (K.faults output.new) }
{
    match read_payload(alloc, text) {
        Ok(payload) => check_payload(alloc, manifest, payload.as_slice(), output),
        Err(PayloadFault::Refused(refusal)) => refuse(alloc, refusal, output),
        Err(PayloadFault::NoMemory) => Err(Stop::NoMemory),
    }
}
