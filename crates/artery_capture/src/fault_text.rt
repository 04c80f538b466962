ghost use Rattle.std.specs.Prelude.{◌≡◌, [], ◌∷◌, ◌++◌, length, take, codes, decimal, OnOk, OnErr};
ghost use Rattle.artery_control.specs.declared.fault.ControlFault.TheVariants as faults;
ghost use Rattle.artery_capture.specs.ControlText.{path_text, wire_fault_text, fault_text};

use artery_base::{Bytes, NoMemory};
use artery_control::{ControlFault, Path};
use artery_text::print_number;
use artery_wire::WireFault;

// Numbers of fields, joined by dots.
#[tactic(auto, using(crate::proofs::Appending::keeps_front, crate::proofs::Appending::keeps_on))]
fn put_two(outer: u8, inner: u8, out: &mut Bytes) -> Result<(), NoMemory>
    ensures ok { OnOk result (out.new ≡ out.old ++ decimal outer ++ codes "." ++ decimal inner) }
    ensures kept { take (length out.old) out.new ≡ out.old }
{
    print_number(u64::from(outer), out)?;
    out.push(b'.')?;
    print_number(u64::from(inner), out)
}

#[tactic(auto, using(crate::proofs::Appending::keeps_front, crate::proofs::Appending::keeps_on))]
fn put_path(path: Path, out: &mut Bytes) -> Result<(), NoMemory>
    ensures ok { OnOk result (out.new ≡ out.old ++ path_text path) }
    ensures kept { take (length out.old) out.new ≡ out.old }
{
    match path {
        Path::Message => out.push(b'-'),
        Path::Field(number) => print_number(u64::from(number), out),
        Path::Inner(outer, inner) => put_two(outer, inner, out),
        Path::Innermost(outer, middle, inner) => {
            print_number(u64::from(outer), out)?;
            out.push(b'.')?;
            put_two(middle, inner, out)
        }
    }
}

// A word and a number.
#[tactic(auto, using(crate::proofs::Appending::keeps_front, crate::proofs::Appending::keeps_on))]
fn put_at(word: &[u8], at: usize, out: &mut Bytes) -> Result<(), NoMemory>
    ensures ok { OnOk result (out.new ≡ out.old ++ word.now ++ decimal at) }
    ensures kept { take (length out.old) out.new ≡ out.old }
{
    out.extend_from_slice(word)?;
    print_number(at as u64, out)
}

fn put_wire_fault(fault: WireFault, out: &mut Bytes) -> Result<(), NoMemory>
    ensures ok { OnOk result (out.new ≡ out.old ++ wire_fault_text fault) }
    ensures kept { take (length out.old) out.new ≡ out.old }
{
    match fault {
        WireFault::Varint { at } => put_at(b"varint ", at, out),
        WireFault::WireType { at } => put_at(b"wire-type ", at, out),
        WireFault::Truncated { at } => put_at(b"truncated ", at, out),
        WireFault::FieldNumber { at } => put_at(b"field-number ", at, out),
    }
}

// A word and a path.
#[tactic(auto, using(crate::proofs::Appending::keeps_front, crate::proofs::Appending::keeps_on))]
fn put_word_path(word: &[u8], path: Path, out: &mut Bytes) -> Result<(), NoMemory>
    ensures ok { OnOk result (out.new ≡ out.old ++ word.now ++ path_text path) }
    ensures kept { take (length out.old) out.new ≡ out.old }
{
    out.extend_from_slice(word)?;
    put_path(path, out)
}

#[tactic(auto, using(crate::proofs::Appending::keeps_front, crate::proofs::Appending::keeps_on))]
fn put_wire(path: Path, fault: WireFault, out: &mut Bytes) -> Result<(), NoMemory>
    ensures ok { OnOk result (out.new ≡ out.old ++ wire_fault_text fault ++ codes " " ++ path_text path) }
    ensures kept { take (length out.old) out.new ≡ out.old }
{
    put_wire_fault(fault, out)?;
    out.push(b' ')?;
    put_path(path, out)
}

#[tactic(auto, using(crate::proofs::Appending::keeps_front, crate::proofs::Appending::keeps_on))]
fn put_unequal(keys: usize, values: usize, out: &mut Bytes) -> Result<(), NoMemory>
    ensures ok { OnOk result (out.new ≡ out.old ++ codes "unequal " ++ decimal keys ++ codes " " ++ decimal values) }
    ensures kept { take (length out.old) out.new ≡ out.old }
{
    out.extend_from_slice(b"unequal ")?;
    print_number(keys as u64, out)?;
    out.push(b' ')?;
    print_number(values as u64, out)
}

#[tactic(auto, using(crate::proofs::Appending::keeps_front, crate::proofs::Appending::keeps_on))]
fn put_fault(fault: ControlFault, out: &mut Bytes) -> Result<(), NoMemory>
    ensures ok { OnOk result (out.new ≡ out.old ++ fault_text fault) }
    ensures kept { take (length out.old) out.new ≡ out.old }
{
    match fault {
        ControlFault::UnknownManifest => out.extend_from_slice(b"unknown-manifest"),
        ControlFault::Wire { path, fault } => put_wire(path, fault, out),
        ControlFault::Missing { path } => put_word_path(b"missing ", path, out),
        ControlFault::BadText { path } => put_word_path(b"bad-text ", path, out),
        ControlFault::Range { path } => put_word_path(b"range ", path, out),
        ControlFault::Unequal { keys, values } => put_unequal(keys, values, out),
        ControlFault::NoMemory => out.extend_from_slice(b"memory"),
    }
}

/// Appends the words of a fault: its name, its place where it has one, and the path to the field, which
/// is `-` for the message itself. Without memory `out` stays as it was.
pub fn print_control_fault(fault: ControlFault, out: &mut Bytes) -> Result<(), NoMemory>
    ensures ok { OnOk result (out.new ≡ out.old ++ fault_text fault) }
    ensures err { OnErr result (out.new ≡ out.old) }
{
    let before = out.len();
    let appended = put_fault(fault, out);
    out.settle(before, appended)
}
