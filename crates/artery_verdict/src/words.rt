//! The rules for the faults of the crates below.
ghost use Rattle.std.specs.Prelude.{◌≡◌};
ghost use Rattle.artery_machine.specs.Verdict.{name_word, header_rule, table_rule, codec_rule, path_word, wire_word, control_word};
ghost use Rattle.artery_machine.specs.Reacting.{stream_rule};

use artery_codec::DropRule;
use artery_control::{ControlFault, Path};
use artery_frame::FrameFault;
use artery_header::{HeaderFault, Which as HeaderWhich};
use artery_journal::{Fault, Path as JournalPath, Rule, Which};
use artery_tables::TableFault;
use artery_wire::WireFault;

/// Which name of a header it is.
pub(crate) fn name_word(which: HeaderWhich) -> Which
    ensures { result ≡ name_word which }
{
    match which {
        HeaderWhich::Sender => Which::Sender,
        HeaderWhich::Recipient => Which::Recipient,
        HeaderWhich::Manifest => Which::Manifest,
    }
}

/// The rule for the fault of a header.
pub(crate) fn header_rule(fault: HeaderFault) -> Rule
    ensures { result ≡ header_rule fault }
{
    match fault {
        HeaderFault::Short { len } => Rule::Short { len: len as u64 },
        HeaderFault::Version { v } => Rule::Version { version: v as u64 },
        HeaderFault::Metadata => Rule::Metadata,
        HeaderFault::LiteralPast { which } => Rule::LiteralPast {
            which: name_word(which),
        },
        HeaderFault::NotAscii { which } => Rule::NotAscii {
            which: name_word(which),
        },
    }
}

/// The rule for a name that means nothing.
fn table_rule(which: Which, fault: TableFault) -> Rule
    ensures { result ≡ table_rule which fault }
{
    match fault {
        TableFault::UnknownVersion { v } => Rule::UnknownVersion {
            which,
            version: v as u64,
        },
        TableFault::UnknownIndex { v, i } => Rule::UnknownIndex {
            which,
            version: v as u64,
            index: i as u64,
        },
    }
}

/// The rule for an envelope that has no meaning.
pub(crate) fn codec_rule(rule: DropRule) -> Rule
    ensures { result ≡ codec_rule rule }
{
    match rule {
        DropRule::Header(fault) => header_rule(fault),
        DropRule::Table { which, fault } => table_rule(name_word(which), fault),
    }
}

/// The path of a field.
fn path_word(path: Path) -> JournalPath
    ensures { result ≡ path_word path }
{
    match path {
        Path::Message => JournalPath::Message,
        Path::Field(a) => JournalPath::Field(a),
        Path::Inner(a, b) => JournalPath::Inner(a, b),
        Path::Innermost(a, b, c) => JournalPath::Innermost(a, b, c),
    }
}

/// The fault of a record at its place.
fn wire_word(path: JournalPath, fault: WireFault) -> Fault
    ensures { result ≡ wire_word path fault }
{
    match fault {
        WireFault::Varint { at } => Fault::Varint {
            at: at as u64,
            path,
        },
        WireFault::WireType { at } => Fault::WireType {
            at: at as u64,
            path,
        },
        WireFault::Truncated { at } => Fault::Truncated {
            at: at as u64,
            path,
        },
        WireFault::FieldNumber { at } => Fault::FieldNumber {
            at: at as u64,
            path,
        },
    }
}

/// The fault of a control message. Want of memory is none, and is answered as such before it is asked for here.
pub(crate) fn control_word(fault: ControlFault) -> Fault
    ensures { result ≡ control_word fault }
{
    match fault {
        ControlFault::UnknownManifest | ControlFault::NoMemory => Fault::UnknownManifest,
        ControlFault::Wire { path, fault } => wire_word(path_word(path), fault),
        ControlFault::Missing { path } => Fault::Missing {
            path: path_word(path),
        },
        ControlFault::BadText { path } => Fault::BadText {
            path: path_word(path),
        },
        ControlFault::Range { path } => Fault::Range {
            path: path_word(path),
        },
        ControlFault::Unequal { keys, values } => Fault::Unequal {
            keys: keys as u64,
            values: values as u64,
        },
    }
}

/// The rule for the fault of a stream.
pub fn stream_rule(fault: FrameFault) -> Rule
    ensures { result ≡ stream_rule fault }
{
    match fault {
        FrameFault::BadMagic { .. } => Rule::BadMagic,
        FrameFault::BadStream { .. } => Rule::BadStream,
        FrameFault::TooLong { .. } => Rule::TooLong,
    }
}
