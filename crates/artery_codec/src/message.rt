use artery_header::{HeaderFault, Which};
use artery_tables::TableFault;

/// A message with its names in full. The names lie in the frame or in a table, the payload in the frame.
#[derive(Clone, Copy, Debug, PartialEq, Eq)]
pub struct Message<'a> {
    /// The incarnation that sent it.
    pub uid: u64,
    /// What the payload is written with.
    pub serializer: i32,
    /// ASCII text, empty where there is no sender.
    pub sender: &'a [u8],
    /// ASCII text, empty where there is no recipient.
    pub recipient: &'a [u8],
    /// ASCII text, empty where there is no manifest.
    pub manifest: &'a [u8],
    pub payload: &'a [u8],
}

/// Why a frame is dropped: the first of these rules that holds.
#[derive(Clone, Copy, Debug, PartialEq, Eq)]
pub enum DropRule {
    /// The frame is no envelope.
    Header(HeaderFault),
    /// This name is an index under a version of which no table is known, or at which the known table has no entry.
    Table { which: Which, fault: TableFault },
}

impl From<HeaderFault> for DropRule {
    ghost use Rattle.std.specs.Prelude.{◌≡◌};
    ghost use Rattle.artery_codec.specs.declared.message.DropRule.TheVariants.{Header};

    ghost from_gives = { λ fault rule. rule ≡ Header fault };

    fn from(fault: HeaderFault) -> DropRule {
        DropRule::Header(fault)
    }
}
