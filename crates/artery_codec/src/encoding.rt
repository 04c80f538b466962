ghost use Rattle.std.specs.Prelude.{◌≡◌, Ok, OnOk};
ghost use Rattle.std.specs.Str.{IsAscii};
ghost use Rattle.artery_header.specs.Envelope.{HasTexts, IsAsciiName, IsEnvelope, envelope_of, name_of, canonical};
ghost use Rattle.artery_tables.specs.OutTable.{State, Stands};
ghost use Rattle.artery_tables.specs.Story.{Story, entry_of};
ghost use Rattle.artery_codec.specs.Meaning.{HasAsciiNames, meaning, meaning_of};
ghost use Rattle.artery_codec.specs.Writing.{NamesItsEntries, Writes, written_name, held_indices, envelope_held, envelope_paired};

use crate::message::Message;
use artery_base::Bytes;
use artery_header::{EncodeFault, Envelope, Name, write_envelope};
use artery_tables::OutTable;

/// A name as it is written: its index where it is not empty and the table has it, else itself.
#[tactic(auto, using(crate::proofs::Texts::ascii_tests))]
fn name_in<'a>(name: &'a [u8], table: &OutTable) -> Name<'a>
    requires { IsAscii name.now }
    ensures name { name_of result ≡ written_name (held_indices table.now) name.now }
    ensures ascii { IsAsciiName (name_of result) }
{
    if name.is_empty() {
        return Name::Literal(name);
    }
    match table.index_of(name) {
        Some(index) => Name::Index(index),
        None => Name::Literal(name),
    }
}

/// The envelope that a message is written as.
fn envelope_held<'a>(message: &Message<'a>, refs: &OutTable, manifests: &OutTable) -> Envelope<'a>
    requires { HasAsciiNames (meaning message.now) }
    ensures envelope { envelope_of result ≡ envelope_held (meaning message.now) refs.now manifests.now }
    ensures texts { HasTexts (envelope_of result) }
    ensures numbers { IsEnvelope (envelope_of result) }
{
    Envelope {
        uid: message.uid,
        refs_version: refs.version(),
        manifests_version: manifests.version(),
        serializer: message.serializer,
        sender: name_in(message.sender, refs),
        recipient: name_in(message.recipient, refs),
        manifest: name_in(message.manifest, manifests),
        payload: message.payload,
    }
}

/// Appends the canonical bytes of the envelope that the message is written as: with the versions of the two tables, and each name that is
/// not empty and that its table has as an index. Sender and recipient have the table of references, the manifest that of manifests.
/// `LiteralLong` names the first name written in full that has more than 65,535 bytes; `FrameLong` comes where the whole has more than
/// 262,144. What is refused, and want of memory, changes nothing.
///
/// Wants names of ASCII bytes.
pub fn encode(
    message: &Message<'_>,
    refs: &OutTable,
    manifests: &OutTable,
    out: &mut Bytes,
) -> Result<(), EncodeFault>
    requires { HasAsciiNames (meaning message.now) }
    ensures held { Writes result out.old out.new (envelope_held (meaning message.now) refs.now manifests.now) }
    ensures history { (r s : State) → Stands refs.now r → Stands manifests.now s → Writes result out.old out.new (envelope_paired (meaning message.now) r s) }
    // What a receiver's story names as this table does is decoded as the message.
    ensures round_trip { (r s : Story) → NamesItsEntries (held_indices refs.now) (entry_of r) → NamesItsEntries (held_indices manifests.now) (entry_of s) → OnOk result (meaning_of (canonical (envelope_held (meaning message.now) refs.now manifests.now)) r s ≡ Ok (meaning message.now)) }
{
    artery_header::written_is_read();
    write_envelope(&envelope_held(message, refs, manifests), out)
}
