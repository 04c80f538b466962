ghost use Rattle.std.specs.Prelude.{◌≡◌, ◌↔◌, Ok, Err, IfOk};
ghost use Rattle.std.specs.Str.{IsAscii};
ghost use Rattle.artery_base.specs.Words.{Shows};
ghost use Rattle.artery_header.specs.Envelope.{HasTexts, IsAsciiName, envelope_of, name_of};
ghost use Rattle.artery_tables.specs.InTables.{State, Stands, entry_kept};
ghost use Rattle.artery_tables.specs.Story.{entry_of};
ghost use Rattle.artery_codec.specs.declared.message.DropRule.{DropRule};
ghost use Rattle.artery_codec.specs.Meaning.{Meaning, HasAsciiNames, meaning, name_meaning, envelope_meaning, meaning_kept, meaning_of};
ghost use Rattle.artery_codec.specs.Outcome.{IsMeaning, IsFirstRule};

use crate::laws::one_outcome;
use crate::message::{DropRule, Message};
use artery_header::{Envelope, Name, Which, read_envelope};
use artery_tables::InTables;

/// What a name means: itself, or the entry at its index in the known table with this version.
#[tactic(auto, using(crate::proofs::Texts::is_ascii))]
fn name_meaning<'a>(
    which: Which,
    name: Name<'a>,
    version: u8,
    tables: &'a InTables,
) -> Result<&'a [u8], DropRule>
    ensures name { Shows (λ text. text.now) result (name_meaning (entry_kept tables.now) which version (name_of name.entry)) }
    ensures ascii { IsAsciiName (name_of name.entry) → IfOk result (λ text. IsAscii text.now) }
{
    match name {
        Name::Literal(text) => Ok(text),
        Name::Index(index) => match tables.resolve(version, index) {
            Ok(text) => Ok(text.as_slice()),
            Err(fault) => Err(DropRule::Table { which, fault }),
        },
    }
}

/// The message that an envelope means by what the tables keep.
#[tactic(auto, unfolding(crate::specs::Meaning::envelope_meaning))]
fn message_kept<'a>(
    envelope: Envelope<'a>,
    refs: &'a InTables,
    manifests: &'a InTables,
) -> Result<Message<'a>, DropRule>
    ensures kept { Shows meaning result (envelope_meaning (entry_kept refs.now) (entry_kept manifests.now) (envelope_of envelope.entry)) }
    ensures ascii { HasTexts (envelope_of envelope.entry) → IfOk result (λ m. HasAsciiNames (meaning m)) }
{
    let of_refs = envelope.refs_version;
    let of_manifests = envelope.manifests_version;
    let sender = name_meaning(Which::Sender, envelope.sender, of_refs, refs)?;
    let recipient = name_meaning(Which::Recipient, envelope.recipient, of_refs, refs)?;
    let manifest = name_meaning(Which::Manifest, envelope.manifest, of_manifests, manifests)?;
    Ok(Message {
        uid: envelope.uid,
        serializer: envelope.serializer,
        sender,
        recipient,
        manifest,
        payload: envelope.payload,
    })
}

/// The message or the rule by what the tables keep.
fn meaning_kept<'a>(
    frame: &'a [u8],
    refs: &'a InTables,
    manifests: &'a InTables,
) -> Result<Message<'a>, DropRule>
    ensures kept { Shows meaning result (meaning_kept frame.now refs.now manifests.now) }
    ensures ascii { IfOk result (λ m. HasAsciiNames (meaning m)) }
{
    let envelope = read_envelope(frame)?;
    message_kept(envelope, refs, manifests)
}

/// The message that an envelope means, by the tables of references and of manifests that its origin was told: a literal means itself, and
/// an index the entry there, from 0, of the known table with the envelope's version. Sender and recipient are looked up among the
/// references, the manifest among the manifests.
///
/// `Table` tells the first name, in this order, that means nothing: UnknownVersion where no known table has the version, UnknownIndex
/// where the index is not below the table's length. Takes no memory.
#[tactic(auto, using(crate::proofs::Meanings::shows_envelope))]
pub fn message_of<'a>(
    envelope: Envelope<'a>,
    refs: &'a InTables,
    manifests: &'a InTables,
) -> Result<Message<'a>, DropRule>
    ensures kept { Shows meaning result (envelope_meaning (entry_kept refs.now) (entry_kept manifests.now) (envelope_of envelope.entry)) }
    ensures history { (r s : State) → Stands refs.now r → Stands manifests.now s → Shows meaning result (envelope_meaning (entry_of r.story) (entry_of s.story) (envelope_of envelope.entry)) }
    ensures ascii { HasTexts (envelope_of envelope.entry) → IfOk result (λ m. HasAsciiNames (meaning m)) }
{
    artery_tables::keeping_stands();
    message_kept(envelope, refs, manifests)
}

/// The message that a frame means, by the tables of references and of manifests that its origin was told: that of its envelope, as
/// `message_of` answers it.
///
/// `Header` comes exactly where the frame is no envelope, with its first fault, and before every `Table`. The names and the payload are
/// lent by the frame and the tables. Takes no memory.
#[tactic(auto, using(crate::proofs::Meanings::shows_stands))]
pub fn decode<'a>(
    frame: &'a [u8],
    refs: &'a InTables,
    manifests: &'a InTables,
) -> Result<Message<'a>, DropRule>
    ensures kept { Shows meaning result (meaning_kept frame.now refs.now manifests.now) }
    ensures history { (r s : State) → Stands refs.now r → Stands manifests.now s → Shows meaning result (meaning_of frame.now r.story s.story) }
    ensures message { (r s : State) (m : Meaning) → Stands refs.now r → Stands manifests.now s → IsMeaning r.story s.story frame.now m ↔ Shows meaning result (Ok m) }
    ensures rule { (r s : State) (rule : DropRule) → Stands refs.now r → Stands manifests.now s → IsFirstRule r.story s.story frame.now rule ↔ (result ≡ Err rule) }
    ensures ascii { IfOk result (λ m. HasAsciiNames (meaning m)) }
{
    artery_tables::keeping_stands();
    one_outcome();
    meaning_kept(frame, refs, manifests)
}
