//! Laws of what frames mean and of what messages are written as. Their functions do nothing.
ghost use Rattle.std.specs.Prelude.{◌≡◌, ◌↔◌, ℕ, None, Ok, Err, List};
ghost use Rattle.artery_header.specs.Envelope.{EnvelopeOf, HasTexts, IsEnvelope, canonical, refusal};
ghost use Rattle.artery_tables.specs.InTables.{Kept, State, Stands, entry_kept};
ghost use Rattle.artery_tables.specs.OutTable.{Held, State as Pairs, Stands as HeldStands};
ghost use Rattle.artery_tables.specs.Story.{Story, IsStory, entry_of};
ghost use Rattle.artery_codec.specs.Meaning.{Meaning, HasAsciiNames, Entries, envelope_meaning, frame_meaning, meaning_kept, meaning_of};
ghost use Rattle.artery_codec.specs.declared.message.DropRule.{DropRule};
ghost use Rattle.artery_codec.specs.Outcome.{IsMeaning, IsFirstRule};
ghost use Rattle.artery_codec.specs.Writing.{Indices, NamesItsEntries, written, envelope_held, envelope_paired};

/// By the stories of its tables a frame means one message, or one rule is the first that drops it: the one that its meaning is.
pub fn one_outcome()
    ensures message { (refs manifests : Story) (frame : List ℕ) (m : Meaning) → IsStory refs → IsStory manifests → IsMeaning refs manifests frame m ↔ (meaning_of frame refs manifests ≡ Ok m) }
    ensures rule { (refs manifests : Story) (frame : List ℕ) (rule : DropRule) → IsStory refs → IsStory manifests → IsFirstRule refs manifests frame rule ↔ (meaning_of frame refs manifests ≡ Err rule) }
{
    artery_header::one_reading();
    artery_tables::known_numbers_are_found();
}

/// What is kept of tables gives frames and envelopes the meaning that the stories give them, for each pair of stories that it stands for;
/// and held tables give a message the envelope that the pairs give it, for all pairs that they stand for.
#[tactic(auto, using(crate::proofs::Meanings::meaning_stands, crate::proofs::Meanings::envelope_stands, crate::proofs::Meanings::written_stands))]
pub fn meaning_stands()
    ensures frame { (frame : List ℕ) (k l : Kept) (r s : State) → Stands k r → Stands l s → meaning_kept frame k l ≡ meaning_of frame r.story s.story }
    ensures envelope { (c : EnvelopeOf) (k l : Kept) (r s : State) → Stands k r → Stands l s → envelope_meaning (entry_kept k) (entry_kept l) c ≡ envelope_meaning (entry_of r.story) (entry_of s.story) c }
    ensures written { (m : Meaning) (k l : Held) (r s : Pairs) → HeldStands k r → HeldStands l s → envelope_held m k l ≡ envelope_paired m r s }
{
    artery_tables::keeping_stands();
}

/// The envelope that a message is written as means the message, wherever the versions of its tables name their own entries; its names are
/// ASCII where those of the message are; and the bytes of an envelope that is not refused mean what the envelope means.
#[tactic(auto, using(crate::proofs::Meanings::written_back, crate::proofs::Meanings::canonical_means, crate::proofs::Texts::written_ascii))]
pub fn written_is_meant()
    ensures message { (refs manifests : Indices) (in_refs in_manifests : Entries) (m : Meaning) → NamesItsEntries refs in_refs → NamesItsEntries manifests in_manifests → envelope_meaning in_refs in_manifests (written refs manifests m) ≡ Ok m }
    ensures texts { (refs manifests : Indices) (m : Meaning) → HasAsciiNames m → HasTexts (written refs manifests m) }
    ensures bytes { (refs manifests : Entries) (c : EnvelopeOf) → IsEnvelope c → HasTexts c → refusal c ≡ None → frame_meaning refs manifests (canonical c) ≡ envelope_meaning refs manifests c }
{
    artery_header::written_is_read();
}
