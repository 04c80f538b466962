//! Laws of ordinary messages, at every script. Their functions do nothing.
ghost use Rattle.std.specs.Prelude.{◌≡◌, ◌≤◌, ℕ, List, length, Some};
ghost use Rattle.artery_script.specs.declared.script.ScriptLine.{ScriptLine};
ghost use Rattle.artery_tables.specs.Story.{Story, IsStory, version_of, number_of};
ghost use Rattle.artery_machine.specs.Parts.{kept, whole};
ghost use Rattle.artery_machine.specs.Ways.{kept_ways, whole_ways};
ghost use Rattle.artery_machine.specs.Playing.{run};
ghost use Rattle.artery_alone.specs.Network.{journal};
ghost use Rattle.artery_alone.specs.Alone.{Keeps};
ghost use Rattle.artery_flight.specs.Answers.{AreReadBack};
ghost use Rattle.artery_written.specs.Told.{AreTold};
ghost use Rattle.artery_names.specs.Ordinary.{ordinary_law};
ghost use Rattle.artery_names.specs.Versions.{Fits};

/// A table of a story is found by its version or not at all, where its number is less than 127 below that of the last table announced: no other
/// known table has its version.
#[tactic(auto, using(crate::proofs::Numbers::number_is))]
pub fn a_version_means_one_number()
    ensures { (story : Story) (meant found : ℕ) → IsStory story → meant ≤ length story.tables → Fits (length story.tables) meant
        → number_of story (version_of meant) ≡ Some found → found ≡ meant }
{}

/// For every script in whose network each frame that was written is read back: in its journal, what an incarnation got from another with a nonce,
/// up to any line, is a subsequence of what that other told it before on its connection with that dial number. The journal of what is
/// kept is the same.
pub fn a_network_keeps_the_ordinary_law()
    ensures kept { (script : List ScriptLine) → AreReadBack (run {P = whole} {W = whole_ways} script).world.connections → Keeps ordinary_law (journal kept kept_ways script) }
    ensures whole { (script : List ScriptLine) → AreReadBack (run {P = whole} {W = whole_ways} script).world.connections → Keeps ordinary_law (journal whole whole_ways script) }
{
    artery_laws::a_network_is_whole();
}

/// For every script whose events a line can tell, so for each that was read: in the journal of its network, what an incarnation got from another
/// with a nonce, up to any line, is a subsequence of what that other told it before on its connection with that dial number.
pub fn a_script_keeps_the_ordinary_law()
    ensures kept { (script : List ScriptLine) → AreTold script → Keeps ordinary_law (journal kept kept_ways script) }
    ensures whole { (script : List ScriptLine) → AreTold script → Keeps ordinary_law (journal whole whole_ways script) }
{
    a_network_keeps_the_ordinary_law();
    artery_written::what_is_written_is_read_back();
}
