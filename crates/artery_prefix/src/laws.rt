//! Laws of messages that were taken, at every script. Their functions do nothing.
ghost use Rattle.std.specs.Prelude.{List};
ghost use Rattle.artery_base.specs.declared.address.UniqueAddress.{UniqueAddress};
ghost use Rattle.artery_script.specs.declared.script.ScriptLine.{ScriptLine};
ghost use Rattle.artery_machine.specs.Parts.{kept, whole};
ghost use Rattle.artery_machine.specs.Ways.{kept_ways, whole_ways};
ghost use Rattle.artery_machine.specs.Playing.{run};
ghost use Rattle.artery_alone.specs.Network.{journal};
ghost use Rattle.artery_alone.specs.Alone.{Keeps, numbers_taken, AreNumbered};
ghost use Rattle.artery_flight.specs.Answers.{AreReadBack};
ghost use Rattle.artery_written.specs.Told.{AreTold};
ghost use Rattle.artery_prefix.specs.Prefix.{prefix_law};

/// For every script, in the journal of its network the numbers of the messages that one incarnation took from another are 1, 2, 3 and so on.
pub fn a_network_takes_in_order()
    ensures kept { (script : List ScriptLine) (me other : UniqueAddress) → AreNumbered (numbers_taken me other (journal kept kept_ways script)) }
    ensures whole { (script : List ScriptLine) (me other : UniqueAddress) → AreNumbered (numbers_taken me other (journal whole whole_ways script)) }
{}

/// For every script in whose network each frame that was written is read back: in its journal, what an incarnation took from another up to any
/// line is a prefix of what that other sent to it before that line. The journal of what is kept is the same.
pub fn a_network_keeps_the_prefix_law()
    ensures kept { (script : List ScriptLine) → AreReadBack (run {P = whole} {W = whole_ways} script).world.connections → Keeps prefix_law (journal kept kept_ways script) }
    ensures whole { (script : List ScriptLine) → AreReadBack (run {P = whole} {W = whole_ways} script).world.connections → Keeps prefix_law (journal whole whole_ways script) }
{
    artery_laws::a_network_is_whole();
}

/// For every script whose events a line can tell, so for each that was read: in the journal of its network, what an incarnation took from
/// another up to any line is a prefix of what that other sent to it before that line.
pub fn a_script_keeps_the_prefix_law()
    ensures kept { (script : List ScriptLine) → AreTold script → Keeps prefix_law (journal kept kept_ways script) }
    ensures whole { (script : List ScriptLine) → AreTold script → Keeps prefix_law (journal whole whole_ways script) }
{
    a_network_keeps_the_prefix_law();
    artery_written::what_is_written_is_read_back();
}
