//! Laws of one node by itself, and of the journal of a network that follow from them. Their functions do nothing.
ghost use Rattle.std.specs.Prelude.{List};
ghost use Rattle.artery_base.specs.declared.address.UniqueAddress.{UniqueAddress};
ghost use Rattle.artery_machine.specs.declared.input.Input.{Input};
ghost use Rattle.artery_script.specs.declared.script.ScriptLine.{ScriptLine};
ghost use Rattle.artery_machine.specs.Parts.{kept, whole};
ghost use Rattle.artery_machine.specs.Ways.{kept_ways, whole_ways};
ghost use Rattle.artery_alone.specs.Network.{journal};
ghost use Rattle.artery_alone.specs.Alone.{story, close_law, watch_law, stopped_law, moment_law, Keeps, AreInOrder, numbers_taken, AreNumbered};

/// Whatever comes to a node that starts: a watch that it tells has an id that no other had, and it tells the end of a watch only where that was
/// told and its end was not.
pub fn a_node_keeps_the_watch_law()
    ensures kept { (me : UniqueAddress) (inputs : List Input) → Keeps watch_law (story kept me inputs) }
    ensures whole { (me : UniqueAddress) (inputs : List Input) → Keeps watch_law (story whole me inputs) }
{}

/// Whatever comes to a node that starts: after the line that it closed an incarnation it tells no line that it learnt that incarnation, closed
/// it again, sent or told it something, or took, got or heard again something of it.
pub fn a_node_keeps_the_close_law()
    ensures kept { (me : UniqueAddress) (inputs : List Input) → Keeps close_law (story kept me inputs) }
    ensures whole { (me : UniqueAddress) (inputs : List Input) → Keeps close_law (story whole me inputs) }
{}

/// Whatever comes to a node that starts: the line of its start is its first, and the only one of a start; and it tells no end, so that no line
/// is behind one.
pub fn a_node_keeps_the_stopped_law()
    ensures kept { (me : UniqueAddress) (inputs : List Input) → Keeps stopped_law (story kept me inputs) }
    ensures whole { (me : UniqueAddress) (inputs : List Input) → Keeps stopped_law (story whole me inputs) }
{}

/// Whatever comes to a node that starts, where the moments that come to it do not fall: neither do those of the lines that it tells. The moment
/// of a line is that of the node once it did all that it did at the input.
pub fn a_node_keeps_the_moment_law()
    ensures kept { (me : UniqueAddress) (inputs : List Input) → AreInOrder 0 inputs → Keeps moment_law (story kept me inputs) }
    ensures whole { (me : UniqueAddress) (inputs : List Input) → AreInOrder 0 inputs → Keeps moment_law (story whole me inputs) }
{}

/// Whatever comes to a node that starts: the numbers of the messages that it tells it took from one incarnation are 1, 2, 3 and so on.
pub fn a_node_takes_in_order()
    ensures kept { (me : UniqueAddress) (inputs : List Input) (other : UniqueAddress) → AreNumbered (numbers_taken me other (story kept me inputs)) }
    ensures whole { (me : UniqueAddress) (inputs : List Input) (other : UniqueAddress) → AreNumbered (numbers_taken me other (story whole me inputs)) }
{}

/// Whatever a network is led through by a script: in its journal each watch has an id that no other of its incarnation had, and ends at most once, behind the line of its begin.
pub fn a_network_keeps_the_watch_law()
    ensures kept { (script : List ScriptLine) → Keeps watch_law (journal kept kept_ways script) }
    ensures whole { (script : List ScriptLine) → Keeps watch_law (journal whole whole_ways script) }
{}

/// Whatever a network is led through by a script: in its journal no incarnation, behind the line that it closed another, tells that it learnt that one, closed it again, sent or told it something, or took, got or heard again something of it.
pub fn a_network_keeps_the_close_law()
    ensures kept { (script : List ScriptLine) → Keeps close_law (journal kept kept_ways script) }
    ensures whole { (script : List ScriptLine) → Keeps close_law (journal whole whole_ways script) }
{}

/// Whatever a network is led through by a script: in its journal no incarnation tells a start behind another line of its own, or anything behind its stop.
pub fn a_network_keeps_the_stopped_law()
    ensures kept { (script : List ScriptLine) → Keeps stopped_law (journal kept kept_ways script) }
    ensures whole { (script : List ScriptLine) → Keeps stopped_law (journal whole whole_ways script) }
{}

/// Whatever a network is led through by a script: in its journal the moments of the lines of one incarnation do not fall.
pub fn a_network_keeps_the_moment_law()
    ensures kept { (script : List ScriptLine) → Keeps moment_law (journal kept kept_ways script) }
    ensures whole { (script : List ScriptLine) → Keeps moment_law (journal whole whole_ways script) }
{}
