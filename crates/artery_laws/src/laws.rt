//! Laws of one node, at every input, and of a network, at every script. Their functions do nothing.
ghost use Rattle.std.specs.Prelude.{◌≡◌, ℕ, List, ◌++◌, Option, None, Some};
ghost use Rattle.artery_base.specs.declared.address.UniqueAddress.{UniqueAddress};
ghost use Rattle.artery_base.specs.declared.message.SysMsg.{SysMsg};
ghost use Rattle.artery_frame.specs.declared.stream.Stream.{Stream};
ghost use Rattle.artery_frame.specs.Stream.{reading_of};
ghost use Rattle.artery_journal.specs.declared.rule.Rule.{Rule};
ghost use Rattle.artery_script.specs.declared.event.Event.{Event};
ghost use Rattle.artery_script.specs.declared.script.ScriptLine.{ScriptLine};
ghost use Rattle.artery_machine.specs.declared.effect.Effect.{Effect};
ghost use Rattle.artery_machine.specs.declared.input.Input.{Input};
ghost use Rattle.artery_machine.specs.declared.world.Outcome.{Outcome};
ghost use Rattle.artery_machine.specs.Parts.{kept, whole};
ghost use Rattle.artery_machine.specs.Node.{Node, Inbound, inbound_at};
ghost use Rattle.artery_machine.specs.Doing.{◌▸◌};
ghost use Rattle.artery_machine.specs.Verdict.{Verdict, rule_of, verdict};
ghost use Rattle.artery_machine.specs.Hearing.{hears_on};
ghost use Rattle.artery_machine.specs.Reacting.{comes, starts, reacts, step};
ghost use Rattle.artery_machine.specs.Ways.{kept_ways, whole_ways};
ghost use Rattle.artery_machine.specs.World.{World, refusal, applies};
ghost use Rattle.artery_machine.specs.Playing.{plays, run};
ghost use Rattle.artery_laws.specs.Standing.{NodeStands, DoSame};
ghost use Rattle.artery_laws.specs.Bytes.{after_effects, with_bytes_behind};
ghost use Rattle.artery_laws.specs.Outcome.{IsOutcome, TellsDropped};
ghost use Rattle.artery_laws.specs.Cutting.{IsJoined};
ghost use Rattle.artery_laws.specs.Taking.{at_work, IsExpected, IsTaken};
ghost use Rattle.artery_laws.specs.Network.{IsSameRun, with_outcomes_before, run_with_outcomes_before};

/// What a node keeps stands for whole histories: from its start on it does at each input what a node with whole histories does, and then
/// stands for what that becomes.
pub fn keeping_stands()
    ensures start { (me : UniqueAddress) → DoSame (starts {P = kept} me) (starts {P = whole} me) }
    ensures step { (input : Input) (n : Node kept) (w : Node whole) → NodeStands n w → DoSame (step input n) (step input w) }
{
    artery_delivery::keeping_stands();
    artery_delivery::expecting_stands();
    artery_tables::keeping_stands();
    artery_tables::adopting_stands();
    artery_detector::keeping_stands();
    artery_frame::keeping_stands();
    artery_frame::holding_stands();
    artery_frame::one_reading();
}

/// The rules do with bytes what they do with values: at each input the same deeds in the same order, each with its bytes, behind the effects
/// that were there.
pub fn deeds_have_their_bytes()
    ensures { (input : Input) (n : Node kept) (uid : ℕ) (before : List Effect)
        → reacts input (after_effects uid before n) ≡ with_bytes_behind uid before (step input n) }
{}

/// Each whole frame on an inbound connection has exactly one outcome: the first rule that holds drops it, or it is dropped for its closed
/// origin, or it says its content. Where it is dropped, a line tells so first, with the rule.
pub fn each_frame_has_one_outcome()
    ensures one { (stream : Option Stream) (n : Node whole) (i : Inbound whole) (frame : List ℕ) → IsOutcome stream n i frame (verdict stream n i frame) }
    ensures only { (stream : Option Stream) (n : Node whole) (i : Inbound whole) (frame : List ℕ) (x : Verdict) → IsOutcome stream n i frame x → x ≡ verdict stream n i frame }
    ensures told { (stream : Option Stream) (n : Node whole) (i : Inbound whole) (frame : List ℕ) (rule : Rule) → rule_of (verdict stream n i frame) ≡ Some rule
        → TellsDropped n i.number rule (hears_on stream (Some i) frame (at_work n)) }
{}

/// A numbered message that bears the expected number and meets no rule is taken: it is the last of those from its origin, a line tells so,
/// and its acknowledgement is written where the control connection is bound to the origin, else owed.
pub fn the_expected_message_is_taken()
    ensures { (stream : Option Stream) (n : Node whole) (i : Inbound whole) (frame : List ℕ) (v : UniqueAddress) (number : ℕ) (message : SysMsg)
        → IsExpected stream n i frame v number message → IsTaken n v number message (hears_on stream (Some i) frame (at_work n)) }
{}

/// It does not matter where a stream is cut: two pieces one after the other make a node do what the joined piece makes it do. Where the first
/// breaks the stream its connection is gone, and the second piece hangs it up once more; else all deeds are the same, and so is the node.
pub fn cutting_does_not_matter()
    ensures { (number : ℕ) (first second : List ℕ) (n : Node whole) (i : Inbound whole) → inbound_at number n ≡ Some i → (reading_of i.bytes).end ≡ None
        → IsJoined (reading_of (i.bytes ++ first)).end number ((comes number first ▸ comes number second) (at_work n)) (comes number (first ++ second) (at_work n)) }
{
    artery_frame::one_reading();
    artery_frame::readings_are_within();
    artery_frame::pieces_join();
}

/// A network of what a program keeps shows what the network of whole histories shows: at every script the same comes of it, in the same order;
/// it stops at the same line for the same cause, or at none; and its connections have the same counts of bytes written and delivered, where a
/// count above 18,446,744,073,709,551,615 is told as that number.
pub fn a_network_is_whole()
    ensures { (script : List ScriptLine) → IsSameRun (run {P = kept} {W = kept_ways} script) (run {P = whole} {W = whole_ways} script) }
{
    artery_delivery::keeping_stands();
    artery_delivery::expecting_stands();
    artery_tables::keeping_stands();
    artery_tables::adopting_stands();
    artery_detector::keeping_stands();
    artery_frame::keeping_stands();
    artery_frame::holding_stands();
    artery_frame::one_reading();
}

/// What came of a network before does not matter for what becomes of it. With other outcomes before its own, an event is refused for the same
/// condition or none, and makes of it the same, behind those outcomes; and a script leads to the same and stops where it would.
pub fn a_network_goes_on()
    ensures event { (before : List Outcome) (event : Event) (w : World kept kept_ways) → applies event (with_outcomes_before before w) ≡ with_outcomes_before before (applies event w) }
    ensures refusal { (before : List Outcome) (event : Event) (w : World kept kept_ways) → refusal event (with_outcomes_before before w) ≡ refusal event w }
    ensures script { (before : List Outcome) (script : List ScriptLine) (w : World kept kept_ways) → plays script (with_outcomes_before before w) ≡ run_with_outcomes_before before (plays script w) }
{}
