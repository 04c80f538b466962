//! First steps of the machine, so that its rules are seen at work. The functions do nothing.
ghost use Rattle.std.specs.Prelude.{◌≡◌, List, [], ◌∷◌, ◌++◌, None, Some};
ghost use Rattle.artery_script.specs.declared.event.Event.TheVariants as events;
ghost use Rattle.artery_machine.specs.declared.world.WorldFault.TheVariants.{NotAllowed};
ghost use Rattle.artery_machine.specs.declared.world.Why.TheVariants.{UsedUid, MomentBack, NoDial};
ghost use Rattle.artery_base.specs.declared.address.UniqueAddress.{UniqueAddress};
ghost use Rattle.artery_journal.specs.declared.line.Line.TheVariants.{Started};
ghost use Rattle.artery_machine.specs.Deeds.{Tells};
ghost use Rattle.artery_machine.specs.Doing.{◌▸◌};
ghost use Rattle.artery_machine.specs.Parts.{whole};
ghost use Rattle.artery_machine.specs.Reacting.{starts};
ghost use Rattle.artery_machine.specs.Examples.{first, second, deeds_by, is_met, meeting_deeds, numbers_come, numbers_deeds, sends_first, sending_deeds, waits_little, waits, waiting_deeds, two_start, started_outcomes, one_waits, outcomes_of, stop_of, stopped_at, patience_ends, patience_deeds, sleeps_and_wakes, sleeping_deeds};

/// A node that starts tells so.
pub fn a_node_starts()
    ensures { (me : UniqueAddress) → (starts {P = whole} me).deeds ≡ Tells (Started me) ∷ [] }
{}

/// A node that is asked for a handshake dials, asks, answers and learns who is there; then numbered messages are taken, told again, or asked
/// for again.
pub fn a_node_is_met()
    ensures meeting { deeds_by second is_met ≡ meeting_deeds }
    ensures numbers { deeds_by second (is_met ▸ numbers_come) ≡ meeting_deeds ++ numbers_deeds }
{}

/// A message to an unknown address waits for the handshake; it is written again after a second; after six hours the incarnation is closed.
pub fn a_message_is_sent()
    ensures sending { deeds_by first sends_first ≡ sending_deeds }
    ensures early { deeds_by first (sends_first ▸ waits_little) ≡ sending_deeds }
    ensures waiting { deeds_by first (sends_first ▸ waits) ≡ sending_deeds ++ waiting_deeds }
{}

/// After six hours without an acknowledgement an incarnation is closed.
pub fn patience_ends()
    ensures { deeds_by first (sends_first ▸ patience_ends) ≡ sending_deeds ++ patience_deeds }
{}

/// A peer that is not used for five minutes is asleep, and wakes with the next request.
pub fn a_peer_sleeps()
    ensures { deeds_by first (sends_first ▸ sleeps_and_wakes) ≡ sending_deeds ++ sleeping_deeds }
{}

/// Incarnations of a network start, each telling so; a dial that fails leaves no line.
pub fn a_network_starts()
    ensures lines { outcomes_of (two_start ++ one_waits) ≡ started_outcomes }
    ensures going_on { stop_of (two_start ++ one_waits) ≡ None }
{}

/// An event that is not allowed ends the network, for the first of its conditions that fails.
pub fn a_network_ends()
    ensures used_uid { stop_of (two_start ++ events.Start second ∷ []) ≡ stopped_at 3 (NotAllowed UsedUid) }
    ensures moment_back { stop_of (two_start ++ one_waits ++ events.Tick 1 4 ∷ []) ≡ stopped_at 6 (NotAllowed MomentBack) }
    ensures no_dial { stop_of (two_start ++ one_waits ++ events.Answer 1 1 ∷ []) ≡ stopped_at 6 (NotAllowed NoDial) }
{}
