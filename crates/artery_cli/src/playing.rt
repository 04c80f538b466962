//! A script is played, and what comes of it is told.
ghost use Rattle.std.specs.Prelude.{◌≡◌, ◌≤◌, ◌++◌, [], None, Some, IfOk, IfErr, IfSome, OnOk, IsErrOf};
ghost use Rattle.std.specs.Io.KnownBytes.{Appends};
ghost use Rattle.artery_io.specs.Faults.{Rose};
ghost use Rattle.artery_machine.specs.World.{nothing};
ghost use Rattle.artery_machine.specs.declared.world.WorldFault.TheVariants.{NoMemory as without_memory};
ghost use Rattle.artery_world.specs.Running.{IsFitEvent, running};
ghost use Rattle.artery_replay.specs.Texts.{outcomes_text};
ghost use Rattle.artery_replay.specs.Replay.{counts_text, run_status};
ghost use Rattle.artery_cli.specs.Answers.{IsDone};
ghost use Rattle.artery_cli.specs.Leaving.{WritingStops};
ghost use Rattle.artery_cli.specs.Playing.{AreFit, PlaysOne, StopsOne, PlaysAll, StopsAll, answered, stop_of};
ghost use Rattle.artery_cli.specs.declared.stop.Stop.TheVariants as stops;

use crate::copies::copy_of_event;
use crate::stop::Stop;
use crate::telling::put;
use artery_base::{Bytes, NoMemory};
use artery_io::Sink;
use artery_laws::a_network_goes_on;
use artery_machine::WorldFault;
use artery_replay::{Form, print_counts, print_outcomes, stop_status};
use artery_script::{Event, Script};
use artery_world::{Outcomes, World};
use std::alloc::Global;

/// Writes what came of an event.
fn write_outcomes<K: Sink>(
    form: Form,
    outcomes: &Outcomes,
    text: &mut Bytes,
    output: &mut K,
) -> Result<(), Stop>
    ensures written { OnOk result (Appends (K.held output.old) (K.held output.new) (outcomes_text form outcomes.now)) }
    ensures left { IfErr result (λ stop. WritingStops stop (outcomes_text form outcomes.now) (K.held output.old) (K.held output.new)) }
    ensures write { IsErrOf result stops.Write → Rose (K.faults output.old) (K.faults output.new) }
    ensures later { K.faults output.old ≤ K.faults output.new }
{
    text.clear();
    print_outcomes(form, outcomes.as_slice(), text)?;
    put(output, text.as_slice())
}

/// Why an event did not happen, or not to its end, if so; want of memory apart.
pub fn fault_in(answer: Result<(), WorldFault>) -> Result<Option<WorldFault>, NoMemory>
    ensures fault { IfOk result (λ fault. answer ≡ answered fault) }
    ensures named { IfOk result (λ fault. fault ≡ Some without_memory → ⊥) }
{
    match answer {
        Ok(()) => Ok(None),
        Err(WorldFault::NoMemory) => Err(NoMemory),
        Err(WorldFault::NotAllowed { why }) => Ok(Some(WorldFault::NotAllowed { why })),
        Err(WorldFault::Limit { which }) => Ok(Some(WorldFault::Limit { which })),
    }
}

/// The status of a run that ended or stopped here.
pub fn status_of(stop: Option<(u64, WorldFault)>) -> u8
    requires { IfSome stop (λ s. s.1 ≡ without_memory → ⊥) }
    ensures value { result ≡ run_status (stop_of stop) }
    ensures plain { IsDone result }
{
    match stop {
        None => 0,
        Some((_, fault)) => stop_status(fault),
    }
}

/// What a run of a script works with: the network, what came of the event at hand, and its text.
#[derive(Drop)]
pub struct Playing {
    world: World,
    outcomes: Outcomes,
    text: Bytes,
}

impl Playing {
    /// Nothing has happened.
    pub fn new(alloc: Global) -> Playing
        ensures { result.world ≡ running nothing }
    {
        Playing {
            world: World::new(alloc),
            outcomes: Outcomes::new(alloc),
            text: Bytes::new(alloc),
        }
    }

    /// An event comes to the network, and what comes of it is written. Tells why it did not happen, or not to its end.
    #[tactic(auto, using(crate::proofs::PlayingLemmas::plays_one, crate::proofs::PlayingLemmas::stops_one, crate::proofs::Sinks::keeps_same))]
    fn plays_one<K: Sink>(
        &mut self,
        form: Form,
        event: Event,
        output: &mut K,
    ) -> Result<Option<WorldFault>, Stop>
        requires { IsFitEvent event }
        ensures plays { IfOk result (λ fault. PlaysOne form event fault self.old.world self.new.world (K.held output.old) (K.held output.new)) }
        ensures named { IfOk result (λ fault. fault ≡ Some without_memory → ⊥) }
        ensures left { IfErr result (λ stop. StopsOne stop form event self.old.world (K.held output.old) (K.held output.new)) }
        ensures write { IsErrOf result stops.Write → Rose (K.faults output.old) (K.faults output.new) }
        ensures later { K.faults output.old ≤ K.faults output.new }
    {
        self.outcomes.clear();
        let fault = fault_in(self.world.apply(event, &mut self.outcomes))?;
        match write_outcomes(form, &self.outcomes, &mut self.text, output) {
            Ok(()) => Ok(fault),
            Err(stop) => Err(stop),
        }
    }

    /// The events of a script come to the network, in order, up to the first that does not happen or not to its end, and what comes of each is
    /// written before the next. Tells the line of that event, and why.
    pub fn plays<K: Sink>(
        &mut self,
        form: Form,
        script: &Script,
        output: &mut K,
    ) -> Result<Option<(u64, WorldFault)>, Stop>
        requires fit { AreFit script.now }
        requires new { self.old.world ≡ running nothing }
        ensures plays { IfOk result (λ stop. PlaysAll form script.now stop self.new.world (K.held output.old) (K.held output.new)) }
        ensures named { IfOk result (λ stop. IfSome stop (λ s. s.1 ≡ without_memory → ⊥)) }
        ensures left { IfErr result (λ stop. StopsAll stop form script.now (K.held output.old) (K.held output.new)) }
        ensures write { IsErrOf result stops.Write → Rose (K.faults output.old) (K.faults output.new) }
        ensures later { K.faults output.old ≤ K.faults output.new }
    {
        a_network_goes_on();
        for line in script.as_slice() {
            let event = copy_of_event(&line.event)?;
            match self.plays_one(form, event, output) {
                Ok(None) => {}
                Ok(Some(fault)) => return Ok(Some((line.line, fault))),
                Err(stop) => return Err(stop),
            }
        }
        Ok(None)
    }

    /// The line of each connection, in the order made.
    #[tactic(auto, using(crate::proofs::Replayed::one_counted, crate::proofs::Replayed::all_are_counted))]
    pub fn counts_text(&self, alloc: Global) -> Result<Bytes, NoMemory>
        ensures { IfOk result (λ text. text ≡ counts_text self.now.world.world.connections) }
    {
        let mut text = Bytes::new(alloc);
        for place in 0..usize::MAX {
            let Some(counts) = self.world.counts(place) else {
                return Ok(text);
            };
            print_counts(&counts, &mut text)?;
        }
        Err(NoMemory)
    }
}
