//! The script with a number is played, and the lines of its journal are counted.
ghost use Rattle.std.specs.Prelude.{◌≡◌, ◌≤◌, [], Some, IfOk, IfSome};
ghost use Rattle.artery_machine.specs.World.{nothing};
ghost use Rattle.artery_machine.specs.declared.world.WorldFault.TheVariants.{NoMemory as without_memory};
ghost use Rattle.artery_world.specs.Running.{IsFitEvent, running};
ghost use Rattle.artery_replay.specs.Tally.{tally_of, tally_text};
ghost use Rattle.artery_cli.specs.Answers.{generated_answer, summed, whole_run};
ghost use Rattle.artery_cli.specs.Limits.{most_scripts};
ghost use Rattle.artery_cli.specs.Playing.{AreFit, CountsOne, CountsAll, stop_of, summed_text};
ghost use Rattle.artery_cli.specs.Telling.{AnswersOrStops};

use crate::copies::copy_of_event;
use crate::playing::{fault_in, status_of};
use crate::stop::Stop;
use crate::telling::tell;
use artery_base::{Bytes, NoMemory};
use artery_generator::generate;
use artery_io::Sink;
use artery_laws::{a_network_goes_on, a_network_is_whole};
use artery_machine::WorldFault;
use artery_replay::{Tally, print_tally, stop_text};
use artery_script::{Event, Script};
use artery_world::{Outcomes, World};
use std::alloc::Global;

/// What counting the lines of a run works with: the network, what came of the event at hand, and the count so far.
#[derive(Drop)]
struct Counting {
    world: World,
    outcomes: Outcomes,
    tally: Tally,
}

impl Counting {
    /// Nothing has happened.
    fn new(alloc: Global) -> Counting
        ensures world { result.world ≡ running nothing }
        ensures tally { result.tally ≡ tally_of [] }
    {
        Counting {
            world: World::new(alloc),
            outcomes: Outcomes::new(alloc),
            tally: Tally::new(),
        }
    }

    /// An event comes to the network, and the lines that come of it are counted. Tells why it did not happen, or not to its end.
    #[tactic(auto, using(crate::proofs::Counted::one_counted))]
    fn counts_one(&mut self, event: Event) -> Result<Option<WorldFault>, NoMemory>
        requires { IsFitEvent event }
        ensures counts { IfOk result (λ fault. CountsOne event fault self.old.world self.new.world self.old.tally self.new.tally) }
        ensures named { IfOk result (λ fault. fault ≡ Some without_memory → ⊥) }
    {
        self.outcomes.clear();
        let fault = fault_in(self.world.apply(event, &mut self.outcomes))?;
        self.tally = self.tally.counts_all(self.outcomes.as_slice());
        Ok(fault)
    }

    /// The events of a script come to the network, in order, up to the first that does not happen or not to its end. Tells the line of that
    /// event, and why.
    fn counts(&mut self, script: &Script) -> Result<Option<(u64, WorldFault)>, NoMemory>
        requires fit { AreFit script.now }
        requires new { self.old.world ≡ running nothing }
        requires none { self.old.tally ≡ tally_of [] }
        ensures counts { IfOk result (λ stop. CountsAll script.now stop self.new.tally) }
        ensures named { IfOk result (λ stop. IfSome stop (λ s. s.1 ≡ without_memory → ⊥)) }
    {
        a_network_goes_on();
        for line in script.as_slice() {
            let event = copy_of_event(&line.event)?;
            match self.counts_one(event) {
                Ok(None) => {}
                Ok(Some(fault)) => return Ok(Some((line.line, fault))),
                Err(NoMemory) => return Err(NoMemory),
            }
        }
        Ok(None)
    }
}

/// The lines of a summary.
fn tally_text(alloc: Global, tally: &Tally) -> Result<Bytes, NoMemory>
    ensures { IfOk result (λ text. text ≡ tally_text tally.now) }
{
    let mut text = Bytes::new(alloc);
    print_tally(tally, &mut text)?;
    Ok(text)
}

/// What a run tells that ended or stopped here.
fn sum_of(alloc: Global, tally: &Tally, stop: Option<(u64, WorldFault)>) -> Result<Bytes, NoMemory>
    ensures { IfOk result (λ text. text ≡ summed_text tally.now (stop_of stop)) }
{
    match stop {
        None => tally_text(alloc, tally),
        Some((line, fault)) => stop_text(alloc, line, fault),
    }
}

/// Tells the summary of the run of a script, or the line at which it stopped.
#[tactic(auto, using(crate::proofs::Counted::summed_so))]
fn tell_sum<K: Sink>(alloc: Global, script: &Script, output: &mut K) -> Result<u8, Stop>
    requires { AreFit script.now }
    ensures { AnswersOrStops (summed (whole_run script.now)) result (K.held output.old) (K.held output.new) (K.faults output.old) (K.faults output.new) }
{
    a_network_is_whole();
    let mut counting = Counting::new(alloc);
    let stop = counting.counts(script)?;
    let text = sum_of(alloc, &counting.tally, stop)?;
    tell(output, text.as_slice(), status_of(stop))
}

/// Tells the summary of the run of the script with a number, from 1 to 10,000.
#[tactic(auto, using(crate::proofs::Fit::generated_is_fit, crate::proofs::Generated::generated_so))]
pub fn tell_generated<K: Sink>(alloc: Global, number: u32, output: &mut K) -> Result<u8, Stop>
    requires from { 1 ≤ number }
    requires to { number ≤ most_scripts }
    ensures { AnswersOrStops (generated_answer number) result (K.held output.old) (K.held output.new) (K.faults output.old) (K.faults output.new) }
{
    let script = generate(alloc, number)?;
    tell_sum(alloc, &script, output)
}
