//! A script is played and its run told.
ghost use Rattle.std.specs.Prelude.{◌≡◌, ◌≤◌, length, Some, IfOk, IfErr, IsErrOf};
ghost use Rattle.artery_io.specs.Faults.{Rose};
ghost use Rattle.artery_script.specs.Scripts.{script_of};
ghost use Rattle.artery_replay.specs.Texts.{front_text};
ghost use Rattle.artery_cli.specs.Answers.{Answers, IsDone, run_answer, script_answer, whole_run};
ghost use Rattle.artery_cli.specs.Leaving.{Leaves};
ghost use Rattle.artery_cli.specs.Limits.{most_bytes};
ghost use Rattle.artery_cli.specs.Playing.{AreFit, StopsTold, ended_text, stop_of};
ghost use Rattle.artery_cli.specs.declared.command.Command.TheVariants.{Whole};
ghost use Rattle.artery_cli.specs.declared.command.Task.TheVariants.{Replay};
ghost use Rattle.artery_cli.specs.declared.stop.Stop.TheVariants as stops;

use crate::playing::{Playing, status_of};
use crate::refusal::{Refusal, refuse};
use crate::stop::Stop;
use crate::telling::{put, tell};
use artery_base::{Bytes, NoMemory};
use artery_io::Sink;
use artery_laws::a_network_is_whole;
use artery_machine::WorldFault;
use artery_replay::{Form, print_front, stop_text};
use artery_script::{Script, ScriptFault, events_are_spelled, read_script};
use std::alloc::Global;

/// What stands before everything else.
fn front_of(alloc: Global, form: Form) -> Result<Bytes, NoMemory>
    ensures { IfOk result (λ text. text ≡ front_text form) }
{
    let mut front = Bytes::new(alloc);
    print_front(form, &mut front)?;
    Ok(front)
}

/// What stands behind the outcomes of a run that ended or stopped here.
fn end_of(
    alloc: Global,
    playing: &Playing,
    stop: Option<(u64, WorldFault)>,
) -> Result<Bytes, NoMemory>
    ensures { IfOk result (λ text. text ≡ ended_text playing.now.world.world.connections (stop_of stop)) }
{
    match stop {
        None => playing.counts_text(alloc),
        Some((line, fault)) => stop_text(alloc, line, fault),
    }
}

/// Plays a script and tells its run.
#[tactic(auto, using(crate::proofs::Replayed::nothing_made, crate::proofs::Replayed::front_stops, crate::proofs::Replayed::run_stops, crate::proofs::Replayed::end_missing, crate::proofs::Replayed::end_stops, crate::proofs::Replayed::all_told))]
fn replay<K: Sink>(alloc: Global, form: Form, script: &Script, output: &mut K) -> Result<u8, Stop>
    requires { AreFit script.now }
    ensures answers { IfOk result (λ status. Answers (run_answer form (whole_run script.now)) (K.held output.old) (K.held output.new) status) }
    ensures left { IfErr result (λ stop. StopsTold stop form script.now (K.held output.old) (K.held output.new)) }
    ensures plain { IfOk result IsDone }
    ensures later { K.faults output.old ≤ K.faults output.new }
    ensures write { IsErrOf result stops.Write → Rose (K.faults output.old) (K.faults output.new) }
{
    a_network_is_whole();
    let front = front_of(alloc, form)?;
    put(output, front.as_slice())?;
    let mut playing = Playing::new(alloc);
    let stop = playing.plays(form, script, output)?;
    let text = end_of(alloc, &playing, stop)?;
    tell(output, text.as_slice(), status_of(stop))
}

/// Answers the text of a script: plays it, or tells its first fault.
#[tactic(auto, using(crate::proofs::Fit::script_is_fit, crate::proofs::Replayed::script_stops, crate::proofs::Stopping::task_leaves_nothing, crate::proofs::Stopping::refused_script))]
pub fn replay_text<K: Sink>(
    alloc: Global,
    form: Form,
    text: &[u8],
    output: &mut K,
) -> Result<u8, Stop>
    requires { length text.now ≤ most_bytes }
    ensures answers { IfOk result (λ status. Answers (script_answer form (script_of text.now)) (K.held output.old) (K.held output.new) status) }
    ensures left { IfErr result (λ stop. Leaves stop (Some (Whole (Replay form))) text.now (K.held output.old) (K.held output.new)) }
    ensures other { IsErrOf result stops.Read → ⊥ }
    ensures plain { IfOk result (λ status. (status ≡ 3 → ⊥) × (status ≡ 4 → ⊥) × (status ≡ 9 → ⊥)) }
    ensures later { K.faults output.old ≤ K.faults output.new }
    ensures write { IsErrOf result stops.Write → Rose (K.faults output.old) (K.faults output.new) }
{
    events_are_spelled();
    match read_script(alloc, text) {
        Ok(script) => replay(alloc, form, &script, output),
        Err(ScriptFault::NoMemory) => Err(Stop::NoMemory),
        Err(ScriptFault::TooManyLines) => refuse(alloc, Refusal::TooManyLines, output),
        Err(ScriptFault::BadLine { line }) => refuse(alloc, Refusal::BadLine { line }, output),
    }
}
