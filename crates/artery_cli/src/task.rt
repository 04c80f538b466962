ghost use Rattle.std.specs.Prelude.{◌≡◌, [], ◌+◌, ◌≤◌, ◌<◌, length, Some, IfOk, IfErr, IfSome, IsErrOf};
ghost use Rattle.artery_io.specs.Faults.{Rose};
ghost use Rattle.artery_cli.specs.Answers.{Answers, text_answer, task_answer};
ghost use Rattle.artery_cli.specs.Leaving.{Leaves, LeavesRead};
ghost use Rattle.artery_cli.specs.Reading.{ReadsAll, ReadsAtMost};
ghost use Rattle.artery_cli.specs.declared.command.Command.TheVariants.{Whole};
ghost use Rattle.artery_cli.specs.Limits.{most_bytes};
ghost use Rattle.artery_cli.specs.declared.stop.Stop.TheVariants as stops;

use crate::auditing::audit_text;
use crate::checking::check_text;
use crate::command::Task;
use crate::input::{Gathered, gather};
use crate::judging::judge_text;
use crate::making::make_text;
use crate::refusal::{Refusal, refuse};
use crate::replaying::replay_text;
use crate::stop::Stop;
use artery_io::{Sink, Source};
use std::alloc::Global;

/// Does a task with a text within the limit.
#[tactic(auto, using(crate::proofs::Stopping::text_stops))]
fn answer_text<K: Sink>(alloc: Global, task: &Task, text: &[u8], output: &mut K) -> Result<u8, Stop>
    requires { length text.now ≤ most_bytes }
    ensures answers { IfOk result (λ status. Answers (text_answer task.now text.now) (K.held output.old) (K.held output.new) status) }
    ensures left { IfErr result (λ stop. Leaves stop (Some (Whole task.now)) text.now (K.held output.old) (K.held output.new)) }
    ensures other { IsErrOf result stops.Read → ⊥ }
    ensures plain { IfOk result (λ status. (status ≡ 3 → ⊥) × (status ≡ 4 → ⊥) × (status ≡ 9 → ⊥)) }
    ensures later { K.faults output.old ≤ K.faults output.new }
    ensures write { IsErrOf result stops.Write → Rose (K.faults output.old) (K.faults output.new) }
{
    match task {
        Task::Replay { form } => replay_text(alloc, *form, text, output),
        Task::Make => make_text(alloc, text, output),
        Task::CheckControl { manifest } => check_text(alloc, manifest.as_slice(), text, output),
        Task::CheckJournal => judge_text(alloc, text, output),
        Task::Audit { merge } => audit_text(alloc, *merge, text, output),
    }
}

/// Reads the input whole and does a task with it.
#[tactic(auto, using(crate::proofs::Stopping::long_stops, crate::proofs::Stopping::gathered_stops, crate::proofs::Stopping::gathered_read, crate::proofs::Stopping::task_leaves_nothing_here))]
pub fn do_task<S: Source, K: Sink>(
    alloc: Global,
    task: &Task,
    input: &mut S,
    output: &mut K,
    buffer: &mut [u8],
) -> Result<u8, Stop>
    requires { 0 < length buffer.old }
    ensures answers { IfOk result (λ status. IfSome (S.left input.old) (λ text. Answers (task_answer task.now text) (K.held output.old) (K.held output.new) status)) }
    ensures left { IfErr result (λ stop. IfSome (S.left input.old) (λ text. Leaves stop (Some (Whole task.now)) text (K.held output.old) (K.held output.new))) }
    ensures ended { IfOk result (λ _. ReadsAll (S.left input.old) (S.left input.new)) }
    ensures bounded { ReadsAtMost (most_bytes + 1) (S.left input.old) (S.left input.new) }
    ensures read { IsErrOf result stops.Read → Rose (S.faults input.old) (S.faults input.new) }
    ensures seen { IsErrOf result stops.Read → LeavesRead (Some (Whole task.now)) [] (S.left input.old) (S.left input.new) (K.held output.old) (K.held output.new) }
    ensures plain { IfOk result (λ status. (status ≡ 3 → ⊥) × (status ≡ 4 → ⊥) × (status ≡ 9 → ⊥)) }
    ensures later { K.faults output.old ≤ K.faults output.new }
    ensures write { IsErrOf result stops.Write → Rose (K.faults output.old) (K.faults output.new) }
{
    match gather(alloc, input, buffer)? {
        Gathered::Whole(text) => answer_text(alloc, task, text.as_slice(), output),
        Gathered::TooLong => refuse(alloc, Refusal::TooManyBytes, output),
    }
}
