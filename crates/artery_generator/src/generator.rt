ghost use Rattle.std.specs.Prelude.{◌≡◌, ◌≤◌, ◌++◌, IfOk, OnOk};
ghost use Rattle.artery_generator.specs.Turns.{next_drawn, turn_of, live_after, live_after_turns};
ghost use Rattle.artery_generator.specs.Events.{events_of_turn};
ghost use Rattle.artery_generator.specs.Scripts.{numbered_from, turns_up_to, last_up_to, events_of_script, script_of};

use crate::events::{begin, do_turn, settle};
use crate::live::Live;
use crate::turn::{Turn, next_drawn};
use artery_base::NoMemory;
use artery_script::{Event, Script, ScriptLine};
use std::alloc::Global;
use std::collections::VecDeque;

// After the last step the time is told, and messages pass, so many times.
const LAST_ROUNDS: u64 = 3;

/// Who lives, and what was drawn last.
#[derive(Clone, Copy)]
struct Generator {
    drawn: u32,
    live: Live,
}

impl Generator {
    fn turn(&mut self, alloc: Global, number: u32, events: &mut Vec<Event>) -> Result<(), NoMemory>
        ensures drawn { OnOk result (self.new.drawn ≡ next_drawn self.old.drawn) }
        ensures live { OnOk result (self.new.live ≡ live_after (turn_of number (next_drawn self.old.drawn) self.old.live)) }
        ensures events { OnOk result (events.new.items ≡ events.old.items ++ events_of_turn (turn_of number (next_drawn self.old.drawn) self.old.live)) }
    {
        self.drawn = next_drawn(self.drawn);
        let turn = Turn::drawn(number, self.drawn, self.live);
        self.live = turn.live_after();
        do_turn(alloc, &turn, events)
    }
}

// The first n steps, and who lives then.
fn do_turns(alloc: Global, n: u32, events: &mut Vec<Event>) -> Result<Live, NoMemory>
    requires { n ≤ 10000 }
    ensures live { IfOk result (λ live. live ≡ live_after_turns n n) }
    ensures events { OnOk result (events.new.items ≡ events.old.items ++ turns_up_to n n) }
{
    let mut generator = Generator {
        drawn: n,
        live: Live::first(),
    };
    for done in 0..n {
        generator.turn(alloc, done + 1, events)?;
    }
    Ok(generator.live)
}

// The rounds behind the last step.
#[tactic(auto, using(crate::proofs::Steps::last_next))]
fn settle_all(n: u32, live: &Live, events: &mut Vec<Event>) -> Result<(), NoMemory>
    ensures { OnOk result (events.new.items ≡ events.old.items ++ last_up_to n live.now 3) }
{
    for done in 0..LAST_ROUNDS {
        settle(u64::from(n) + done + 1, live, events)?;
    }
    Ok(())
}

fn events_of_script(alloc: Global, n: u32) -> Result<Vec<Event>, NoMemory>
    requires { n ≤ 10000 }
    ensures { IfOk result (λ events. events.items ≡ events_of_script n) }
{
    let mut events = Vec::new(alloc);
    begin(alloc, &Live::first(), &mut events)?;
    let live = do_turns(alloc, n, &mut events)?;
    settle_all(n, &live, &mut events)?;
    Ok(events)
}

// Each event on a line of its own.
fn numbered(alloc: Global, events: Vec<Event>) -> Result<Script, NoMemory>
    ensures { IfOk result (λ script. script ≡ numbered_from 1 events.items) }
{
    let mut left = VecDeque::from(events);
    let mut script = Script::new(alloc);
    let mut line = 0;
    while let Some(event) = left.pop_front() {
        line += 1;
        script.push(ScriptLine { line, event })?;
    }
    Ok(script)
}

/// The script with number `n`, from 1 to 10,000, its lines counted from 1. Want of memory is the only
/// other answer.
pub fn generate(alloc: Global, n: u32) -> Result<Script, NoMemory>
    requires from { 1 ≤ n }
    requires to { n ≤ 10000 }
    ensures script { IfOk result (λ script. script ≡ script_of n) }
{
    let events = events_of_script(alloc, n)?;
    numbered(alloc, events)
}
