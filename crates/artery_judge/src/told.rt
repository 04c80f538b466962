//! The ordinary messages that were told and not yet passed over.
ghost use Rattle.std.specs.Prelude.{◌≡◌, ℕ, List, [], ◌∷◌, ◌++◌, Some, OnOk};
ghost use Rattle.std.specs.List.{list_any};
ghost use Rattle.artery_base.specs.declared.address.UniqueAddress.{UniqueAddress};
ghost use Rattle.artery_judge.specs.Laws.{same_tell, is_dial, is_nonce};
ghost use Rattle.artery_judge.specs.Kept.{past_tell, past_tells};
ghost use Rattle.artery_judge.specs.Lines.{rest_if, with_rest};
ghost use Rattle.artery_judge.specs.Views.{told_at};

use crate::keys::Link;
use artery_base::{NoMemory, Tell, UniqueAddress};
use indexmap::IndexMap;
use std::alloc::Global;
use std::collections::VecDeque;
use std::marker::Model;

/// Messages that one incarnation told another on one connection and that no message that came was past, in order.
#[derive(Drop)]
pub struct ToldQueue<'a> {
    messages: VecDeque<&'a Tell>,
}

impl<'a> Model for ToldQueue<'a> {
    ghost use Rattle.std.specs.Prelude.{List, map};
    ghost use Rattle.artery_base.specs.declared.message.Tell.{Tell};

    ghost Value = { List Tell };

    ghost view = { λ q. map (λ m. m.now) q.messages.items };
}

impl<'a> ToldQueue<'a> {
    /// No message.
    fn new(alloc: Global) -> ToldQueue<'a>
        ensures { result ≡ [] }
    {
        ToldQueue {
            messages: VecDeque::new(alloc),
        }
    }

    /// Adds a message at the end.
    fn push(&mut self, message: &'a Tell) -> Result<(), NoMemory>
        ensures { OnOk result (self.new ≡ self.old ++ message.now ∷ []) }
    {
        self.messages.push_back(message)?;
        Ok(())
    }

    /// Whether this message is there.
    #[tactic(auto, using(crate::proofs::KeyTests::any_map))]
    fn has(&self, message: &'a Tell) -> bool
        ensures { result ≡ list_any (λ t. same_tell t message.now) self.now }
    {
        self.messages.contains(&message)
    }

    /// Removes the messages up to the first that is this one, or all where none is.
    fn skip_past(&mut self, message: &'a Tell)
        ensures { self.new ≡ past_tell message.now self.old }
    {
        while let Some(told) = self.messages.pop_front() {
            if *told == *message {
                return;
            }
        }
    }
}

/// The messages that each incarnation told another on each connection and that no message that came was past, in order.
#[derive(Drop)]
pub struct Told<'a> {
    queues: IndexMap<Link<'a>, ToldQueue<'a>>,
}

impl<'a> Model for Told<'a> {
    ghost use Rattle.std.specs.Prelude.{List};
    ghost use Rattle.artery_base.specs.declared.message.Tell.{Tell};
    ghost use Rattle.artery_judge.specs.declared.keys.Link.{Link};

    ghost Value = { List (Link × List Tell) };

    ghost view = { λ t. t.queues.entries };
}

impl<'a> Told<'a> {
    /// No message.
    pub fn new(alloc: Global) -> Told<'a>
        ensures { result ≡ [] }
    {
        Told {
            queues: IndexMap::new(alloc),
        }
    }

    /// Adds a message to those that `of` told `other` on connection `dial`.
    pub fn push(
        &mut self,
        alloc: Global,
        of: &'a UniqueAddress,
        other: &'a UniqueAddress,
        dial: u64,
        message: &'a Tell,
    ) -> Result<(), NoMemory>
        ensures { OnOk result ((a b : UniqueAddress) (d : ℕ) → told_at a b d self.new ≡ with_rest (told_at a b d self.old) (rest_if (is_dial a b d) (Some (((of.now, other.now), dial), message.now)))) }
    {
        let key = Link { of, other, dial };
        if let Some(queue) = self.queues.get_mut(&key) {
            queue.push(message)?;
            return Ok(());
        }
        let mut queue = ToldQueue::new(alloc);
        queue.push(message)?;
        self.queues.insert(key, queue)?;
        Ok(())
    }

    /// Whether this message is among those that `of` told `other` on connection `dial`.
    pub fn has(
        &self,
        of: &'a UniqueAddress,
        other: &'a UniqueAddress,
        dial: u64,
        message: &'a Tell,
    ) -> bool
        ensures { result ≡ list_any (λ t. same_tell t message.now) (told_at of.now other.now dial self.now) }
    {
        match self.queues.get(&Link { of, other, dial }) {
            Some(queue) => queue.has(message),
            None => false,
        }
    }

    /// Removes the messages that `other` told `of` on its connection `dial` up to the first that is this one, or all where none is.
    #[tactic(auto, using(crate::proofs::KeyTests::told_unskipped))]
    pub fn skip_past(
        &mut self,
        of: &'a UniqueAddress,
        other: &'a UniqueAddress,
        dial: u64,
        message: &'a Tell,
    )
        ensures { (a b : UniqueAddress) (d : ℕ) → told_at a b d self.new ≡ past_tells (rest_if (is_nonce b a d) (Some (((of.now, other.now), Some dial), message.now))) (told_at a b d self.old) }
    {
        let Some(queue) = self.queues.get_mut(&Link {
            of: other,
            other: of,
            dial,
        })
        else {
            return;
        };
        queue.skip_past(message);
    }
}
