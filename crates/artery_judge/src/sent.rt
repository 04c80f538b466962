//! The system messages that were sent and not yet taken.
ghost use Rattle.std.specs.Prelude.{◌≡◌, List, [], ◌∷◌, ◌++◌, length, drop, Some, OnOk};
ghost use Rattle.artery_base.specs.declared.address.UniqueAddress.{UniqueAddress};
ghost use Rattle.artery_judge.specs.Laws.{is_prefix};
ghost use Rattle.artery_judge.specs.Lines.{Rest, is_way, rest_if, with_rest};
ghost use Rattle.artery_judge.specs.Views.{sent_at};

use crate::keys::Pair;
use artery_base::{NoMemory, SysMsg, UniqueAddress};
use indexmap::IndexMap;
use std::alloc::Global;
use std::collections::VecDeque;
use std::marker::Model;

/// A system message and its number.
#[derive(Clone, Copy, PartialEq)]
pub struct Numbered<'a> {
    pub n: u64,
    pub message: &'a SysMsg,
}

/// Messages that one incarnation sent to another and that were not taken yet, in order.
#[derive(Drop)]
pub struct SentQueue<'a> {
    messages: VecDeque<Numbered<'a>>,
}

impl<'a> Model for SentQueue<'a> {
    ghost use Rattle.std.specs.Prelude.{List, map};
    ghost use Rattle.artery_judge.specs.Lines.{Rest};
    ghost use Rattle.artery_judge.specs.Views.{numbered};

    ghost Value = { List Rest };

    ghost view = { λ q. map numbered q.messages.items };
}

impl<'a> SentQueue<'a> {
    /// No message.
    fn new(alloc: Global) -> SentQueue<'a>
        ensures { result ≡ [] }
    {
        SentQueue {
            messages: VecDeque::new(alloc),
        }
    }

    /// Adds a message at the end.
    fn push(&mut self, n: u64, message: &'a SysMsg) -> Result<(), NoMemory>
        ensures { OnOk result (self.new ≡ self.old ++ (n, message.now) ∷ []) }
    {
        self.messages.push_back(Numbered { n, message })?;
        Ok(())
    }

    /// Whether the first message is this one.
    fn is_next(&self, n: u64, message: &'a SysMsg) -> bool
        ensures { result ≡ is_prefix ((n, message.now) ∷ []) self.now }
    {
        match self.messages.front() {
            Some(first) => *first == Numbered { n, message },
            None => false,
        }
    }

    /// Removes the first message, if there is one.
    fn pop(&mut self)
        ensures { self.new ≡ drop 1 self.old }
    {
        let _first = self.messages.pop_front();
    }
}

/// The messages that each incarnation sent to another and that were not taken yet, in order.
#[derive(Drop)]
pub struct Sent<'a> {
    queues: IndexMap<Pair<'a>, SentQueue<'a>>,
}

impl<'a> Model for Sent<'a> {
    ghost use Rattle.std.specs.Prelude.{List};
    ghost use Rattle.artery_judge.specs.declared.keys.Pair.{Pair};
    ghost use Rattle.artery_judge.specs.Lines.{Rest};

    ghost Value = { List (Pair × List Rest) };

    ghost view = { λ s. s.queues.entries };
}

impl<'a> Sent<'a> {
    /// No message.
    pub fn new(alloc: Global) -> Sent<'a>
        ensures { result ≡ [] }
    {
        Sent {
            queues: IndexMap::new(alloc),
        }
    }

    /// Adds a message to those from `of` to `other`.
    pub fn push(
        &mut self,
        alloc: Global,
        of: &'a UniqueAddress,
        other: &'a UniqueAddress,
        n: u64,
        message: &'a SysMsg,
    ) -> Result<(), NoMemory>
        ensures { OnOk result ((a b : UniqueAddress) → sent_at a b self.new ≡ with_rest (sent_at a b self.old) (rest_if (is_way a b) (Some ((of.now, other.now), (n, message.now))))) }
    {
        let key = Pair { of, other };
        if let Some(queue) = self.queues.get_mut(&key) {
            queue.push(n, message)?;
            return Ok(());
        }
        let mut queue = SentQueue::new(alloc);
        queue.push(n, message)?;
        self.queues.insert(key, queue)?;
        Ok(())
    }

    /// Whether the first message from `of` to `other` is this one.
    pub fn is_next(
        &self,
        of: &'a UniqueAddress,
        other: &'a UniqueAddress,
        n: u64,
        message: &'a SysMsg,
    ) -> bool
        ensures { result ≡ is_prefix ((n, message.now) ∷ []) (sent_at of.now other.now self.now) }
    {
        match self.queues.get(&Pair { of, other }) {
            Some(queue) => queue.is_next(n, message),
            None => false,
        }
    }

    /// Removes the first message to `of` from `other`, if there is one.
    #[tactic(auto, using(crate::proofs::KeyTests::sent_unpopped))]
    pub fn pop(&mut self, of: &'a UniqueAddress, other: &'a UniqueAddress)
        ensures { (a b : UniqueAddress) (rest : Rest) → sent_at a b self.new ≡ drop (length (rest_if (is_way b a) (Some ((of.now, other.now), rest)))) (sent_at a b self.old) }
    {
        let Some(queue) = self.queues.get_mut(&Pair {
            of: other,
            other: of,
        })
        else {
            return;
        };
        queue.pop();
    }
}
