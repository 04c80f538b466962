ghost use Rattle.std.specs.Prelude.{◌∷◌, ◌≡◌, ℕ, ◌+◌, ◌≤◌, Bool, true, List, [], length, Option, Some, None, drop, take, ◌++◌, ◌<◌, ◌^◌, IfOk, IsErr, IsOk, OnErr};
ghost use Rattle.std.specs.Io.KnownBytes.{ReadConsumes, WriteAppends};
ghost use Rattle.artery_io.specs.Faults.{HasCause};
ghost use Rattle.artery_io.specs.InMemory.{Reading, Writing, one_more, next_fails};

use crate::sink::Sink;
use crate::source::{Failed, Source};
use artery_base::{Bytes, Numbers};
use std::alloc::Global;
use std::marker::Model;

/// A source in memory, of which given reads fail. It tells what is left.
#[derive(Debug, Drop)]
pub struct MemSource {
    bytes: Bytes,
    at: usize,
    failing: Numbers,
    calls: u64,
    faults: u64,
    ghost within: { at ≤ length bytes },
}

impl Model for MemSource {
    ghost Value = { Reading };

    ghost view = { λ s. record { left = drop s.at s.bytes; failing = s.failing; calls = s.calls; faults = s.faults } };
}

impl MemSource {
    /// A source of these bytes. The reads whose numbers are in `failing` fail; reads count from 1.
    pub fn new(bytes: Bytes, failing: Numbers) -> MemSource
        ensures { result ≡ record { left = bytes; failing = failing; calls = 0; faults = 0 } }
    {
        MemSource {
            bytes,
            at: 0,
            failing,
            calls: 0,
            faults: 0,
        }
    }
}

/// Copies the front of `rest` into a buffer, as much as it has room for, and answers how much.
#[tactic(auto, using(crate::proofs::MovedLemmas::front_moved, crate::proofs::MovedLemmas::none_left))]
fn move_front(rest: &[u8], into: &mut [u8]) -> usize
    ensures bound { result ≤ length into.old }
    ensures within { result ≤ length rest.now }
    ensures moved { rest.now ≡ take result into.new ++ drop result rest.now }
    ensures end { result ≡ 0 → 0 < length into.old → rest.now ≡ [] }
{
    let count = rest.len().min(into.len());
    let (front, _) = rest.split_at(count);
    into[..count].copy_from_slice(front);
    count
}

impl Source for MemSource {
    ghost left = { λ s. Some s.left };

    ghost faults = { λ s. s.faults };

    /// `Failed` comes exactly where the number of the call is listed.
    #[tactic(auto, using(crate::proofs::MovedLemmas::left_behind))]
    fn read(&mut self, into: &mut [u8]) -> Result<usize, Failed>
        requires { 0 < length into.old }
        ensures bound { IfOk result (λ n. n ≤ length into.old) }
        ensures bytes { ReadConsumes (Some self.old.left) (Some self.new.left) result into.new }
        ensures cause { HasCause self.old.faults self.new.faults result }
        ensures failed { next_fails self.old.failing self.old.calls ≡ true → IsErr result }
        ensures only { IsErr result → next_fails self.old.failing self.old.calls ≡ true }
        ensures stays { OnErr result (self.new.left ≡ self.old.left) }
        ensures counted { (self.new.failing ≡ self.old.failing) × (self.new.calls ≡ one_more self.old.calls) }
    {
        self.calls = self.calls.saturating_add(1);
        if self.failing.as_slice().contains(&self.calls) {
            self.faults = self.faults.saturating_add(1);
            return Err(Failed);
        }
        let (_, rest) = self.bytes.as_slice().split_at(self.at);
        let count = move_front(rest, into);
        self.at += count;
        Ok(count)
    }
}

/// A source in memory that never fails. It tells what is left.
#[derive(Debug, Drop)]
pub struct FreeSource {
    bytes: Bytes,
    at: usize,
    ghost within: { at ≤ length bytes },
}

impl FreeSource {
    /// A source of these bytes.
    pub fn new(bytes: Bytes) -> FreeSource
        ensures { drop result.at result.bytes ≡ bytes }
    {
        FreeSource { bytes, at: 0 }
    }
}

impl Source for FreeSource {
    ghost left = { λ s. Some (drop s.at s.bytes) };

    ghost faults = { λ _. 0 };

    #[tactic(auto, using(crate::proofs::MovedLemmas::left_behind))]
    fn read(&mut self, into: &mut [u8]) -> Result<usize, Failed> {
        let (_, rest) = self.bytes.as_slice().split_at(self.at);
        let count = move_front(rest, into);
        self.at += count;
        Ok(count)
    }
}

/// A sink in memory, of which given writes fail. It takes each piece whole and tells what it holds.
#[derive(Debug, Drop)]
pub struct MemSink {
    bytes: Bytes,
    failing: Numbers,
    calls: u64,
    faults: u64,
}

impl Model for MemSink {
    ghost Value = { Writing };

    ghost view = { λ s. record { held = s.bytes; failing = s.failing; calls = s.calls; faults = s.faults } };
}

impl MemSink {
    /// A sink that holds nothing. The writes whose numbers are in `failing` fail; writes count
    /// from 1. A write for which there is no memory fails too.
    pub fn new(alloc: Global, failing: Numbers) -> MemSink
        ensures { result ≡ record { held = []; failing = failing; calls = 0; faults = 0 } }
    {
        MemSink {
            bytes: Bytes::new(alloc),
            failing,
            calls: 0,
            faults: 0,
        }
    }

    /// What it holds.
    pub fn bytes(&self) -> &Bytes
        ensures { result.now ≡ self.now.held }
    {
        &self.bytes
    }
}

impl Sink for MemSink {
    ghost held = { λ s. Some s.held };

    ghost faults = { λ s. s.faults };

    /// `Failed` comes where the number of the call is listed, and else only where memory is refused.
    /// A piece is taken whole.
    fn write(&mut self, piece: &[u8]) -> Result<usize, Failed>
        requires { 0 < length piece.now }
        ensures some { IfOk result (λ n. 0 < n) }
        ensures bound { IfOk result (λ n. n ≤ length piece.now) }
        ensures bytes { WriteAppends (Some self.old.held) (Some self.new.held) result piece.now }
        ensures cause { HasCause self.old.faults self.new.faults result }
        ensures failed { next_fails self.old.failing self.old.calls ≡ true → IsErr result }
        ensures whole { IfOk result (λ n. n ≡ length piece.now) }
        ensures stays { OnErr result (self.new.held ≡ self.old.held) }
        ensures counted { (self.new.failing ≡ self.old.failing) × (self.new.calls ≡ one_more self.old.calls) }
    {
        self.calls = self.calls.saturating_add(1);
        let fails = self.failing.as_slice().contains(&self.calls);
        if fails || self.bytes.extend_from_slice(piece).is_err() {
            self.faults = self.faults.saturating_add(1);
            return Err(Failed);
        }
        Ok(piece.len())
    }
}

/// A sink that takes each piece whole, keeps nothing and never fails.
#[derive(Clone, Copy, Debug, Default)]
pub struct FreeSink;

impl FreeSink {
    /// The sink.
    pub fn new() -> FreeSink {
        FreeSink
    }
}

impl Sink for FreeSink {
    ghost held = { λ _. None };

    ghost faults = { λ _. 0 };

    fn write(&mut self, piece: &[u8]) -> Result<usize, Failed> {
        Ok(piece.len())
    }
}
