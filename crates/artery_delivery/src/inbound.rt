//! The messages that are expected of many origins.
ghost use Rattle.std.specs.Prelude.{is_some, ◌≡◌, ◌-◌, ℕ, List, [], length, OnOk, OnErr, IfOk};
ghost use Rattle.artery_base.specs.declared.message.SysMsg.{SysMsg};
ghost use Rattle.artery_base.specs.declared.address.UniqueAddress.{UniqueAddress};
ghost use Rattle.artery_delivery.specs.Inbound.{expected_of, IsKnown, IsKnownAfter, opening, with_origin, taking, with_taken, answer_to_open, opened, answer_to_take, taken, next_of, messages_from, Stands};

use artery_base::{NoMemory, UniqueAddress};
use indexmap::IndexMap;
use std::alloc::Global;
use std::marker::Model;

/// The most origins that are known.
pub const MOST_ORIGINS: usize = 1_024;

/// The number that no message is expected at.
pub const NEVER_EXPECTED: u64 = 18_446_744_073_709_551_615;

/// Whether a message is taken.
#[derive(Clone, Copy, Debug, PartialEq, Eq)]
pub enum Take {
    /// It is the expected one.
    Taken,
    /// It was taken before. The last number taken is `last`.
    Again { last: u64 },
    /// It is not the next one. The last number taken is `last`.
    Gap { last: u64 },
}

/// What opening an origin did.
#[derive(Clone, Copy, Debug, PartialEq, Eq)]
pub enum Opened {
    /// The origin is new, and number 1 is expected of it.
    Opened,
    /// The origin was known. Nothing changed.
    Known,
    /// The origin is new, and 1,024 others are known. Nothing changed.
    OriginsFull,
}

/// A unique address of its own.
fn copy_of(origin: &UniqueAddress) -> Result<UniqueAddress, NoMemory>
    ensures { IfOk result (λ copy. copy ≡ origin.now) }
{
    Ok(origin.clone()?)
}

/// The number expected of each origin.
///
/// A contract sees the origins in the order in which they were opened, each with its number, which stand for the whole list of the
/// messages taken from each.
#[derive(Drop)]
pub struct Inbound {
    expected: Option<IndexMap<UniqueAddress, u64>>,
}

impl Model for Inbound {
    ghost use Rattle.std.specs.Prelude.{ℕ, List};
    ghost use Rattle.artery_base.specs.declared.address.UniqueAddress.{UniqueAddress};

    ghost Value = { List (UniqueAddress × ℕ) };

    ghost use Rattle.artery_delivery.specs.Entries.{entries_in};

    ghost view = { λ i. entries_in i.expected };
}

impl Inbound {
    /// No origin. Takes no memory.
    pub fn new() -> Inbound
        ensures { result ≡ [] }
    {
        Inbound { expected: None }
    }

    /// Opens an origin, of which number 1 is then expected. A known origin stays as it is, and a new one is refused beside 1,024 others.
    /// Without memory nothing changes.
    #[tactic(auto, using(crate::proofs::Histories::opening_stands, crate::proofs::Origins::known_after))]
    pub fn open_origin(&mut self, alloc: Global, origin: &UniqueAddress) -> Result<Opened, NoMemory>
        ensures answer { IfOk result (λ answer. answer ≡ opening origin.now self.old) }
        ensures entries { OnOk result (self.new ≡ with_origin origin.now self.old) }
        ensures err { OnErr result (self.new ≡ self.old) }
        ensures known { IfOk result (λ answer. IsKnownAfter answer origin.now self.new) }
        ensures history { (all : List (UniqueAddress × List SysMsg)) → Stands self.old all → IfOk result (λ answer. (answer ≡ answer_to_open origin.now all) × Stands self.new (opened origin.now all)) }
    {
        match self.opening(origin) {
            Opened::Opened => {
                self.add(alloc, copy_of(origin)?)?;
                Ok(Opened::Opened)
            }
            Opened::Known => Ok(Opened::Known),
            Opened::OriginsFull => Ok(Opened::OriginsFull),
        }
    }

    /// Whether the origin is known.
    pub fn knows(&self, origin: &UniqueAddress) -> bool
        ensures { result ≡ is_some (expected_of origin.now self.now) }
    {
        match &self.expected {
            Some(expected) => expected.contains_key(origin),
            None => false,
        }
    }

    /// The number of the last message taken from an origin, 0 where none was.
    #[tactic(auto, using(crate::proofs::Histories::last_stands))]
    pub fn last_taken(&self, origin: &UniqueAddress) -> u64
        ensures entries { result ≡ next_of origin.now self.now - 1 }
        ensures history { (all : List (UniqueAddress × List SysMsg)) → Stands self.now all → result ≡ length (messages_from origin.now all) }
    {
        self.expected(origin).saturating_sub(1)
    }

    /// The number expected of an origin, 1 where it is not known.
    fn expected(&self, origin: &UniqueAddress) -> u64
        ensures { result ≡ next_of origin.now self.now }
    {
        let Some(expected) = &self.expected else {
            return 1;
        };
        match expected.get(origin) {
            Some(next) => *next,
            None => 1,
        }
    }

    /// What `open_origin` does, if it gets its memory.
    fn opening(&self, origin: &UniqueAddress) -> Opened
        ensures { result ≡ opening origin.now self.now }
    {
        match &self.expected {
            Some(expected) => {
                if expected.contains_key(origin) {
                    Opened::Known
                } else if expected.len() >= MOST_ORIGINS {
                    Opened::OriginsFull
                } else {
                    Opened::Opened
                }
            }
            None => Opened::Opened,
        }
    }

    /// Adds a new origin.
    #[tactic(auto, using(crate::proofs::Origins::inserts))]
    fn add(&mut self, alloc: Global, origin: UniqueAddress) -> Result<(), NoMemory>
        requires { opening origin self.old ≡ Opened.Opened }
        ensures ok { OnOk result (self.new ≡ with_origin origin self.old) }
        ensures err { OnErr result (self.new ≡ self.old) }
    {
        match &mut self.expected {
            Some(expected) => {
                expected.insert(origin, 1)?;
            }
            None => {
                let mut expected = IndexMap::new(alloc);
                expected.insert(origin, 1)?;
                self.expected = Some(expected);
            }
        }
        Ok(())
    }

    /// Takes message number `n` of a known origin exactly where it is the expected one; then one more is expected. Below the expected
    /// number it is Again, and else Gap. Number 18,446,744,073,709,551,615 is never expected.
    ///
    /// Wants that the origin is known.
    #[tactic(auto, using(std::proofs::lemmas::Map::Steps::set_value_same, crate::proofs::Origins::known_set))]
    pub fn take(&mut self, origin: &UniqueAddress, n: u64) -> Take
        requires { IsKnown origin.now self.old }
        ensures answer { result ≡ taking origin.now n self.old }
        ensures entries { self.new ≡ with_taken origin.now n self.old }
        ensures known { IsKnown origin.now self.new }
        ensures history { (all : List (UniqueAddress × List SysMsg)) (message : SysMsg) → Stands self.old all → (result ≡ answer_to_take origin.now n all) × Stands self.new (taken origin.now n message all) }
    {
        let Some(map) = &mut self.expected else {
            return Take::Gap { last: 0 };
        };
        let Some(expected) = map.get_mut(origin) else {
            return Take::Gap { last: 0 };
        };
        let last = expected.saturating_sub(1);
        if n < *expected {
            return Take::Again { last };
        }
        if n > *expected || n == NEVER_EXPECTED {
            return Take::Gap { last };
        }
        *expected = n + 1;
        Take::Taken
    }
}
