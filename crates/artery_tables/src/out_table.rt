//! The table that a sender writes with.
ghost use Rattle.std.specs.Prelude.{◌≡◌, length, OnOk, OnErr, IfOk};
ghost use Rattle.artery_tables.specs.Story.{version_of};
ghost use Rattle.artery_tables.specs.OutTable.{State, Stands, nothing_held, nothing_adopted, adopting, held_adopted, indices_of, index_in, adopted, last_value};

use crate::name::{Key, Name, copy_of};
use crate::table::version_of;
use artery_base::{Names, NoMemory, Text, Values};
use indexmap::IndexMap;
use std::alloc::Global;
use std::marker::Model;

/// Whether a table was adopted.
#[derive(Clone, Copy, Debug, PartialEq, Eq)]
pub enum Adopted {
    /// It is now the one that is held.
    Adopted,
    /// Its number is that of the one that is held. Nothing changed.
    Same,
    /// Its number is lower than that of the one that is held. Nothing changed.
    Older,
}

/// The table that was adopted last.
///
/// A contract sees its number and the index of each name, which stand for the list of all pairs that it came with.
#[derive(Drop)]
pub struct OutTable {
    number: u64,
    indices: Option<IndexMap<Key, u16>>,
}

impl Model for OutTable {
    ghost use Rattle.artery_tables.specs.OutTable.{Held};
    ghost use Rattle.artery_tables.specs.Counting.{entries_in};

    ghost Value = { Held };

    ghost view = { λ t. record { number = t.number; indices = entries_in t.indices } };
}

/// The index of each key: the last value beside it.
#[tactic(auto, using(crate::proofs::Pairs::one_more))]
fn indices_of(alloc: Global, keys: &[Text], values: &[u16]) -> Result<IndexMap<Key, u16>, NoMemory>
    requires { length keys.now ≡ length values.now }
    ensures { IfOk result (λ indices. indices.entries ≡ indices_of keys.now values.now) }
{
    let mut indices = IndexMap::with_capacity(alloc, keys.len())?;
    for (at, key) in keys.iter().enumerate() {
        indices.insert(Key::new(copy_of(key)?), values[at])?;
    }
    Ok(indices)
}

impl OutTable {
    /// The empty table, with number 0. Takes no memory.
    pub fn new() -> OutTable
        ensures held { result ≡ nothing_held }
        ensures history { Stands result nothing_adopted }
    {
        OutTable {
            number: 0,
            indices: None,
        }
    }

    /// Holds a table of a higher number in place of the one before: each key gets the index beside it, and a repeated key the last of its
    /// indices. Same for the number that is held and Older for a lower one; then nothing changes. Without memory nothing changes.
    ///
    /// Wants as many values as keys.
    #[tactic(auto, using(crate::proofs::Pairs::adopting_alike))]
    pub fn adopt(
        &mut self,
        alloc: Global,
        number: u64,
        keys: Names,
        values: Values,
    ) -> Result<Adopted, NoMemory>
        requires { length keys ≡ length values }
        ensures answer { IfOk result (λ answer. answer ≡ adopting number self.old.number) }
        ensures held { OnOk result (self.new ≡ held_adopted number keys values self.old) }
        ensures err { OnErr result (self.new ≡ self.old) }
        ensures history { (s : State) → Stands self.old s → IfOk result (λ answer. (answer ≡ adopting number s.number) × Stands self.new (adopted number keys values s)) }
    {
        if number == self.number {
            return Ok(Adopted::Same);
        }
        if number < self.number {
            return Ok(Adopted::Older);
        }
        self.indices = Some(indices_of(alloc, keys.as_slice(), values.as_slice())?);
        self.number = number;
        Ok(Adopted::Adopted)
    }

    /// The index of a name. None exactly where the table does not have it.
    pub fn index_of(&self, name: &[u8]) -> Option<u16>
        ensures held { result ≡ index_in self.now name.now }
        ensures history { (s : State) → Stands self.now s → result ≡ last_value name.now s.pairs }
    {
        match &self.indices {
            Some(indices) => indices.get(Name(name)).copied(),
            None => None,
        }
    }

    /// The number of the table, 0 where none was adopted.
    pub fn number(&self) -> u64
        ensures held { result ≡ self.now.number }
        ensures history { (s : State) → Stands self.now s → result ≡ s.number }
    {
        self.number
    }

    /// The version of the table: 0 for number 0, else 1 to 127.
    pub fn version(&self) -> u8
        ensures held { result ≡ version_of self.now.number }
        ensures history { (s : State) → Stands self.now s → result ≡ version_of s.number }
    {
        version_of(self.number)
    }
}
