//! The tables that a receiver announces to one origin.
ghost use Rattle.std.specs.Prelude.{◌≡◌, ◌<◌, length, slice_get, OnOk, OnErr, IfOk};
ghost use Rattle.std.specs.Str.{IsAscii};
ghost use Rattle.std.specs.Option.{option_copied};
ghost use Rattle.artery_base.specs.Words.{Shows};
ghost use Rattle.artery_tables.specs.TopTable.{first_ranked};
ghost use Rattle.artery_tables.specs.Story.{entry_of, number_of, names_in};
ghost use Rattle.artery_tables.specs.InTables.{State, Stands, nothing_kept, nothing_used, counting, kept_counted, number_in, is_nothing_new, answer_by, advertising, kept_advertised, confirming, kept_confirmed, table_kept, if_version, number_kept, entry_kept, answer_to_use, used, answer_to_advertise, advertised, answer_to_confirm, confirmed, announced_in};

use crate::name::{Key, Name};
use crate::ranking::{are_same, top_names};
use crate::table::{Table, TableFault, version_of};
use artery_base::{Names, NoMemory, Text};
use indexmap::IndexMap;
use std::alloc::Global;
use std::marker::Model;

/// The most bytes of a name that is counted.
const LONGEST_NAME: usize = 256;

/// The most names that are counted.
const MOST_COUNTED: usize = 1_024;

/// The last number that a table has.
const LAST_NUMBER: u64 = 18_446_744_073_709_551_615;

/// The first number whose version another number had before.
const FIRST_AGAIN: u64 = 128;

/// Whether a name was counted.
#[derive(Clone, Copy, Debug, PartialEq, Eq)]
pub enum Counted {
    /// It was counted once more.
    Counted,
    /// It is new, and 1,024 others are counted. Nothing changed.
    Full,
    /// It has more than 256 bytes. Nothing changed.
    Long,
}

/// Whether a table was announced.
#[derive(Clone, Copy, Debug, PartialEq, Eq)]
pub enum Advertised {
    /// The top table is announced, with the next number.
    New,
    /// The announced table is not confirmed yet. Nothing changed.
    Again,
    /// There is no name, or the current table has the same names in the same order. Nothing changed.
    Same,
    /// There is no next number. Nothing changed.
    Spent,
    /// The next number is 128 or more, and the origin is not settled. Nothing changed.
    Unsettled,
}

/// Whether a table was confirmed.
#[derive(Clone, Copy, Debug, PartialEq, Eq)]
pub enum Confirmed {
    /// The announced table is now the current one.
    Confirmed,
    /// The number is not that of an announced table that waits for its confirmation. Nothing changed.
    NotAnnounced,
}

/// The names that were counted for one origin, and the tables that it is told.
///
/// A contract sees the counts and the five tables that are kept, which stand for all names counted and for the story of all tables.
#[derive(Drop)]
pub struct InTables {
    counts: Option<IndexMap<Key, u32>>,
    announced: Option<Table>,
    current: Option<Table>,
    first_older: Option<Table>,
    second_older: Option<Table>,
    third_older: Option<Table>,
}

impl Model for InTables {
    ghost use Rattle.artery_tables.specs.InTables.{Kept};
    ghost use Rattle.artery_tables.specs.Counting.{entries_in};

    ghost Value = { Kept };

    ghost view = { λ t. record { counts = entries_in t.counts; announced = t.announced; current = t.current; first_older = t.first_older; second_older = t.second_older; third_older = t.third_older } };
}

/// The name at an index, if there is one.
fn name_at(names: &Names, index: u16) -> Option<&Text>
    ensures { option_copied result ≡ slice_get names.now index }
{
    names.as_slice().get(index as usize)
}

/// The table, if it has the version.
fn if_version(version: u8, table: &Option<Table>) -> Option<&Table>
    ensures { option_copied result ≡ if_version version table.now }
{
    match table {
        Some(table) if table.version == version => Some(table),
        _ => None,
    }
}

impl InTables {
    /// No name and no table. Takes no memory.
    pub fn new() -> InTables
        ensures kept { result ≡ nothing_kept }
        ensures history { Stands result nothing_used }
    {
        InTables {
            counts: None,
            announced: None,
            current: None,
            first_older: None,
            second_older: None,
            third_older: None,
        }
    }

    /// Counts a name once more, up to 4,294,967,295. Long exactly where it has more than 256 bytes; Full exactly where it has at most 256
    /// and 1,024 other names are counted. Without memory nothing changes.
    ///
    /// Wants a name of ASCII bytes that is not empty.
    #[tactic(auto, using(crate::proofs::Uses::inserted_last))]
    pub fn count(&mut self, alloc: Global, name: &[u8]) -> Result<Counted, NoMemory>
        requires some { 0 < length name.now }
        requires ascii { IsAscii name.now }
        ensures answer { IfOk result (λ answer. answer ≡ counting name.now self.old) }
        ensures kept { OnOk result (self.new ≡ kept_counted name.now self.old) }
        ensures err { OnErr result (self.new ≡ self.old) }
        ensures history { (s : State) → Stands self.old s → IfOk result (λ answer. (answer ≡ answer_to_use name.now s) × Stands self.new (used name.now s)) }
    {
        if name.len() > LONGEST_NAME {
            return Ok(Counted::Long);
        }
        match &mut self.counts {
            Some(counts) => {
                if let Some(count) = counts.get_mut(Name(name)) {
                    *count = count.saturating_add(1);
                    return Ok(Counted::Counted);
                }
                if counts.len() >= MOST_COUNTED {
                    return Ok(Counted::Full);
                }
                counts.insert(Key::new(Text::from_ascii(alloc, name)?), 1)?;
            }
            None => {
                let mut counts = IndexMap::new(alloc);
                counts.insert(Key::new(Text::from_ascii(alloc, name)?), 1)?;
                self.counts = Some(counts);
            }
        }
        Ok(Counted::Counted)
    }

    /// The names of the table that would be announced: those with the greatest counts, equal ones in the order in which they were
    /// counted first, at most 256.
    fn top(&self, alloc: Global) -> Result<Names, NoMemory>
        ensures { IfOk result (λ names. names ≡ first_ranked self.now.counts) }
    {
        match &self.counts {
            Some(counts) => top_names(alloc, counts),
            None => Ok(Names::new(alloc)),
        }
    }

    /// The number of the current table, and 0 where there is none.
    #[tactic(auto, using(crate::proofs::Histories::current_stands))]
    pub fn current_number(&self) -> u64
        ensures kept { result ≡ number_in self.now.current }
        ensures history { (s : State) → Stands self.now s → result ≡ s.story.confirmed }
    {
        match &self.current {
            Some(table) => table.number,
            None => 0,
        }
    }

    /// Whether these are the names of the current table, or none.
    #[tactic(auto, using(crate::proofs::Sameness::none_same))]
    fn is_nothing_new(&self, top: &Names) -> bool
        ensures { result ≡ is_nothing_new top.now (names_in self.now.current) }
    {
        if top.is_empty() {
            return true;
        }
        match &self.current {
            Some(table) => are_same(top, &table.names),
            None => false,
        }
    }

    /// What `advertise` answers where no table waits for its confirmation.
    fn answer_by(&self, top: &Names, settled: bool) -> Advertised
        ensures { result ≡ answer_by (number_in self.now.current) (names_in self.now.current) top.now settled }
    {
        if self.is_nothing_new(top) {
            return Advertised::Same;
        }
        let number = self.current_number();
        if number == LAST_NUMBER {
            return Advertised::Spent;
        }
        if number + 1 >= FIRST_AGAIN && !settled {
            return Advertised::Unsettled;
        }
        Advertised::New
    }

    /// Announces the top table with the next number, where no announced one waits for its confirmation, the top table has names and not
    /// those of the current one, there is a next number, and that is below 128 or the origin is `settled`. Without memory nothing
    /// changes.
    pub fn advertise(&mut self, alloc: Global, settled: bool) -> Result<Advertised, NoMemory>
        ensures answer { IfOk result (λ answer. answer ≡ advertising settled self.old) }
        ensures kept { OnOk result (self.new ≡ kept_advertised settled self.old) }
        ensures err { OnErr result (self.new ≡ self.old) }
        ensures history { (s : State) → Stands self.old s → IfOk result (λ answer. (answer ≡ answer_to_advertise settled s) × Stands self.new (advertised settled s)) }
    {
        if self.announced.is_some() {
            return Ok(Advertised::Again);
        }
        let names = self.top(alloc)?;
        let answer = self.answer_by(&names, settled);
        if answer != Advertised::New {
            return Ok(answer);
        }
        let number = self.current_number() + 1;
        self.announced = Some(Table {
            number,
            version: version_of(number),
            names,
        });
        Ok(Advertised::New)
    }

    /// The table that is announced and not confirmed. None exactly where there is none.
    pub fn announced(&self) -> Option<&Table>
        ensures kept { option_copied result ≡ self.now.announced }
        ensures history { (s : State) → Stands self.now s → option_copied result ≡ announced_in s.story }
    {
        self.announced.as_ref()
    }

    /// Makes the announced table the current one, where it has this number. NotAnnounced, with nothing changed, exactly where no table
    /// is announced that waits for its confirmation, or it has another number.
    pub fn confirm(&mut self, number: u64) -> Confirmed
        ensures answer { result ≡ confirming number self.old }
        ensures kept { self.new ≡ kept_confirmed number self.old }
        ensures history { (s : State) → Stands self.old s → (result ≡ answer_to_confirm number s) × Stands self.new (confirmed number s) }
    {
        match &self.announced {
            Some(table) if table.number == number => {}
            _ => return Confirmed::NotAnnounced,
        }
        self.third_older = self.second_older.take();
        self.second_older = self.first_older.take();
        self.first_older = self.current.take();
        self.current = self.announced.take();
        Confirmed::Confirmed
    }

    /// The kept table with a version.
    fn table(&self, version: u8) -> Option<&Table>
        ensures { option_copied result ≡ table_kept version self.now }
    {
        if let Some(table) = if_version(version, &self.announced) {
            return Some(table);
        }
        if let Some(table) = if_version(version, &self.current) {
            return Some(table);
        }
        if let Some(table) = if_version(version, &self.first_older) {
            return Some(table);
        }
        if let Some(table) = if_version(version, &self.second_older) {
            return Some(table);
        }
        if_version(version, &self.third_older)
    }

    /// The name at an index, counted from 0, of the known table with a version. Version 0 is the empty table.
    ///
    /// UnknownVersion exactly where no known table has the version; UnknownIndex exactly where the index is not below the number of the
    /// table's names.
    #[tactic(auto, using(crate::proofs::Stories::entry_named, crate::proofs::Stories::entry_past))]
    pub fn resolve(&self, version: u8, index: u16) -> Result<&Text, TableFault>
        ensures kept { Shows (λ name. name.now) result (entry_kept self.now version index) }
        ensures history { (s : State) → Stands self.now s → Shows (λ name. name.now) result (entry_of s.story version index) }
    {
        if version == 0 {
            return Err(TableFault::UnknownIndex {
                v: version,
                i: index,
            });
        }
        let Some(table) = self.table(version) else {
            return Err(TableFault::UnknownVersion { v: version });
        };
        match name_at(&table.names, index) {
            Some(name) => Ok(name),
            None => Err(TableFault::UnknownIndex {
                v: version,
                i: index,
            }),
        }
    }

    /// The number of the known table with a version, 0 for version 0. None exactly where no known table has it.
    pub fn number_of(&self, version: u8) -> Option<u64>
        ensures kept { result ≡ number_kept self.now version }
        ensures history { (s : State) → Stands self.now s → result ≡ number_of s.story version }
    {
        if version == 0 {
            return Some(0);
        }
        match self.table(version) {
            Some(table) => Some(table.number),
            None => None,
        }
    }
}
