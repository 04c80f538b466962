use crate::{
    Adopted, Advertised, Confirmed, Counted, InTables, OutTable, TableFault, adopting_stands,
    keeping_stands, known_numbers_are_found,
};
use artery_base::{Names, NoMemory, Text, Values};
use std::alloc::Global;
use std::test::*;

// Calls with no contract of their own, so that a test's proof does not follow what is kept. Each answers whether all went as said.

/// The name with a number: `n` and four digits.
fn name_of(number: usize) -> [u8; 5] {
    let digit = |power: usize| b'0' + (number / power % 10) as u8;
    [b'n', digit(1_000), digit(100), digit(10), digit(1)]
}

/// Counts a name, with this answer.
fn counts(alloc: Global, tables: &mut InTables, name: &[u8], want: Counted) -> bool {
    if name.is_empty() || !name.is_ascii() {
        return false;
    }
    match tables.count(alloc, name) {
        Ok(answer) => answer == want,
        Err(NoMemory) => false,
    }
}

/// Counts each letter as a name.
fn counts_letters(alloc: Global, tables: &mut InTables, letters: &[u8]) -> bool {
    for letter in letters {
        if !counts(alloc, tables, &[*letter], Counted::Counted) {
            return false;
        }
    }
    true
}

/// Counts each name with a number below this.
fn counts_below(alloc: Global, tables: &mut InTables, end: usize) -> bool {
    for number in 0..end {
        if !counts(alloc, tables, &name_of(number), Counted::Counted) {
            return false;
        }
    }
    true
}

/// Counts a name of this many bytes, with this answer.
fn counts_long(alloc: Global, tables: &mut InTables, len: usize, want: Counted) -> bool {
    let mut name = Vec::new(alloc);
    for _ in 0..len {
        if name.push(b'a').is_err() {
            return false;
        }
    }
    counts(alloc, tables, &name, want)
}

fn advertises(alloc: Global, tables: &mut InTables, settled: bool, want: Advertised) -> bool {
    match tables.advertise(alloc, settled) {
        Ok(answer) => answer == want,
        Err(NoMemory) => false,
    }
}

/// Whether a table of this number, version and length waits for its confirmation.
fn is_announced(tables: &InTables, number: u64, version: u8, len: usize) -> bool {
    match tables.announced() {
        Some(table) => {
            table.number == number && table.version == version && table.names.len() == len
        }
        None => false,
    }
}

/// Announces a table of this number, version and length, and no second one.
fn announces(alloc: Global, tables: &mut InTables, number: u64, version: u8, len: usize) -> bool {
    let new = advertises(alloc, tables, true, Advertised::New);
    let again = advertises(alloc, tables, true, Advertised::Again);
    new && again && is_announced(tables, number, version, len)
}

/// Confirms a number once, after others that are refused.
fn confirms_only(tables: &mut InTables, number: u64, others: &[u64]) -> bool {
    for other in others {
        if tables.confirm(*other) != Confirmed::NotAnnounced {
            return false;
        }
    }
    let first = tables.confirm(number);
    let second = tables.confirm(number);
    first == Confirmed::Confirmed
        && second == Confirmed::NotAnnounced
        && tables.announced().is_none()
}

/// Announces a table and confirms it, and so on up to this number, each with one name more than the one before.
fn confirms_up_to(alloc: Global, tables: &mut InTables, last: u64) -> bool {
    for number in 1..=last {
        let name = name_of(number as usize);
        let counted = counts(alloc, tables, &name, Counted::Counted);
        let announced = advertises(alloc, tables, false, Advertised::New);
        if !(counted && announced && confirms_only(tables, number, &[])) {
            return false;
        }
    }
    true
}

fn resolves(tables: &InTables, version: u8, index: u16, want: &[u8]) -> bool {
    match tables.resolve(version, index) {
        Ok(name) => name.as_slice() == want,
        Err(_fault) => false,
    }
}

/// Whether the table with the version begins with these letters as names.
fn has_letters(tables: &InTables, version: u8, letters: &[u8]) -> bool {
    let mut index = 0u16;
    for letter in letters {
        if !resolves(tables, version, index, &[*letter]) {
            return false;
        }
        index = index.saturating_add(1);
    }
    true
}

fn has_number(tables: &InTables, version: u8, want: u64) -> bool {
    tables.number_of(version) == Some(want)
}

fn is_unknown_version(tables: &InTables, version: u8) -> bool {
    let want = TableFault::UnknownVersion { v: version };
    tables.number_of(version).is_none()
        && matches!(tables.resolve(version, 0), Err(fault) if fault == want)
}

fn is_unknown_index(tables: &InTables, version: u8, index: u16) -> bool {
    let want = TableFault::UnknownIndex {
        v: version,
        i: index,
    };
    matches!(tables.resolve(version, index), Err(fault) if fault == want)
}

/// Whether so many versions other than 0 are known.
fn knows(tables: &InTables, want: usize) -> bool {
    let mut known = 0usize;
    for version in 1..=255u8 {
        if tables.number_of(version).is_some() {
            known = known.saturating_add(1);
        }
    }
    known == want
}

/// These letters as keys.
fn keys_of(alloc: Global, letters: &[u8]) -> Result<Names, NoMemory> {
    let mut keys = Names::new(alloc);
    for letter in letters {
        let key = [*letter];
        if key.is_ascii() {
            keys.push(Text::from_ascii(alloc, &key)?)?;
        }
    }
    Ok(keys)
}

/// The values from `first` on, so many.
fn values_of(alloc: Global, first: u16, len: usize) -> Result<Values, NoMemory> {
    let mut values = Values::new(alloc);
    let mut value = first;
    for _ in 0..len {
        values.push(value)?;
        value = value.saturating_add(1);
    }
    Ok(values)
}

/// Brings a table with this number, these letters as keys and the values from `first` on.
fn adopt(
    alloc: Global,
    table: &mut OutTable,
    number: u64,
    letters: &[u8],
    first: u16,
) -> Result<Adopted, NoMemory> {
    let keys = keys_of(alloc, letters)?;
    let values = values_of(alloc, first, letters.len())?;
    if keys.len() != values.len() {
        return Err(NoMemory);
    }
    table.adopt(alloc, number, keys, values)
}

fn adopts(
    alloc: Global,
    table: &mut OutTable,
    number: u64,
    letters: &[u8],
    first: u16,
    want: Adopted,
) -> bool {
    match adopt(alloc, table, number, letters, first) {
        Ok(answer) => answer == want,
        Err(NoMemory) => false,
    }
}

fn holds(table: &OutTable, number: u64, version: u8) -> bool {
    table.number() == number && table.version() == version
}

/// Whether `a`, `b` and `c` have these indices.
fn has_indices(table: &OutTable, a: Option<u16>, b: Option<u16>, c: Option<u16>) -> bool {
    table.index_of(b"a") == a && table.index_of(b"b") == b && table.index_of(b"c") == c
}

fn laws() {
    keeping_stands();
    adopting_stands();
    known_numbers_are_found();
}

#[test]
fn the_more_frequent_stand_first_and_then_the_first_used(rt: HostRuntime) {
    let alloc = rt.alloc();
    let mut tables = InTables::new();
    assert!(rt; advertises(alloc, &mut tables, true, Advertised::Same));
    assert!(rt; counts_letters(alloc, &mut tables, b"bacc"));
    assert!(rt; announces(alloc, &mut tables, 1, 1, 3));
    assert!(rt; has_letters(&tables, 1, b"cba"));
    assert!(rt; confirms_only(&mut tables, 1, &[0, 2, 128]));
    assert!(rt; advertises(alloc, &mut tables, true, Advertised::Same));
    assert!(rt; counts_letters(alloc, &mut tables, b"a"));
    assert!(rt; announces(alloc, &mut tables, 2, 2, 3));
    assert!(rt; has_letters(&tables, 2, b"acb") && has_letters(&tables, 1, b"cba"));
}

#[test]
fn a_table_has_the_first_256_names(rt: HostRuntime) {
    let alloc = rt.alloc();
    let mut tables = InTables::new();
    assert!(rt; counts_below(alloc, &mut tables, 300));
    assert!(rt; counts(alloc, &mut tables, b"n0299", Counted::Counted));
    assert!(rt; announces(alloc, &mut tables, 1, 1, 256));
    assert!(rt; confirms_only(&mut tables, 1, &[]));
    assert!(rt; resolves(&tables, 1, 0, b"n0299") && resolves(&tables, 1, 1, b"n0000"));
    assert!(rt; resolves(&tables, 1, 255, b"n0254") && is_unknown_index(&tables, 1, 256));
    assert!(rt; is_unknown_index(&tables, 0, 0) && is_unknown_version(&tables, 2));
    laws();
}

#[test]
fn at_most_1_024_names_are_counted(rt: HostRuntime) {
    let alloc = rt.alloc();
    let mut tables = InTables::new();
    assert!(rt; counts_long(alloc, &mut tables, 257, Counted::Long));
    assert!(rt; counts_long(alloc, &mut tables, 256, Counted::Counted));
    assert!(rt; counts_below(alloc, &mut tables, 1_023));
    assert!(rt; counts(alloc, &mut tables, b"n1023", Counted::Full));
    assert!(rt; counts(alloc, &mut tables, b"n1022", Counted::Counted));
    assert!(rt; counts_long(alloc, &mut tables, 257, Counted::Long));
}

#[test]
fn versions_go_round_after_127(rt: HostRuntime) {
    let alloc = rt.alloc();
    let mut tables = InTables::new();
    assert!(rt; confirms_up_to(alloc, &mut tables, 127));
    assert!(rt; advertises(alloc, &mut tables, false, Advertised::Same));
    assert!(rt; counts(alloc, &mut tables, b"last", Counted::Counted));
    assert!(rt; advertises(alloc, &mut tables, false, Advertised::Unsettled));
    assert!(rt; announces(alloc, &mut tables, 128, 1, 128));
    assert!(rt; has_number(&tables, 0, 0) && has_number(&tables, 1, 128) && knows(&tables, 5));
    assert!(rt; resolves(&tables, 1, 127, b"last") && resolves(&tables, 124, 123, b"n0124"));
    assert!(rt; is_unknown_version(&tables, 5) && is_unknown_version(&tables, 128));
    assert!(rt; confirms_only(&mut tables, 128, &[1, 127, 129]));
    assert!(rt; is_unknown_version(&tables, 124) && knows(&tables, 4));
}

#[test]
fn a_higher_number_is_adopted(rt: HostRuntime) {
    let alloc = rt.alloc();
    let mut table = OutTable::new();
    assert!(rt; holds(&table, 0, 0) && has_indices(&table, None, None, None));
    assert!(rt; adopts(alloc, &mut table, 0, b"a", 1, Adopted::Same));
    assert!(rt; adopts(alloc, &mut table, 127, b"aba", 3, Adopted::Adopted));
    assert!(rt; holds(&table, 127, 127) && has_indices(&table, Some(5), Some(4), None));
    assert!(rt; adopts(alloc, &mut table, 127, b"c", 1, Adopted::Same));
    assert!(rt; adopts(alloc, &mut table, 126, b"c", 1, Adopted::Older));
    assert!(rt; holds(&table, 127, 127) && has_indices(&table, Some(5), Some(4), None));
    assert!(rt; adopts(alloc, &mut table, 128, b"c", 1, Adopted::Adopted));
    assert!(rt; holds(&table, 128, 1) && has_indices(&table, None, None, Some(1)));
}
