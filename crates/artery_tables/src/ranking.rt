//! Names by their counts.
ghost use Rattle.std.specs.Prelude.{◌≡◌, map, IfOk};
ghost use Rattle.artery_tables.specs.Names.{same_names};
ghost use Rattle.artery_tables.specs.TopTable.{ranked, first_ranked};

use crate::name::{Key, copy_of};
use artery_base::{Names, NoMemory};
use indexmap::IndexMap;
use std::alloc::Global;

/// The most names of a table.
const MOST_IN_A_TABLE: usize = 256;

/// The names with their counts, the greatest first; equal ones in the order of the map.
#[tactic(auto, using(crate::proofs::Ranks::one_more))]
fn ranked_names(alloc: Global, counts: &IndexMap<Key, u32>) -> Result<Vec<(&Key, u32)>, NoMemory>
    ensures { IfOk result (λ names. map (λ e. (e.0.now, e.1)) names.items ≡ ranked counts.now.entries) }
{
    let mut names = Vec::new(alloc);
    for (name, count) in counts.iter() {
        names.push((name, *count))?;
    }
    names.sort_by(|named, other| other.1.cmp(&named.1))?;
    Ok(names)
}

/// A copy of the names.
#[tactic(auto, using(crate::proofs::Ranks::one_copy))]
fn copies_of(alloc: Global, ranked: &[(&Key, u32)]) -> Result<Names, NoMemory>
    ensures { IfOk result (λ names. names ≡ map (λ e. e.0.now) ranked.now) }
{
    let mut names = Names::new(alloc);
    for named in ranked {
        names.push(copy_of(named.0.text())?)?;
    }
    Ok(names)
}

/// The names of the greatest counts, at most 256. Equal counts are in the order of the map.
pub(crate) fn top_names(alloc: Global, counts: &IndexMap<Key, u32>) -> Result<Names, NoMemory>
    ensures { IfOk result (λ names. names ≡ first_ranked counts.now.entries) }
{
    let mut ranked = ranked_names(alloc, counts)?;
    ranked.truncate(MOST_IN_A_TABLE);
    let names = copies_of(alloc, &ranked)?;
    Ok(names)
}

/// Whether two lists of names are equal.
pub(crate) fn are_same(names: &Names, others: &Names) -> bool
    ensures { result ≡ same_names names.now others.now }
{
    names.as_slice() == others.as_slice()
}
