//! A map that is made with its first entry.
ghost use Rattle.std.specs.Prelude.{◌≡◌, OnOk, OnErr};
ghost use Rattle.indexmap.specs.IndexMap.{insert_entry};
ghost use Rattle.artery_watch.specs.Entries.{entries_in};

use artery_base::NoMemory;
use indexmap::IndexMap;
use std::alloc::Global;
use std::hash::Hash;

/// Inserts an entry. Without memory nothing changes.
pub fn insert<K: Eq + Hash + Drop, V: Drop>(
    alloc: Global,
    map: &mut Option<IndexMap<K, V>>,
    key: K,
    value: V,
) -> Result<(), NoMemory>
    ensures ok { OnOk result (entries_in map.new ≡ insert_entry K.eq (entries_in map.old) key value) }
    ensures err { OnErr result (entries_in map.new ≡ entries_in map.old) }
{
    match map {
        Some(map) => {
            let _old = map.insert(key, value)?;
        }
        None => {
            let mut first = IndexMap::new(alloc);
            let _old = first.insert(key, value)?;
            *map = Some(first);
        }
    }
    Ok(())
}
