//! A connection by one of its two ends: where the first one with these numbers stands.
ghost use Rattle.std.specs.Prelude.{◌≡◌, ◌<◌, Some, None, if◌then◌else◌, IsOk, OnOk};
ghost use Rattle.std.specs.Option.{option_or};
ghost use Rattle.std.specs.Map.{lookup};
ghost use Rattle.indexmap.specs.IndexMap.{spare};
ghost use Rattle.artery_connections.specs.declared.end.End.{End as EndValue};
ghost use Rattle.artery_connections.specs.Ends.{same_end, end_of};

use artery_base::NoMemory;
use indexmap::IndexMap;

/// An end of a connection: an incarnation's UID, and the number that the connection has there.
#[derive(Clone, Copy, Debug, PartialEq, Eq, Hash)]
pub struct End {
    pub uid: u64,
    pub number: u64,
}

/// The place that is noted for an end.
pub fn find(map: &IndexMap<End, usize>, uid: u64, number: u64) -> Option<usize>
    ensures { result ≡ lookup (same_end (end_of uid number)) map.now.entries }
{
    map.get(&End { uid, number }).copied()
}

/// Notes the place of an end, where none is noted for it. It wants memory only where the map has no room to spare.
pub fn note(map: &mut IndexMap<End, usize>, end: End, place: usize) -> Result<(), NoMemory>
    ensures places { OnOk result ((k : EndValue) → lookup (same_end k) map.new.entries ≡ option_or (lookup (same_end k) map.old.entries) (if same_end end k then Some place else None)) }
    ensures succeeds { 0 < spare map.old → IsOk result }
{
    if map.contains_key(&end) {
        return Ok(());
    }
    let _old = map.insert(end, place)?;
    Ok(())
}
