//! Sets of the places of connections.
ghost use Rattle.std.specs.Prelude.{◌≡◌, ℕ, true, false, ◌&&◌, cond, OnOk, OnErr};
ghost use Rattle.std.specs.BTreeMap.{is_at};
ghost use Rattle.std.specs.Ordering.{nat_cmp};
ghost use Rattle.artery_machine.specs.Connections.{is_loaded};
ghost use Rattle.artery_connections.specs.Change.{with_bytes};
ghost use Rattle.artery_connections.specs.Kept.{has, IsNextIn};

use crate::connection::Connection;
use artery_base::NoMemory;
use std::collections::BTreeSet;

/// The first place of a set from one on.
pub fn next_in(places: &BTreeSet<usize>, from: usize) -> Option<usize>
    ensures { IsNextIn places.now.keys from result }
{
    places.range(from..).next().copied()
}

/// Adds a place that is in neither of two sets to both. Without memory nothing changes.
pub fn add_to_both(
    near: &mut BTreeSet<usize>,
    far: &mut BTreeSet<usize>,
    place: usize,
) -> Result<(), NoMemory>
    requires near { has near.old.keys place ≡ false }
    ensures near { OnOk result ((k : ℕ) → has near.new.keys k ≡ cond (is_at (nat_cmp place) k) true (has near.old.keys k)) }
    ensures far { OnOk result ((k : ℕ) → has far.new.keys k ≡ cond (is_at (nat_cmp place) k) true (has far.old.keys k)) }
    ensures err { OnErr result (((k : ℕ) → has near.new.keys k ≡ has near.old.keys k) × ((k : ℕ) → has far.new.keys k ≡ has far.old.keys k)) }
{
    let _new = near.insert(place)?;
    let added = far.insert(place);
    if added.is_err() {
        let _there = near.remove(&place);
    }
    let _new = added?;
    Ok(())
}

/// Takes a place out of the set of those on which bytes are on their way, where none are on this connection any more.
pub fn unload(loaded: &mut BTreeSet<usize>, place: usize, connection: &Connection)
    ensures { (k : ℕ) → has loaded.new.keys k ≡ cond (is_at (nat_cmp place) k) (has loaded.old.keys place && is_loaded connection.now) (has loaded.old.keys k) }
{
    if !connection.is_loaded() {
        let _there = loaded.remove(&place);
    }
}

/// Writes bytes on the connection at a place, which is in the set after it exactly where bytes are on their way on it. Without memory
/// nothing changes.
pub fn write_on(
    loaded: &mut BTreeSet<usize>,
    place: usize,
    connection: &mut Connection,
    bytes: &[u8],
) -> Result<(), NoMemory>
    requires { has loaded.old.keys place ≡ is_loaded connection.old }
    ensures ok { OnOk result (connection.new ≡ with_bytes bytes.now connection.old) }
    ensures err { OnErr result (connection.new ≡ connection.old) }
    ensures loaded { (k : ℕ) → has loaded.new.keys k ≡ cond (is_at (nat_cmp place) k) (is_loaded connection.new) (has loaded.old.keys k) }
{
    if connection.gained(bytes) > 0 {
        let _new = loaded.insert(place)?;
    }
    let written = connection.write(bytes);
    unload(loaded, place, connection);
    written
}
