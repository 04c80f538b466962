//! The remote watches of one actor.
ghost use Rattle.std.specs.Prelude.{◌≡◌, ◌+◌, ◌<◌, ◌≤◌, ℕ, Option, Some, None, [], ◌∷◌, ◌++◌, is_some, length, drop, map, filter, slice_get, true, false, OnOk, OnErr, IfOk, IfSome};
ghost use Rattle.std.specs.BTreeMap.{insert_entry};
ghost use Rattle.std.specs.Map.{remove_entry};
ghost use Rattle.std.specs.Ordering.{nat_cmp};
ghost use Rattle.std.specs.Set.{remove_key};
ghost use Rattle.indexmap.specs.Layout.{set_value_at};
ghost use Rattle.artery_watch.specs.declared.remote.RemoteWatcher.{RemoteWatcher as RemoteWatcherValue};
ghost use Rattle.artery_watch.specs.Keys.{same_remote, same_origin, remote_of};
ghost use Rattle.artery_watch.specs.Standing.{in_order, standing, IsWithin, Rises, left, left_of, one_of, count, watchers_by, listed, by_place, IsRising};
ghost use Rattle.artery_watch.specs.Watcher.{is_among, not_from};

use crate::remote::{RemoteRef, RemoteWatcher};
use artery_base::{Names, NoMemory, Text, UniqueAddress};
use indexmap::IndexMap;
use std::alloc::Global;
use std::collections::BTreeMap;
use std::marker::Model;

/// The remote watches of one actor, in the order added.
///
/// Each has a place, and a number while it stands; how many stand is counted. One that is added gets the next number, so that the numbers
/// give the order. One that is removed keeps its place without a number, and gets a new number there where it is added again. All places
/// without a number are given up together, once they are more than half of all.
#[derive(Drop)]
pub struct Remotes {
    places: IndexMap<RemoteWatcher, Option<u64>>,
    stand: usize,
    added: u64,
}

impl Model for Remotes {
    ghost use Rattle.std.specs.Prelude.{◌≡◌, List, length};
    ghost use Rattle.artery_watch.specs.Standing.{in_order, standing, IsWithin};
    ghost use Rattle.artery_watch.specs.declared.remote.RemoteWatcher.{RemoteWatcher};

    ghost Value = { List RemoteWatcher };

    ghost view = { λ r. standing r.places.entries };

    ghost invariant = { λ r. (r.stand ≡ length (standing r.places.entries)) × IsWithin 0 r.added (in_order r.places.entries) };
}

/// Whether a remote watch stands.
#[tactic(auto, using(crate::proofs::Stood::stands_is, crate::proofs::Stood::none_stands))]
fn stands(
    places: &IndexMap<RemoteWatcher, Option<u64>>,
    watcher: &Text,
    origin: &UniqueAddress,
) -> bool
    ensures { result ≡ is_among (remote_of watcher.now origin.now) (standing places.now.entries) }
{
    // The length is what says that the keys differ.
    let _len = places.len();
    match places.get(RemoteRef { watcher, origin }) {
        Some(number) => number.is_some(),
        None => false,
    }
}

/// Gives up the places of those that do not stand, once they are more than half of all.
#[tactic(auto, using(crate::proofs::Stood::kept_after))]
fn tidy(places: &mut IndexMap<RemoteWatcher, Option<u64>>, stand: usize)
    ensures { in_order places.new.entries ≡ in_order places.old.entries }
{
    if places.len().saturating_sub(stand) > places.len() / 2 {
        keep_standing(places);
    }
}

/// Keeps the places of those that stand.
fn keep_standing(places: &mut IndexMap<RemoteWatcher, Option<u64>>)
    ensures { places.new.entries ≡ filter (λ place. is_some place.1) places.old.entries }
{
    places.retain(
        |_remote: &RemoteWatcher, number: &mut Option<u64>| -> bool
            ensures { (result ≡ is_some number.old) × (number.new ≡ number.old) }
        { number.is_some() },
    );
}

/// Whether two origins are the same. Their UIDs, which tell most apart, are compared first.
#[tactic(auto, using(crate::proofs::Leaving::both_ways))]
fn is_same(a: &UniqueAddress, b: &UniqueAddress) -> bool
    ensures { result ≡ same_origin a.now b.now }
{
    a.uid == b.uid && a.address == b.address
}

/// Forgets an origin at one place, and counts one where a remote watch stands there then.
fn leave_at(
    places: &mut IndexMap<RemoteWatcher, Option<u64>>,
    at: usize,
    origin: &UniqueAddress,
) -> usize
    requires { at < length places.old.entries }
    ensures place { (place : RemoteWatcherValue × Option ℕ) → slice_get places.old.entries at ≡ Some place → places.new.entries ≡ set_value_at places.old.entries at (left origin.now place) }
    ensures count { (place : RemoteWatcherValue × Option ℕ) → slice_get places.old.entries at ≡ Some place → result ≡ one_of (left origin.now place) }
{
    let (remote, number) = places.pair_mut(at);
    if is_same(origin, &remote.origin) {
        *number = None;
    }
    number.is_some() as usize
}

/// Forgets an origin at each place, and counts those that stand then.
fn leave(places: &mut IndexMap<RemoteWatcher, Option<u64>>, origin: &UniqueAddress) -> usize
    ensures places { places.new.entries ≡ left_of origin.now places.old.entries }
    ensures count { result ≡ count places.new.entries }
{
    let mut standing = 0;
    for at in 0..places.len() {
        standing += leave_at(places, at, origin);
    }
    standing
}

/// Makes a remote watch that does not stand the last that does, with this number. Without memory nothing changes.
#[tactic(auto, using(crate::proofs::Stood::risen_last, crate::proofs::Stood::last_stands))]
fn rise(
    alloc: Global,
    places: &mut IndexMap<RemoteWatcher, Option<u64>>,
    watcher: &Text,
    origin: &UniqueAddress,
    number: u64,
) -> Result<(), NoMemory>
    requires fallen { is_among (remote_of watcher.now origin.now) (standing places.old.entries) ≡ false }
    requires below { IsWithin 0 number (in_order places.old.entries) }
    ensures ok { OnOk result (in_order places.new.entries ≡ in_order places.old.entries ++ (remote_of watcher.now origin.now, number) ∷ []) }
    ensures err { OnErr result (in_order places.new.entries ≡ in_order places.old.entries) }
{
    if let Some(place) = places.get_mut(RemoteRef { watcher, origin }) {
        *place = Some(number);
        return Ok(());
    }
    let remote = RemoteRef { watcher, origin }.copy(alloc)?;
    let _old = places.insert(remote, Some(number))?;
    Ok(())
}

/// Makes a remote watch stand no longer, and answers whether it stood.
#[tactic(auto, using(crate::proofs::Stood::stands_is, crate::proofs::Stood::none_stands, crate::proofs::Stood::fallen, crate::proofs::Stood::none_falls))]
fn fell(
    places: &mut IndexMap<RemoteWatcher, Option<u64>>,
    watcher: &Text,
    origin: &UniqueAddress,
) -> bool
    requires { Rises (in_order places.old.entries) }
    ensures answer { result ≡ is_among (remote_of watcher.now origin.now) (standing places.old.entries) }
    ensures rest { in_order places.new.entries ≡ remove_entry (same_remote (remote_of watcher.now origin.now)) (in_order places.old.entries) }
{
    let Some(number) = places.get_mut(RemoteRef { watcher, origin }) else {
        return false;
    };
    let stood = number.is_some();
    *number = None;
    stood
}

/// Puts a watcher among others by its number.
fn put(found: &mut BTreeMap<u64, Text>, number: u64, watcher: &Text) -> Result<(), NoMemory>
    ensures { OnOk result (found.new.entries ≡ insert_entry nat_cmp found.old.entries number watcher.now) }
{
    let _old = found.insert(number, watcher.clone()?)?;
    Ok(())
}

/// Puts the watcher at one place, if it stands there, among those at the places behind it.
fn put_at(
    found: &mut BTreeMap<u64, Text>,
    places: &IndexMap<RemoteWatcher, Option<u64>>,
    at: usize,
) -> Result<(), NoMemory>
    requires rises { Rises (in_order places.now.entries) }
    requires behind { found.old.entries ≡ watchers_by (in_order (drop (at + 1) places.now.entries)) }
    ensures { OnOk result (found.new.entries ≡ watchers_by (in_order (drop at places.now.entries))) }
{
    let Some((remote, number)) = places.get_index(at) else {
        return Err(NoMemory);
    };
    let Some(number) = number else {
        return Ok(());
    };
    put(found, *number, &remote.watcher)?;
    Ok(())
}

/// The watchers by their numbers.
#[tactic(auto, using(crate::proofs::Sorting::none_behind))]
fn by_number(
    alloc: Global,
    places: &IndexMap<RemoteWatcher, Option<u64>>,
) -> Result<BTreeMap<u64, Text>, NoMemory>
    requires { Rises (in_order places.now.entries) }
    ensures { IfOk result (λ found. found.entries ≡ watchers_by (in_order places.now.entries)) }
{
    let mut found = BTreeMap::new(alloc);
    let mut at = places.len();
    while at > 0 {
        at -= 1;
        put_at(&mut found, places, at)?;
    }
    Ok(found)
}

/// The watchers in the order of their numbers.
fn sorted_watchers(
    alloc: Global,
    places: &IndexMap<RemoteWatcher, Option<u64>>,
) -> Result<Names, NoMemory>
    requires { Rises (in_order places.now.entries) }
    ensures { IfOk result (λ names. names ≡ map (λ remote. remote.watcher) (standing places.now.entries)) }
{
    let mut names = Names::new(alloc);
    for (_number, watcher) in by_number(alloc, places)? {
        names.push(watcher)?;
    }
    Ok(names)
}

/// The lowest number from one place on, where the numbers rise from there on; behind it they do, and none is below `low`.
fn lowest_from(places: &IndexMap<RemoteWatcher, Option<u64>>, at: usize, low: u64) -> Option<u64>
    requires { IsRising low (drop (at + 1) places.now.entries) }
    ensures { IfSome result (λ low. IsRising low (drop at places.now.entries)) }
{
    let Some((_remote, number)) = places.get_index(at) else {
        return None;
    };
    let Some(number) = number else {
        return Some(low);
    };
    if *number >= low {
        return None;
    }
    Some(*number)
}

/// Whether the numbers rise from place to place.
#[tactic(auto, using(crate::proofs::Rising::rising_end, crate::proofs::Rising::rising_all))]
fn are_in_order(places: &IndexMap<RemoteWatcher, Option<u64>>) -> bool
    ensures { result ≡ true → in_order places.now.entries ≡ listed places.now.entries }
{
    let mut low = u64::MAX;
    let mut at = places.len();
    while at > 0 {
        at -= 1;
        let Some(next) = lowest_from(places, at, low) else {
            return false;
        };
        low = next;
    }
    true
}

/// Adds the watcher of a remote watch at the end.
fn push_watcher(names: &mut Names, remote: &RemoteWatcher) -> Result<(), NoMemory>
    ensures { OnOk result (names.new ≡ names.old ++ remote.now.watcher ∷ []) }
{
    names.push(remote.watcher.clone()?)
}

/// The watchers in the order of their places.
fn placed_watchers(
    alloc: Global,
    places: &IndexMap<RemoteWatcher, Option<u64>>,
) -> Result<Names, NoMemory>
    ensures { IfOk result (λ names. names ≡ map (λ remote. remote.watcher) (by_place places.now.entries)) }
{
    let mut names = Names::new(alloc);
    for (remote, number) in places.iter() {
        if number.is_some() {
            push_watcher(&mut names, remote)?;
        }
    }
    Ok(names)
}

/// The watchers, one for each remote watch that stands: sorted by their numbers, unless these rise from place to place, as they do where none
/// was added again, or all in turn.
#[tactic(auto, using(crate::proofs::Rising::by_place_is))]
fn watchers_in(
    alloc: Global,
    places: &IndexMap<RemoteWatcher, Option<u64>>,
) -> Result<Names, NoMemory>
    requires { Rises (in_order places.now.entries) }
    ensures { IfOk result (λ names. names ≡ map (λ remote. remote.watcher) (standing places.now.entries)) }
{
    if are_in_order(places) {
        let names = placed_watchers(alloc, places)?;
        return Ok(names);
    }
    let names = sorted_watchers(alloc, places)?;
    Ok(names)
}

impl Remotes {
    /// No remote watch. Takes no memory.
    pub fn new(alloc: Global) -> Remotes
        ensures { result ≡ [] }
    {
        Remotes {
            places: IndexMap::new(alloc),
            stand: 0,
            added: 0,
        }
    }

    /// How many there are.
    pub fn len(&self) -> usize
        ensures { result ≡ length self.now }
    {
        self.stand
    }

    /// Whether this one is among them.
    pub fn contains(&self, watcher: &Text, origin: &UniqueAddress) -> bool
        ensures { result ≡ is_among (remote_of watcher.now origin.now) self.now }
    {
        stands(&self.places, watcher, origin)
    }

    /// Adds a new one as the last. Without memory nothing changes, nor where so many were added that no number below 2^64 is left.
    #[tactic(auto, using(crate::proofs::Stood::few_fit, crate::proofs::Stood::stand_after, crate::proofs::Stood::stand_same, crate::proofs::Stood::rises_same))]
    pub fn add(
        &mut self,
        alloc: Global,
        watcher: &Text,
        origin: &UniqueAddress,
    ) -> Result<(), NoMemory>
        requires { is_among (remote_of watcher.now origin.now) self.old ≡ false }
        ensures ok { OnOk result (self.new ≡ self.old ++ remote_of watcher.now origin.now ∷ []) }
        ensures err { OnErr result (self.new ≡ self.old) }
    {
        // The length is what says that one more can be counted.
        let _len = self.places.len();
        let Some(next) = self.added.checked_add(1) else {
            return Err(NoMemory);
        };
        rise(alloc, &mut self.places, watcher, origin, self.added)?;
        self.added = next;
        self.stand += 1;
        Ok(())
    }

    /// Removes one, and answers whether it was there.
    #[tactic(auto, using(crate::proofs::Stood::rises, crate::proofs::Stood::stand_without, crate::proofs::Stood::stand_same, crate::proofs::Stood::one_less))]
    pub fn remove(&mut self, watcher: &Text, origin: &UniqueAddress) -> bool
        ensures answer { result ≡ is_among (remote_of watcher.now origin.now) self.old }
        ensures rest { self.new ≡ remove_key (same_remote (remote_of watcher.now origin.now)) self.old }
    {
        if !fell(&mut self.places, watcher, origin) {
            return false;
        }
        self.stand -= 1;
        tidy(&mut self.places, self.stand);
        true
    }

    /// Removes those from this origin.
    #[tactic(auto, using(crate::proofs::Stood::rises, crate::proofs::Stood::others_left, crate::proofs::Stood::rises_left, crate::proofs::Stood::count_stands, crate::proofs::Stood::rises_same))]
    pub fn forget(&mut self, origin: &UniqueAddress)
        ensures { self.new ≡ not_from origin.now self.old }
    {
        self.stand = leave(&mut self.places, origin);
        tidy(&mut self.places, self.stand);
    }

    /// The watchers, one for each remote watch.
    #[tactic(auto, using(crate::proofs::Stood::rises))]
    pub fn watchers(&self, alloc: Global) -> Result<Names, NoMemory>
        ensures { IfOk result (λ names. names ≡ map (λ remote. remote.watcher) self.now) }
    {
        watchers_in(alloc, &self.places)
    }
}
