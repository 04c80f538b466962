use crate::{
    Notice, NoticeFault, RemoteWatch, Spawn, Stop, Unwatch, Watch, Watcher, is_at, read_notice,
    write_notice,
};
use artery_base::{Address, Bytes, NoMemory, Text, UniqueAddress};
use artery_text::text_of;
use std::alloc::Global;
use std::test::*;

// The calls with no contract of their own, so that a test's proof does not follow what is kept.

fn spelled(alloc: Global, bytes: &[u8]) -> Result<Text, NoMemory> {
    match text_of(alloc, bytes) {
        Ok(text) => Ok(text),
        Err(_fault) => Err(NoMemory),
    }
}

fn text(alloc: Global, word: &str) -> Result<Text, NoMemory> {
    spelled(alloc, word.as_bytes())
}

/// The address `akka://SYSTEM@h:1`.
fn address(alloc: Global, system: &str) -> Result<Address, NoMemory> {
    Ok(Address {
        protocol: text(alloc, "akka")?,
        system: text(alloc, system)?,
        host: text(alloc, "h")?,
        port: 1,
    })
}

fn origin(alloc: Global, uid: u64) -> Result<UniqueAddress, NoMemory> {
    let address = address(alloc, "O")?;
    Ok(UniqueAddress { address, uid })
}

/// Whether watching this one by `w` is answered so.
fn watches(alloc: Global, all: &mut Watcher, watchee: &str, want: Watch) -> Result<bool, NoMemory> {
    let watcher = text(alloc, "w")?;
    let watchee = text(alloc, watchee)?;
    Ok(all.watch(alloc, &watcher, &watchee)? == want)
}

/// Whether it would be answered so.
fn would_watch(alloc: Global, all: &Watcher, watchee: &str, want: Watch) -> Result<bool, NoMemory> {
    let watcher = text(alloc, "w")?;
    let watchee = text(alloc, watchee)?;
    Ok(all.would_watch(&watcher, &watchee) == want)
}

/// Whether unwatching this one by `w` is answered so.
fn unwatches(
    alloc: Global,
    all: &mut Watcher,
    watchee: &str,
    want: Unwatch,
) -> Result<bool, NoMemory> {
    let watcher = text(alloc, "w")?;
    let watchee = text(alloc, watchee)?;
    Ok(all.unwatch(&watcher, &watchee) == want)
}

/// Whether the notice that this one, which `w` watches, has ended is answered so.
fn hears_of_end(
    alloc: Global,
    all: &mut Watcher,
    watchee: &str,
    want: Option<u64>,
) -> Result<bool, NoMemory> {
    let watcher = text(alloc, "w")?;
    let watchee = text(alloc, watchee)?;
    Ok(all.on_notice(&watcher, &watchee) == want)
}

/// Whether closing the address gives exactly these ids, in this order.
fn closes(alloc: Global, all: &mut Watcher, system: &str, want: &[u64]) -> Result<bool, NoMemory> {
    let ids = all.on_address_closed(alloc, &address(alloc, system)?)?;
    Ok(ids.as_slice() == want)
}

fn watches_at(alloc: Global, all: &Watcher, system: &str) -> Result<u64, NoMemory> {
    Ok(all.watches_at(&address(alloc, system)?))
}

/// Whether spawning this actor is answered so.
fn spawns(alloc: Global, all: &mut Watcher, path: &str, want: Spawn) -> Result<bool, NoMemory> {
    let path = text(alloc, path)?;
    Ok(all.spawn(alloc, &path)? == want)
}

/// Whether a remote watch of this actor by this watcher, from the origin with this UID, is answered so.
fn remote_watches(
    alloc: Global,
    all: &mut Watcher,
    path: &str,
    watcher: &str,
    uid: u64,
    want: RemoteWatch,
) -> Result<bool, NoMemory> {
    let path = text(alloc, path)?;
    let watcher = text(alloc, watcher)?;
    let from = origin(alloc, uid)?;
    Ok(all.remote_watch(alloc, &path, &watcher, &from)? == want)
}

/// Whether a remote watch is added.
fn adds(
    alloc: Global,
    all: &mut Watcher,
    path: &str,
    watcher: &str,
    uid: u64,
) -> Result<bool, NoMemory> {
    remote_watches(alloc, all, path, watcher, uid, RemoteWatch::Added)
}

/// Whether a remote watch stood, which is removed.
fn removes(
    alloc: Global,
    all: &mut Watcher,
    path: &str,
    watcher: &str,
    uid: u64,
) -> Result<bool, NoMemory> {
    let path = text(alloc, path)?;
    let watcher = text(alloc, watcher)?;
    let from = origin(alloc, uid)?;
    Ok(all.remote_unwatch(&path, &watcher, &from))
}

/// The watchers that stopping the actor gives, each with a space behind it; `!` where it is not there.
fn stop(alloc: Global, all: &mut Watcher, path: &str) -> Result<Bytes, NoMemory> {
    let mut out = Bytes::new(alloc);
    match all.stop(alloc, &text(alloc, path)?)? {
        Stop::Stopped { watchers } => {
            for watcher in watchers.as_slice() {
                out.extend_from_slice(watcher.as_slice())?;
                out.push(b' ')?;
            }
        }
        Stop::NotThere => out.push(b'!')?,
    }
    Ok(out)
}

/// Whether stopping the actor gives these watchers.
fn stops(alloc: Global, all: &mut Watcher, path: &str, want: &str) -> Result<bool, NoMemory> {
    Ok(stop(alloc, all, path)?.as_slice() == want.as_bytes())
}

/// A name of three bytes.
fn name(alloc: Global, number: u32) -> Result<Text, NoMemory> {
    let bytes = [
        48 + (number % 64) as u8,
        48 + (number / 64 % 64) as u8,
        48 + (number / 4_096 % 64) as u8,
    ];
    spelled(alloc, &bytes)
}

/// Watches from `first` up to `last` by `w`, and answers the last answer.
fn watch_many(alloc: Global, all: &mut Watcher, first: u32, last: u32) -> Result<Watch, NoMemory> {
    let watcher = text(alloc, "w")?;
    let mut answer = Watch::Full;
    for number in first..=last {
        answer = all.watch(alloc, &watcher, &name(alloc, number)?)?;
    }
    Ok(answer)
}

/// Adds remote watches of an actor from `first` up to `last`, and answers how many were added.
fn watch_many_from(
    alloc: Global,
    all: &mut Watcher,
    first: u32,
    last: u32,
) -> Result<u32, NoMemory> {
    let path = text(alloc, "/x")?;
    let from = origin(alloc, 1)?;
    let mut added = 0_u32;
    for number in first..=last {
        let watcher = name(alloc, number)?;
        if all.remote_watch(alloc, &path, &watcher, &from)? == RemoteWatch::Added {
            added = added.wrapping_add(1);
        }
    }
    Ok(added)
}

/// Whether one is watched by the id 1, and would be so.
fn first_id_is_given(alloc: Global, all: &mut Watcher) -> Result<bool, NoMemory> {
    Ok(
        would_watch(alloc, all, "x", Watch::Watching { id: 1 })?
            && watches(alloc, all, "x", Watch::Watching { id: 1 })?
            && watches(alloc, all, "x", Watch::Already { id: 1 })?
            && would_watch(alloc, all, "x", Watch::Already { id: 1 })?,
    )
}

/// Whether that id ends once, and the next one is given.
fn first_id_ends(alloc: Global, all: &mut Watcher) -> Result<bool, NoMemory> {
    Ok(
        hears_of_end(alloc, all, "x", Some(1))?
            && hears_of_end(alloc, all, "x", None)?
            && watches(alloc, all, "x", Watch::Watching { id: 2 })?,
    )
}

/// Whether the next one ends once.
fn second_id_ends(alloc: Global, all: &mut Watcher) -> Result<bool, NoMemory> {
    Ok(
        unwatches(alloc, all, "x", Unwatch::Unwatched { id: 2 })?
            && unwatches(alloc, all, "x", Unwatch::NotWatched)?
            && hears_of_end(alloc, all, "x", None)?,
    )
}

fn ids_are_given_once(alloc: Global) -> Result<bool, NoMemory> {
    let mut all = Watcher::new();
    Ok(
        first_id_is_given(alloc, &mut all)?
            && first_id_ends(alloc, &mut all)?
            && second_id_ends(alloc, &mut all)?,
    )
}

#[test]
fn an_id_is_given_once_and_ends_once(rt: HostRuntime) -> Result<(), Fail> {
    assert!(rt; ids_are_given_once(rt.alloc())?);
    Ok(())
}

fn watches_three(alloc: Global, all: &mut Watcher) -> Result<bool, NoMemory> {
    Ok(
        watches(alloc, all, "akka://B@h:1/x", Watch::Watching { id: 1 })?
            && watches(alloc, all, "akka://C@h:1/x", Watch::Watching { id: 2 })?
            && watches(alloc, all, "akka://B@h:1/y", Watch::Watching { id: 3 })?,
    )
}

/// Whether three more are watched, and the first one is unwatched.
fn watches_six(alloc: Global, all: &mut Watcher) -> Result<bool, NoMemory> {
    Ok(
        watches(alloc, all, "akka://B@h:10/x", Watch::Watching { id: 4 })?
            && watches(alloc, all, "akka://B@h:1/%", Watch::Watching { id: 5 })?
            && watches(alloc, all, "akka://B@h:1/z", Watch::Watching { id: 6 })?
            && unwatches(alloc, all, "akka://B@h:1/x", Unwatch::Unwatched { id: 1 })?,
    )
}

/// Whether the address has two watches, which end with it.
fn closes_two(alloc: Global, all: &mut Watcher) -> Result<bool, NoMemory> {
    Ok(
        watches_at(alloc, all, "B")? == 2
            && closes(alloc, all, "B", &[3, 6])?
            && watches_at(alloc, all, "B")? == 0,
    )
}

/// Whether the others are watched still.
fn keeps_the_others(alloc: Global, all: &mut Watcher) -> Result<bool, NoMemory> {
    Ok(
        hears_of_end(alloc, all, "akka://C@h:1/x", Some(2))?
            && hears_of_end(alloc, all, "akka://B@h:10/x", Some(4))?
            && hears_of_end(alloc, all, "akka://B@h:1/%", Some(5))?
            && hears_of_end(alloc, all, "akka://B@h:1/z", None)?,
    )
}

fn an_address_is_closed(alloc: Global) -> Result<bool, NoMemory> {
    let mut all = Watcher::new();
    Ok(
        watches_three(alloc, &mut all)?
            && watches_six(alloc, &mut all)?
            && closes_two(alloc, &mut all)?
            && keeps_the_others(alloc, &mut all)?,
    )
}

/// Whether the word is at the address.
fn is_there(place: &Address, word: &str) -> bool {
    is_at(place, word.as_bytes())
}

fn paths_are_there(place: &Address) -> bool {
    is_there(place, "akka://B@h:1/x")
        && is_there(place, "akka://B@h:1/~")
        && is_there(place, "akka://B@h:1//")
}

fn others_are_not(place: &Address) -> bool {
    !is_there(place, "akka://B@h:1/")
        && !is_there(place, "akka://B@h:1")
        && !is_there(place, "akka://B@h:1x")
        && !is_there(place, "akka://B@h:1/a b")
}

fn nor_are_these(place: &Address) -> bool {
    !is_there(place, "akka://B@h:1/%41")
        && !is_there(place, "akka://B@h:11/x")
        && !is_there(place, "akka://b@h:1/x")
        && !is_there(place, "")
}

fn texts_are_at_an_address(alloc: Global) -> Result<bool, NoMemory> {
    let place = address(alloc, "B")?;
    Ok(paths_are_there(&place) && others_are_not(&place) && nor_are_these(&place))
}

#[test]
fn a_closed_address_ends_the_watches_there(rt: HostRuntime) -> Result<(), Fail> {
    let alloc = rt.alloc();
    assert!(rt; texts_are_at_an_address(alloc)?);
    assert!(rt; an_address_is_closed(alloc)?);
    Ok(())
}

/// Whether no further one is watched.
fn is_full(alloc: Global, all: &mut Watcher) -> Result<bool, NoMemory> {
    Ok(
        watches(alloc, all, "x", Watch::Full)?
            && would_watch(alloc, all, "x", Watch::Full)?
            && watches(alloc, all, "100", Watch::Already { id: 1 })?,
    )
}

/// Whether one more is watched where another one ended, and no further one.
fn has_room_for_one(alloc: Global, all: &mut Watcher) -> Result<bool, NoMemory> {
    Ok(
        unwatches(alloc, all, "100", Unwatch::Unwatched { id: 1 })?
            && watches(alloc, all, "x", Watch::Watching { id: 4_097 })?
            && watches(alloc, all, "y", Watch::Full)?,
    )
}

fn keeps_so_many_watches(alloc: Global) -> Result<bool, NoMemory> {
    let mut all = Watcher::new();
    let last = watch_many(alloc, &mut all, 1, 4_096)?;
    Ok(
        last == Watch::Watching { id: 4_096 }
            && is_full(alloc, &mut all)?
            && has_room_for_one(alloc, &mut all)?,
    )
}

#[test]
fn keeps_4_096_watches(rt: HostRuntime) -> Result<(), Fail> {
    assert!(rt; keeps_so_many_watches(rt.alloc())?);
    Ok(())
}

fn last_id_is_given(alloc: Global, all: &mut Watcher) -> Result<bool, NoMemory> {
    Ok(
        watches(alloc, all, "x", Watch::Watching { id: u64::MAX })?
            && watches(alloc, all, "y", Watch::Full)?
            && would_watch(alloc, all, "y", Watch::Full)?
            && hears_of_end(alloc, all, "x", Some(u64::MAX))?
            && watches(alloc, all, "x", Watch::Full)?,
    )
}

#[test]
fn the_last_id_is_given_once(rt: HostRuntime) -> Result<(), Fail> {
    let mut all = Watcher::after_ids(u64::MAX - 1);
    assert!(rt; last_id_is_given(rt.alloc(), &mut all)?);
    Ok(())
}

/// Whether two actors are spawned, which nobody could watch before.
fn spawns_two(alloc: Global, all: &mut Watcher) -> Result<bool, NoMemory> {
    Ok(
        remote_watches(alloc, all, "/x", "a", 1, RemoteWatch::NotThere)?
            && spawns(alloc, all, "/x", Spawn::Spawned)?
            && spawns(alloc, all, "/x", Spawn::Exists)?
            && spawns(alloc, all, "/y", Spawn::Spawned)?,
    )
}

/// Whether a remote watch stands once for its watcher and its origin.
fn adds_each_once(alloc: Global, all: &mut Watcher) -> Result<bool, NoMemory> {
    Ok(
        adds(alloc, all, "/x", "a", 1)?
            && adds(alloc, all, "/x", "b", 1)?
            && adds(alloc, all, "/x", "a", 2)?
            && remote_watches(alloc, all, "/x", "a", 1, RemoteWatch::There)?
            && adds(alloc, all, "/x", "c", 2)?,
    )
}

/// Whether one that is removed and added again is the last.
fn adds_one_again(alloc: Global, all: &mut Watcher) -> Result<bool, NoMemory> {
    Ok(
        !removes(alloc, all, "/y", "a", 1)?
            && removes(alloc, all, "/x", "a", 1)?
            && !removes(alloc, all, "/x", "a", 1)?
            && adds(alloc, all, "/x", "d", 1)?
            && adds(alloc, all, "/x", "a", 1)?,
    )
}

fn removes_two(alloc: Global, all: &mut Watcher) -> Result<bool, NoMemory> {
    Ok(
        removes(alloc, all, "/x", "b", 1)?
            && removes(alloc, all, "/x", "c", 2)?
            && !removes(alloc, all, "/x", "c", 2)?,
    )
}

fn stops_two(alloc: Global, all: &mut Watcher) -> Result<bool, NoMemory> {
    Ok(
        stops(alloc, all, "/x", "a d a ")?
            && stops(alloc, all, "/x", "!")?
            && stops(alloc, all, "/y", "")?,
    )
}

fn watches_go(alloc: Global) -> Result<bool, NoMemory> {
    let mut all = Watcher::new();
    Ok(
        spawns_two(alloc, &mut all)?
            && adds_each_once(alloc, &mut all)?
            && adds_one_again(alloc, &mut all)?
            && removes_two(alloc, &mut all)?
            && stops_two(alloc, &mut all)?,
    )
}

#[test]
fn remote_watches_go_with_their_actor(rt: HostRuntime) -> Result<(), Fail> {
    assert!(rt; watches_go(rt.alloc())?);
    Ok(())
}

/// Whether an actor is watched from three origins, one of them twice.
fn watched_from_three(alloc: Global, all: &mut Watcher) -> Result<bool, NoMemory> {
    Ok(
        spawns(alloc, all, "/x", Spawn::Spawned)?
            && adds(alloc, all, "/x", "a", 1)?
            && adds(alloc, all, "/x", "b", 2)?
            && adds(alloc, all, "/x", "c", 1)?
            && adds(alloc, all, "/x", "d", 3)?,
    )
}

/// Whether another one is watched from two.
fn watched_from_two(alloc: Global, all: &mut Watcher) -> Result<bool, NoMemory> {
    Ok(
        spawns(alloc, all, "/y", Spawn::Spawned)?
            && adds(alloc, all, "/y", "a", 1)?
            && adds(alloc, all, "/y", "a", 4)?,
    )
}

/// Whether those of the other origins stand once the first is forgotten.
fn keeps_other_origins(alloc: Global, all: &mut Watcher) -> Result<bool, NoMemory> {
    all.forget_origin(&origin(alloc, 1)?);
    Ok(stops(alloc, all, "/x", "b d ")? && stops(alloc, all, "/y", "a ")?)
}

fn forgets(alloc: Global) -> Result<bool, NoMemory> {
    let mut all = Watcher::new();
    Ok(
        watched_from_three(alloc, &mut all)?
            && watched_from_two(alloc, &mut all)?
            && keeps_other_origins(alloc, &mut all)?,
    )
}

#[test]
fn an_origin_is_forgotten(rt: HostRuntime) -> Result<(), Fail> {
    assert!(rt; forgets(rt.alloc())?);
    Ok(())
}

/// Whether all but one are added, and an actor is spawned besides.
fn adds_many(alloc: Global, all: &mut Watcher) -> Result<bool, NoMemory> {
    Ok(
        spawns(alloc, all, "/x", Spawn::Spawned)?
            && watch_many_from(alloc, all, 1, 262_143)? == 262_143
            && spawns(alloc, all, "/y", Spawn::Spawned)?,
    )
}

/// Whether one more is added and no further one, until another one is removed.
fn adds_the_last(alloc: Global, all: &mut Watcher) -> Result<bool, NoMemory> {
    Ok(
        adds(alloc, all, "/y", "a", 1)?
            && remote_watches(alloc, all, "/y", "b", 1, RemoteWatch::Full)?
            && remote_watches(alloc, all, "/y", "a", 1, RemoteWatch::There)?
            && removes(alloc, all, "/x", "100", 1)?
            && adds(alloc, all, "/y", "b", 1)?,
    )
}

fn keeps_so_many_remote_watches(alloc: Global) -> Result<bool, NoMemory> {
    let mut all = Watcher::new();
    Ok(adds_many(alloc, &mut all)? && adds_the_last(alloc, &mut all)?)
}

#[test]
fn keeps_262_144_remote_watches(rt: HostRuntime) -> Result<(), Fail> {
    assert!(rt; keeps_so_many_remote_watches(rt.alloc())?);
    Ok(())
}

/// The bytes of a notice.
fn bytes_of(alloc: Global, actor: &str, watcher: &str) -> Result<Bytes, NoMemory> {
    let notice = Notice {
        actor: text(alloc, actor)?,
        watcher: text(alloc, watcher)?,
    };
    let mut out = Bytes::new(alloc);
    if notice.actor.len() <= 65_535 && notice.watcher.len() <= 65_535 {
        write_notice(&notice, &mut out)?;
    }
    Ok(out)
}

/// Whether the bytes are no notice.
fn is_bad(alloc: Global, payload: &[u8]) -> bool {
    match read_notice(alloc, payload) {
        Err(NoticeFault::BadNotice) => true,
        Err(NoticeFault::NoMemory) => false,
        Ok(_notice) => false,
    }
}

/// Whether the bytes are read as the notice of this actor and this watcher.
fn is_read(alloc: Global, payload: &[u8], actor: &str, watcher: &str) -> bool {
    match read_notice(alloc, payload) {
        Ok(notice) => {
            notice.actor.as_slice() == actor.as_bytes()
                && notice.watcher.as_slice() == watcher.as_bytes()
        }
        Err(_fault) => false,
    }
}

fn notice_is_written(alloc: Global) -> Result<bool, NoMemory> {
    let actor = "akka://B@h2:25520/user/x";
    let watcher = "akka://A@h1:25520/user/w";
    let out = bytes_of(alloc, actor, watcher)?;
    let want = "\x18\0akka://B@h2:25520/user/x\x18\0akka://A@h1:25520/user/w";
    Ok(
        out.len() == 52
            && out.as_slice() == want.as_bytes()
            && is_read(alloc, out.as_slice(), actor, watcher),
    )
}

fn short_notices_are_read(alloc: Global) -> bool {
    is_read(alloc, &[0, 0, 0, 0], "", "") && is_read(alloc, &[1, 0, b'a', 0, 0], "a", "")
}

fn too_short_ones_are_bad(alloc: Global) -> bool {
    is_bad(alloc, &[]) && is_bad(alloc, &[0]) && is_bad(alloc, &[0, 0]) && is_bad(alloc, &[0, 0, 0])
}

fn other_bytes_are_bad(alloc: Global) -> bool {
    is_bad(alloc, &[0, 0, 0, 0, 0])
        && is_bad(alloc, &[1, 0, 128, 0, 0])
        && is_bad(alloc, &[1, 0, b'a', 1, 0])
        && is_bad(alloc, &[0, 1, b'a', 0, 0])
}

#[test]
fn notices_have_their_bytes(rt: HostRuntime) -> Result<(), Fail> {
    let alloc = rt.alloc();
    assert!(rt; notice_is_written(alloc)?);
    assert!(rt; short_notices_are_read(alloc));
    assert!(rt; too_short_ones_are_bad(alloc));
    assert!(rt; other_bytes_are_bad(alloc));
    Ok(())
}
