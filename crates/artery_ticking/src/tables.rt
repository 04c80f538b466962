//! Tables that are announced to origins.
ghost use Rattle.std.specs.Prelude.{◌≡◌, OnOk, IfOk};
ghost use Rattle.artery_machine.specs.Parts.{kept};
ghost use Rattle.artery_machine.specs.Doing.{in_bytes, tells_of};
ghost use Rattle.artery_machine.specs.Hearing.{sequence_of};
ghost use Rattle.artery_machine.specs.Ticking.{numbers_from, advertisement, unconfirmed_of, announces, advertises_as, advertises_settled, advertises, ticks_origin};
ghost use Rattle.artery_journal.specs.declared.line.Line.TheVariants as lines;
ghost use Rattle.artery_tables.specs.declared.in_tables.Advertised.TheVariants.{New};

use artery_base::{Names, NoMemory, UniqueAddress, Values};
use artery_control::Control;
use artery_journal::{Kind, Line};
use artery_node::Work;
use artery_tables::{Advertised, Table};
use std::alloc::Global;

/// A sequence is written from this number on.
const FIRST_SEQUENCE: u64 = 128;

/// The numbers of as many places, from 0 on. `NoMemory` also where there are more than 65,535.
#[tactic(auto, using(crate::proofs::Counting::one_more))]
fn numbers_up_to(alloc: Global, count: usize) -> Result<Values, NoMemory>
    ensures { IfOk result (λ all. all ≡ numbers_from 0 count) }
{
    let mut all = Values::new(alloc);
    if count > 65_535 {
        return Err(NoMemory);
    }
    let most = count as u16;
    for place in 0..most {
        all.push(place)?;
    }
    Ok(all)
}

/// A sequence is written from number 128 on.
fn sequence_of(number: u64) -> Option<u64>
    ensures { result ≡ sequence_of number }
{
    if FIRST_SEQUENCE <= number {
        Some(number)
    } else {
        None
    }
}

/// The same names.
fn copy_of_names(names: &Names) -> Result<Names, NoMemory>
    ensures { IfOk result (λ copy. copy ≡ names.now) }
{
    Ok(names.clone()?)
}

/// The announcement of a table to an origin, with the names in their order and their places from 0 on. `NoMemory` also where there are more
/// than 65,535 names.
fn advertisement(
    alloc: Global,
    kind: Kind,
    me: &UniqueAddress,
    v: &UniqueAddress,
    table: &Table,
) -> Result<Control, NoMemory>
    ensures { IfOk result (λ control. control ≡ advertisement kind me.now v.now table.now) }
{
    let from = me.clone()?;
    let keys = copy_of_names(&table.names)?;
    let values = numbers_up_to(alloc, table.names.len())?;
    let sequence = sequence_of(table.number);
    let (origin_uid, version) = (v.uid, table.version);
    match kind {
        Kind::Refs => Ok(Control::RefsTable {
            from,
            origin_uid,
            version,
            keys,
            values,
            sequence,
        }),
        Kind::Manifests => Ok(Control::ManifestsTable {
            from,
            origin_uid,
            version,
            keys,
            values,
            sequence,
        }),
    }
}

/// The table that is announced and not confirmed is written to an origin, if there is one.
fn announces(work: &mut Work, v: &UniqueAddress, kind: Kind) -> Result<(), NoMemory>
    ensures { OnOk result (work.new ≡ announces v.now kind (unconfirmed_of v.now kind work.old.node) work.old) }
{
    let control = match work.unconfirmed(v, kind) {
        None => return Ok(()),
        Some(table) => advertisement(work.alloc(), kind, work.me(), v, table)?,
    };
    work.on_control(v, control)?;
    Ok(())
}

/// It is told that a table of an origin, with this number and so many names, is new.
fn tells_advertised(
    work: &mut Work,
    v: &UniqueAddress,
    kind: Kind,
    version: u64,
    count: u64,
) -> Result<(), NoMemory>
    ensures { OnOk result (work.new ≡ tells_of (λ me. lines.Advertised me v.now kind version count) work.old) }
{
    let of = work.me().clone()?;
    let other = v.clone()?;
    work.tell(Line::Advertised {
        of,
        other,
        kind,
        version,
        count,
    })
}

/// A new table is told and announced.
fn advertises_new(work: &mut Work, v: &UniqueAddress, kind: Kind) -> Result<(), NoMemory>
    ensures { OnOk result (work.new ≡ advertises_as v.now kind New work.old) }
{
    let (version, count, control) = match work.unconfirmed(v, kind) {
        None => return Ok(()),
        Some(table) => {
            let control = advertisement(work.alloc(), kind, work.me(), v, table)?;
            (table.number, table.names.len() as u64, control)
        }
    };
    tells_advertised(work, v, kind, version, count)?;
    work.on_control(v, control)?;
    Ok(())
}

/// A new table is told and announced; one that is not confirmed yet is announced again.
fn advertises_as(
    work: &mut Work,
    v: &UniqueAddress,
    kind: Kind,
    answer: Advertised,
) -> Result<(), NoMemory>
    ensures { OnOk result (work.new ≡ advertises_as v.now kind answer work.old) }
{
    match answer {
        Advertised::New => advertises_new(work, v, kind),
        Advertised::Again => announces(work, v, kind),
        Advertised::Same | Advertised::Spent | Advertised::Unsettled => Ok(()),
    }
}

/// The tables of one kind are advertised to an origin.
fn advertises_settled(
    work: &mut Work,
    v: &UniqueAddress,
    kind: Kind,
    settled: bool,
) -> Result<(), NoMemory>
    ensures { OnOk result (work.new ≡ advertises_settled v.now kind settled work.old) }
{
    let answer = work.advertise(v, kind, settled)?;
    advertises_as(work, v, kind, answer)?;
    Ok(())
}

/// Tables of one kind are advertised, with whether the origin is settled.
fn advertises(work: &mut Work, v: &UniqueAddress, kind: Kind) -> Result<(), NoMemory>
    ensures { OnOk result (work.new ≡ advertises v.now kind work.old) }
{
    let settled = work.is_settled(v, kind);
    advertises_settled(work, v, kind, settled)?;
    Ok(())
}

/// What is due for an origin: references are advertised, and then manifests.
pub(crate) fn ticks_origin(work: &mut Work, v: &UniqueAddress) -> Result<(), NoMemory>
    ensures { OnOk result (work.new ≡ ticks_origin v.now work.old) }
{
    if !work.is_to_advertise(v) {
        return Ok(());
    }
    let now = work.moment();
    advertises(work, v, Kind::Refs)?;
    advertises(work, v, Kind::Manifests)?;
    work.set_advertised(v, now);
    Ok(())
}
