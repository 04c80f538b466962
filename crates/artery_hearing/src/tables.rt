//! Tables, and their acknowledgements.
ghost use Rattle.std.specs.Prelude.{◌≡◌, length, OnOk};
ghost use Rattle.artery_journal.specs.declared.line.Line.TheVariants as lines;
ghost use Rattle.artery_tables.specs.Story.{version_of};
ghost use Rattle.artery_machine.specs.Parts.{kept};
ghost use Rattle.artery_machine.specs.Doing.{in_bytes, tells_of};
ghost use Rattle.artery_machine.specs.Hearing.{sequence_of, table_number, acknowledges_table, adopts, tabled, confirms};
ghost use Rattle.artery_hearing.specs.Heard.{adopts_then, confirms_then};

use artery_base::{Names, NoMemory, UniqueAddress, Values};
use artery_control::Control;
use artery_journal::{Kind, Line, Rule};
use artery_node::Work;
use artery_tables::{Adopted, Confirmed};

/// A sequence is written from this number on.
const FIRST_SEQUENCE: u64 = 128;

/// How many versions there are: those of the numbers from 1 on go from 1 to 127 and then begin anew.
const VERSIONS: u64 = 127;

/// The sequence of a number, from where its version alone no longer tells it.
fn sequence_of(number: u64) -> Option<u64>
    ensures { result ≡ sequence_of number }
{
    if number >= FIRST_SEQUENCE {
        Some(number)
    } else {
        None
    }
}

/// The version of a number: 0 for 0, else 1 to 127, going round.
fn version_of(number: u64) -> u8
    ensures { result ≡ version_of number }
{
    if number == 0 {
        return 0;
    }
    ((number - 1) % VERSIONS + 1) as u8
}

/// The number of a table, or of the acknowledgement of one: its sequence, or its version where it has none.
pub(crate) fn table_number(version: u8, sequence: Option<u64>) -> u64
    ensures { result ≡ table_number version sequence }
{
    match sequence {
        None => version as u64,
        Some(number) => number,
    }
}

/// The acknowledgement of a table is written on the control connection to its origin.
fn acknowledges_table(
    work: &mut Work,
    kind: Kind,
    v: &UniqueAddress,
    number: u64,
) -> Result<(), NoMemory>
    ensures { OnOk result (work.new ≡ acknowledges_table kind v.now number work.old) }
{
    let from = work.me().clone()?;
    let version = version_of(number);
    let sequence = sequence_of(number);
    match kind {
        Kind::Refs => work.on_control(
            v,
            Control::RefsAck {
                from,
                version,
                sequence,
            },
        ),
        Kind::Manifests => work.on_control(
            v,
            Control::ManifestsAck {
                from,
                version,
                sequence,
            },
        ),
    }
}

/// It is told that a table was adopted.
fn tells_adopted(
    work: &mut Work,
    v: &UniqueAddress,
    kind: Kind,
    number: u64,
) -> Result<(), NoMemory>
    ensures { OnOk result (work.new ≡ tells_of (λ me. lines.Adopted me v.now kind number) work.old) }
{
    let of = work.me().clone()?;
    let other = v.clone()?;
    work.tell(Line::Adopted {
        of,
        other,
        kind,
        version: number,
    })
}

/// What follows a table, once it was adopted or not. An older one is dropped; the one that was held already is acknowledged again; one that was
/// adopted is told and acknowledged.
fn adopts_then(
    work: &mut Work,
    conn: u64,
    v: &UniqueAddress,
    kind: Kind,
    number: u64,
    answer: Adopted,
) -> Result<(), NoMemory>
    ensures { OnOk result (work.new ≡ adopts_then conn v.now kind number answer work.old) }
{
    match answer {
        Adopted::Older => work.drops(conn, Rule::OldTable),
        Adopted::Same => acknowledges_table(work, kind, v, number),
        Adopted::Adopted => {
            tells_adopted(work, v, kind, number)?;
            acknowledges_table(work, kind, v, number)
        }
    }
}

/// A table of one kind came.
///
/// Wants as many values as keys.
#[tactic(auto, using(crate::proofs::Same::adopts_so))]
fn adopts(
    work: &mut Work,
    conn: u64,
    v: &UniqueAddress,
    kind: Kind,
    number: u64,
    keys: Names,
    values: Values,
) -> Result<(), NoMemory>
    requires { length keys ≡ length values }
    ensures { OnOk result (work.new ≡ adopts conn v.now kind number keys values work.old) }
{
    let answer = work.adopts(&v.address, kind, number, keys, values)?;
    adopts_then(work, conn, v, kind, number, answer)?;
    Ok(())
}

/// A table came. One for another incarnation is dropped, and so is one of an incarnation that is not current.
///
/// Wants as many values as keys.
pub(crate) fn tabled(
    work: &mut Work,
    conn: u64,
    v: &UniqueAddress,
    kind: Kind,
    origin_uid: u64,
    number: u64,
    keys: Names,
    values: Values,
) -> Result<(), NoMemory>
    requires { length keys ≡ length values }
    ensures { OnOk result (work.new ≡ tabled conn v.now kind origin_uid number keys values work.old) }
{
    if origin_uid != work.me().uid {
        return work.drops(conn, Rule::NotMe);
    }
    if !work.is_now(v) {
        return work.drops(conn, Rule::NotCurrent);
    }
    adopts(work, conn, v, kind, number, keys, values)
}

/// What follows the acknowledgement of a table, once that was confirmed or not. That of another table than the announced one is dropped.
fn confirms_then(work: &mut Work, conn: u64, answer: Confirmed) -> Result<(), NoMemory>
    ensures { OnOk result (work.new ≡ confirms_then conn answer work.old) }
{
    match answer {
        Confirmed::Confirmed => Ok(()),
        Confirmed::NotAnnounced => work.drops(conn, Rule::OldTable),
    }
}

/// The acknowledgement of a table came: that of the table that is announced confirms it.
#[tactic(auto, using(crate::proofs::Same::confirms_so))]
pub(crate) fn confirms(
    work: &mut Work,
    conn: u64,
    v: &UniqueAddress,
    kind: Kind,
    number: u64,
) -> Result<(), NoMemory>
    ensures { OnOk result (work.new ≡ confirms conn v.now kind number work.old) }
{
    let answer = work.confirms(v, kind, number);
    confirms_then(work, conn, answer)?;
    Ok(())
}
