//! Numbered messages and their acknowledgements.
ghost use Rattle.std.specs.Prelude.{◌≡◌, OnOk, true, false};
ghost use Rattle.artery_delivery.specs.Outbound.{acknowledgement};
ghost use Rattle.artery_journal.specs.declared.line.Line.TheVariants as lines;
ghost use Rattle.artery_machine.specs.Parts.{kept};
ghost use Rattle.artery_machine.specs.Doing.{in_bytes, tells_of};
ghost use Rattle.artery_machine.specs.Watching.{acts};
ghost use Rattle.artery_machine.specs.Hearing.{acknowledges_on, acknowledges, numbered, of_current, acked, nacked};
ghost use Rattle.artery_hearing.specs.Heard.{ack_of, answers, numbered_then, acked_then, cleared_then};
ghost use Rattle.artery_notices.specs.Telling.{told};

use artery_base::{NoMemory, SysMsg, UniqueAddress};
use artery_control::Control;
use artery_delivery::{Acked, Take};
use artery_journal::{Line, Rule};
use artery_node::Work;
use artery_notices::told_of;

/// The last message taken is acknowledged on the control connection to its origin, or what follows it is asked for.
fn answers(work: &mut Work, v: &UniqueAddress, missing: bool) -> Result<(), NoMemory>
    ensures { OnOk result (work.new ≡ answers v.now missing work.old) }
{
    let n = work.last_taken(v);
    let from = work.me().clone()?;
    work.owes_ack(v, false);
    if missing {
        work.on_control(v, Control::Nack { n, from })
    } else {
        work.on_control(v, Control::Ack { n, from })
    }
}

/// The same where the control connection to the origin has this dial number. Where it is not bound to it, an acknowledgement is owed.
fn acknowledges_on(
    work: &mut Work,
    v: &UniqueAddress,
    missing: bool,
    dial: Option<u64>,
) -> Result<(), NoMemory>
    ensures { OnOk result (work.new ≡ acknowledges_on v.now (ack_of missing) dial work.old) }
{
    match dial {
        None => {
            work.owes_ack(v, true);
            Ok(())
        }
        Some(_dial) => answers(work, v, missing),
    }
}

/// The last message taken from an origin is acknowledged, or what follows it is asked for.
fn acknowledges(work: &mut Work, v: &UniqueAddress, missing: bool) -> Result<(), NoMemory>
    ensures { OnOk result (work.new ≡ acknowledges v.now (ack_of missing) work.old) }
{
    let dial = work.control_dial(v);
    acknowledges_on(work, v, missing, dial)
}

/// It is told that a message was taken.
fn tells_took(work: &mut Work, v: &UniqueAddress, n: u64, message: SysMsg) -> Result<(), NoMemory>
    ensures { OnOk result (work.new ≡ tells_of (λ me. lines.Took me v.now n message) work.old) }
{
    let of = work.me().clone()?;
    let other = v.clone()?;
    work.tell(Line::Took {
        of,
        other,
        n,
        message,
    })
}

/// It is told that a message came that was taken before.
fn tells_again(work: &mut Work, v: &UniqueAddress, n: u64) -> Result<(), NoMemory>
    ensures { OnOk result (work.new ≡ tells_of (λ me. lines.Again me v.now n) work.old) }
{
    let of = work.me().clone()?;
    let other = v.clone()?;
    work.tell(Line::Again { of, other, n })
}

/// It is told that a message came too early.
fn tells_gap(work: &mut Work, v: &UniqueAddress, n: u64) -> Result<(), NoMemory>
    ensures { OnOk result (work.new ≡ tells_of (λ me. lines.Gap me v.now n) work.old) }
{
    let of = work.me().clone()?;
    let other = v.clone()?;
    work.tell(Line::Gap { of, other, n })
}

/// What follows once a message was taken: it is told and acknowledged, and then it acts. What it acts as is read before it moves into its line.
#[tactic(auto, using(crate::proofs::Same::acts_so))]
fn took(work: &mut Work, v: &UniqueAddress, n: u64, message: SysMsg) -> Result<(), NoMemory>
    ensures { OnOk result (work.new ≡ numbered_then v.now n message Take.Taken work.old) }
{
    let what = told_of(work.alloc(), &message)?;
    tells_took(work, v, n, message)?;
    acknowledges(work, v, false)?;
    work.acts_as(v, what)?;
    Ok(())
}

/// What follows a numbered message, once it was taken or not.
fn numbered_then(
    work: &mut Work,
    v: &UniqueAddress,
    n: u64,
    message: SysMsg,
    answer: Take,
) -> Result<(), NoMemory>
    ensures { OnOk result (work.new ≡ numbered_then v.now n message answer work.old) }
{
    match answer {
        Take::Taken => took(work, v, n, message),
        Take::Again { .. } => {
            tells_again(work, v, n)?;
            acknowledges(work, v, false)
        }
        Take::Gap { .. } => {
            tells_gap(work, v, n)?;
            acknowledges(work, v, true)
        }
    }
}

/// A numbered message came. The expected one is taken, told and acknowledged, and then it acts; one that came before is told and acknowledged
/// again; one that came too early is told, and the next one after the last taken is asked for.
#[tactic(auto, using(crate::proofs::Same::numbered_so))]
pub(crate) fn numbered(
    work: &mut Work,
    v: &UniqueAddress,
    n: u64,
    message: SysMsg,
) -> Result<(), NoMemory>
    ensures { OnOk result (work.new ≡ numbered v.now n message work.old) }
{
    let answer = work.takes(v, n);
    numbered_then(work, v, n, message, answer)?;
    Ok(())
}

/// What follows an acknowledgement of so many messages: the peer was heard of, and what may be written is.
fn cleared_then(work: &mut Work, v: &UniqueAddress, again: bool, count: u64) -> Result<(), NoMemory>
    ensures { OnOk result (work.new ≡ cleared_then v.now again count work.old) }
{
    work.heard_back(&v.address, count > 0, again);
    work.pumps(&v.address)
}

/// What follows an acknowledgement, once what is kept for the peer has changed or not. One past the last message sent is dropped.
fn acked_then(
    work: &mut Work,
    conn: u64,
    v: &UniqueAddress,
    again: bool,
    answer: Acked,
) -> Result<(), NoMemory>
    ensures { OnOk result (work.new ≡ acked_then conn v.now again answer work.old) }
{
    match answer {
        Acked::Past => work.drops(conn, Rule::AckRange),
        Acked::Cleared { count } => cleared_then(work, v, again, count),
    }
}

/// An acknowledgement of the messages up to a number.
#[tactic(auto, using(crate::proofs::Same::acked_so))]
fn acked_now(work: &mut Work, conn: u64, v: &UniqueAddress, n: u64) -> Result<(), NoMemory>
    ensures { OnOk result (work.new ≡ acked conn v.now n work.old) }
{
    let answer = work.acknowledges(&v.address, n);
    acked_then(work, conn, v, false, answer)?;
    Ok(())
}

/// The same, with the messages behind it asked for again.
#[tactic(auto, using(crate::proofs::Same::nacked_so))]
fn nacked_now(work: &mut Work, conn: u64, v: &UniqueAddress, n: u64) -> Result<(), NoMemory>
    ensures { OnOk result (work.new ≡ nacked conn v.now n work.old) }
{
    let answer = work.asks_again(&v.address, n);
    acked_then(work, conn, v, true, answer)?;
    Ok(())
}

/// An acknowledgement came. One of an incarnation that is not current is dropped.
pub(crate) fn acked(work: &mut Work, conn: u64, v: &UniqueAddress, n: u64) -> Result<(), NoMemory>
    ensures { OnOk result (work.new ≡ of_current conn v.now (acked conn v.now n) work.old) }
{
    if !work.is_now(v) {
        return work.drops(conn, Rule::NotCurrent);
    }
    acked_now(work, conn, v, n)
}

/// The messages behind a number are asked for again. By an incarnation that is not current, this is dropped.
pub(crate) fn nacked(work: &mut Work, conn: u64, v: &UniqueAddress, n: u64) -> Result<(), NoMemory>
    ensures { OnOk result (work.new ≡ of_current conn v.now (nacked conn v.now n) work.old) }
{
    if work.is_now(v) {
        return nacked_now(work, conn, v, n);
    }
    work.drops(conn, Rule::NotCurrent)
}
