//! What follows where a connection is bound to an incarnation.
ghost use Rattle.std.specs.Prelude.{◌≡◌, ◌≤◌, OnOk, IfOk, None, Some, false, true};
ghost use Rattle.artery_assoc.specs.Peer.{learning};
ghost use Rattle.artery_assoc.specs.declared.peer.Learn.TheVariants.{Learnt};
ghost use Rattle.artery_delivery.specs.Outbound.{kept_message};
ghost use Rattle.artery_journal.specs.declared.line.Line.TheVariants as lines;
ghost use Rattle.artery_journal.specs.declared.words.Cause.TheVariants as causes;
ghost use Rattle.artery_machine.specs.Parts.{kept};
ghost use Rattle.artery_machine.specs.Node.{peer_at, origin_at};
ghost use Rattle.artery_machine.specs.Doing.{in_bytes, stays, tells_of};
ghost use Rattle.artery_machine.specs.Closing.{closes_current};
ghost use Rattle.artery_machine.specs.Handshaking.{ordinary_dial, tells_waiting, writes_owed_ack, dials_ordinary, goes_on, learns_new, learns_as, learns, strays, binds_ordinary, binds};

use artery_assoc::Learn;
use artery_base::{Address, NoMemory, SysMsg, UniqueAddress};
use artery_control::Control;
use artery_frame::Stream;
use artery_journal::{Cause, Line, Reason};
use artery_node::Work;

// ---- what waited

/// A copy of the system message to the peer at an address that is kept or waits at a place, counted from 1.
fn message_at(work: &Work, address: &Address, place: u64) -> Result<Option<SysMsg>, NoMemory>
    ensures { IfOk result (λ message. message ≡ kept_message place (peer_at address.now work.now.node).out) }
{
    match work.peer(address) {
        None => Ok(None),
        Some(peer) => peer.message(place),
    }
}

/// The messages that waited are told as sent.
#[tactic(auto, using(crate::proofs::Waiting::none_there, crate::proofs::Waiting::all_told))]
fn tells_waiting(work: &mut Work, address: &Address, uid: u64) -> Result<(), NoMemory>
    ensures { OnOk result (work.new ≡ tells_waiting address.now uid work.old) }
{
    let waiting = work.kept_at(address);
    let mut told = 0;
    while told < waiting {
        let Some(message) = message_at(work, address, told + 1)? else {
            return Ok(());
        };
        told += 1;
        work.tells_sent(address, Some(uid), told, message)?;
    }
    Ok(())
}

// ---- going on

/// Whether an acknowledgement is owed to an origin.
fn owes_ack(work: &Work, v: &UniqueAddress) -> bool
    ensures { result ≡ (origin_at v.now work.now.node).owes }
{
    match work.origin(v) {
        None => false,
        Some(origin) => origin.is_owed_ack(),
    }
}

/// An acknowledgement that is owed to an origin is written: of the last message that was taken from it.
fn writes_owed_ack(work: &mut Work, v: &UniqueAddress) -> Result<(), NoMemory>
    ensures { OnOk result (work.new ≡ writes_owed_ack v.now work.old) }
{
    if !owes_ack(work, v) {
        return Ok(());
    }
    let n = work.last_taken(v);
    let from = work.me().clone()?;
    work.set_owes_no_ack(v);
    work.on_control(v, Control::Ack { n, from })
}

/// The ordinary connection of a peer that has none is dialed.
fn dials_ordinary(work: &mut Work, address: &Address) -> Result<(), NoMemory>
    ensures { OnOk result (work.new ≡ dials_ordinary address.now work.old) }
{
    if work.conn_at(Stream::Ordinary, address).is_some() {
        return Ok(());
    }
    work.dials(Stream::Ordinary, address)?;
    Ok(())
}

/// A peer that is bound to its current UID: it is quiet from now on; an acknowledgement that is owed is written; the messages that are kept
/// are written again; and the ordinary connection is dialed where there is none.
fn goes_on(work: &mut Work, v: &UniqueAddress) -> Result<(), NoMemory>
    ensures { OnOk result (work.new ≡ goes_on v.now work.old) }
{
    work.set_quiet(&v.address);
    writes_owed_ack(work, v)?;
    work.rewinds(&v.address);
    work.pumps(&v.address)?;
    dials_ordinary(work, &v.address)?;
    Ok(())
}

// ---- learning

/// The former incarnation at an address, where there is one, is closed as superseded.
fn closes_former(work: &mut Work, v: &UniqueAddress, former: Option<u64>) -> Result<(), NoMemory>
    requires { former ≡ (peer_at v.now.address work.old.node).incarnations.current }
    ensures { OnOk result (work.new ≡ closes_current v.now.address causes.Superseded former stays work.old) }
{
    match former {
        None => Ok(()),
        Some(uid) => work.closes(&v.address, Cause::Superseded, uid),
    }
}

/// It is told that the UID of an incarnation is learnt.
fn tells_learnt(work: &mut Work, v: &UniqueAddress) -> Result<(), NoMemory>
    ensures { OnOk result (work.new ≡ tells_of (λ me. lines.Learnt me v.now) work.old) }
{
    let of = work.me().clone()?;
    let other = v.clone()?;
    work.tell(Line::Learnt { of, other })
}

/// A new UID is learnt: the former one is closed as superseded, and all that waited is sent.
#[tactic(auto, using(crate::proofs::Learning::former_is_current, crate::proofs::Learning::learns_still))]
fn learns_new(work: &mut Work, v: &UniqueAddress, former: Option<u64>) -> Result<(), NoMemory>
    requires { learning v.now.uid (peer_at v.now.address work.old.node).incarnations ≡ Learnt former }
    ensures { OnOk result (work.new ≡ learns_new v.now former work.old) }
{
    let now = work.moment();
    closes_former(work, v, former)?;
    work.set_learnt(now, v);
    tells_learnt(work, v)?;
    tells_waiting(work, &v.address, v.uid)?;
    goes_on(work, v)?;
    Ok(())
}

/// It is told that an incarnation answered that was closed before.
fn tells_barred(work: &mut Work, v: &UniqueAddress) -> Result<(), NoMemory>
    ensures { OnOk result (work.new ≡ tells_of (λ me. lines.Barred me v.now) work.old) }
{
    let of = work.me().clone()?;
    let other = v.clone()?;
    work.tell(Line::Barred { of, other })
}

/// What follows an answer to a UID: one that was closed stays closed; beside 1,024 others no further one is learnt; the current one goes on;
/// else it is learnt.
fn learns_as(work: &mut Work, v: &UniqueAddress, answer: Learn) -> Result<(), NoMemory>
    requires { learning v.now.uid (peer_at v.now.address work.old.node).incarnations ≡ answer }
    ensures { OnOk result (work.new ≡ learns_as v.now answer work.old) }
{
    match answer {
        Learn::WasClosed => tells_barred(work, v),
        Learn::ClosedFull => {
            work.refuses(Reason::ClosedUids)?;
            work.gives_up(Stream::Control, &v.address)
        }
        Learn::Same => goes_on(work, v),
        Learn::Learnt { former } => learns_new(work, v, former),
    }
}

/// The answer that learning the UID of an incarnation gives; nothing changes.
fn would_learn(work: &Work, v: &UniqueAddress) -> Learn
    ensures { result ≡ learning v.now.uid (peer_at v.now.address work.now.node).incarnations }
{
    match work.peer(&v.address) {
        None => Learn::Learnt { former: None },
        Some(peer) => peer.would_learn(v.uid),
    }
}

/// The UID of an incarnation is learnt, or not.
fn learns(work: &mut Work, v: &UniqueAddress) -> Result<(), NoMemory>
    ensures { OnOk result (work.new ≡ learns v.now work.old) }
{
    let answer = would_learn(work, v);
    learns_as(work, v, answer)?;
    Ok(())
}

// ---- binding

/// An answer that is meant for no connection of the node.
pub(crate) fn strays(
    work: &mut Work,
    v: &UniqueAddress,
    its_nonce: Option<u64>,
) -> Result<(), NoMemory>
    ensures { OnOk result (work.new ≡ strays v.now its_nonce work.old) }
{
    let of = work.me().clone()?;
    let other = v.clone()?;
    work.tell(Line::Stray {
        of,
        other,
        nonce: its_nonce,
    })
}

/// The dial number of the ordinary connection to an incarnation, where it is current.
fn ordinary_dial(work: &Work, v: &UniqueAddress) -> Option<u64>
    ensures { result ≡ ordinary_dial v.now (peer_at v.now.address work.now.node) }
{
    match work.peer(&v.address) {
        None => None,
        Some(peer) => peer.ordinary_dial(v),
    }
}

/// The ordinary connection that is bound to the current UID, with this dial number, tells what was held. One that is bound to another is
/// given up.
fn binds_ordinary(
    work: &mut Work,
    v: &UniqueAddress,
    its_nonce: Option<u64>,
    dial: Option<u64>,
) -> Result<(), NoMemory>
    ensures { OnOk result (work.new ≡ binds_ordinary v.now its_nonce dial work.old) }
{
    match dial {
        None => {
            strays(work, v, its_nonce)?;
            work.gives_up(Stream::Ordinary, &v.address)
        }
        Some(dial) => work.tells_held(&v.address, dial),
    }
}

/// A connection is bound by an answer of this incarnation. The control connection is used then, and the UID is learnt.
pub(crate) fn binds(
    work: &mut Work,
    stream: Stream,
    v: &UniqueAddress,
    its_nonce: Option<u64>,
) -> Result<(), NoMemory>
    ensures { OnOk result (work.new ≡ binds stream v.now its_nonce work.old) }
{
    match stream {
        Stream::Control => {
            work.uses(&v.address)?;
            learns(work, v)
        }
        Stream::Ordinary => {
            let dial = ordinary_dial(work, v);
            binds_ordinary(work, v, its_nonce, dial)
        }
    }
}
