//! Answers of a handshake.
ghost use Rattle.std.specs.Prelude.{◌≡◌, OnOk, Some, None};
ghost use Rattle.artery_machine.specs.Parts.{kept};
ghost use Rattle.artery_machine.specs.Node.{peer_at, dialed_as, stream_dialed};
ghost use Rattle.artery_machine.specs.Doing.{in_bytes};
ghost use Rattle.artery_machine.specs.Handshaking.{is_met, answer_at, answered_as, takes_answer, answered_by, answered_to, strays_unless, then_ordinary, answered_plainly, answered};

use crate::binding::{binds, strays};
use artery_base::{Address, NoMemory, UniqueAddress};
use artery_frame::Stream;
use artery_handshake::OnRsp;
use artery_node::Work;
use artery_peer::answer_on;

/// Whether an answer was meant for a connection.
fn is_met(answer: OnRsp) -> bool
    ensures { result ≡ is_met answer }
{
    match answer {
        OnRsp::Bind { .. } | OnRsp::Repeat => true,
        OnRsp::Stray => false,
    }
}

/// What an answer of an incarnation is to the connection to it that carries this.
fn answer_at(
    work: &Work,
    stream: Stream,
    v: &UniqueAddress,
    for_uid: Option<u64>,
    its_nonce: Option<u64>,
) -> OnRsp
    ensures { result ≡ answer_at stream work.now.node v.now for_uid its_nonce }
{
    answer_on(
        work.me().uid,
        v,
        for_uid,
        its_nonce,
        work.conn_at(stream, &v.address),
    )
}

/// An answer changes a connection, and binds it where it says so.
fn answered_as(
    work: &mut Work,
    stream: Stream,
    v: &UniqueAddress,
    for_uid: Option<u64>,
    its_nonce: Option<u64>,
    answer: OnRsp,
) -> Result<(), NoMemory>
    ensures { OnOk result (work.new ≡ answered_as stream v.now for_uid its_nonce answer work.old) }
{
    match answer {
        OnRsp::Bind { .. } => {
            work.set_answered(stream, v, for_uid, its_nonce);
            binds(work, stream, v, its_nonce)
        }
        OnRsp::Repeat | OnRsp::Stray => Ok(()),
    }
}

/// The connection of this kind takes an answer.
fn takes_answer(
    work: &mut Work,
    stream: Stream,
    v: &UniqueAddress,
    for_uid: Option<u64>,
    its_nonce: Option<u64>,
) -> Result<(), NoMemory>
    ensures { OnOk result (work.new ≡ takes_answer stream v.now for_uid its_nonce work.old) }
{
    let answer = answer_at(work, stream, v, for_uid, its_nonce);
    answered_as(work, stream, v, for_uid, its_nonce, answer)
}

/// An answer with both fields that is met by a connection is taken by it; else it is stray.
fn answered_by(
    work: &mut Work,
    stream: Stream,
    v: &UniqueAddress,
    for_uid: u64,
    its_nonce: u64,
    met: bool,
) -> Result<(), NoMemory>
    ensures { OnOk result (work.new ≡ answered_by stream v.now for_uid its_nonce met work.old) }
{
    if met {
        takes_answer(work, stream, v, Some(for_uid), Some(its_nonce))
    } else {
        strays(work, v, Some(its_nonce))
    }
}

/// Whether a connection to the peer at an address has this dial number.
fn is_dialed_as(work: &Work, dial: u64, address: &Address) -> bool
    ensures { result ≡ dialed_as dial (peer_at address.now work.now.node) }
{
    match work.peer(address) {
        None => false,
        Some(peer) => peer.is_dialed_as(dial),
    }
}

/// Which of the connections to the peer at an address has this dial number, where one of them has it.
fn stream_dialed(work: &Work, dial: u64, address: &Address) -> Stream
    ensures { result ≡ stream_dialed dial (peer_at address.now work.now.node) }
{
    match work.peer(address) {
        None => Stream::Ordinary,
        Some(peer) => peer.stream_dialed(dial),
    }
}

/// An answer with both fields is for the connection with that dial number. Where it is not meant for it, or there is none, it is stray.
fn answered_to(
    work: &mut Work,
    v: &UniqueAddress,
    for_uid: u64,
    its_nonce: u64,
) -> Result<(), NoMemory>
    ensures { OnOk result (work.new ≡ answered_to v.now for_uid its_nonce work.old) }
{
    let stream = stream_dialed(work, its_nonce, &v.address);
    let met = is_dialed_as(work, its_nonce, &v.address)
        && is_met(answer_at(work, stream, v, Some(for_uid), Some(its_nonce)));
    answered_by(work, stream, v, for_uid, its_nonce, met)
}

/// An answer that was met by no connection is stray.
fn strays_unless(work: &mut Work, met: bool, v: &UniqueAddress) -> Result<(), NoMemory>
    ensures { OnOk result (work.new ≡ strays_unless met v.now work.old) }
{
    if met {
        return Ok(());
    }
    strays(work, v, None)
}

/// The ordinary connection takes an answer. Where it was met neither by this nor before, it is stray.
fn then_ordinary(
    work: &mut Work,
    met: bool,
    v: &UniqueAddress,
    for_uid: Option<u64>,
    its_nonce: Option<u64>,
) -> Result<(), NoMemory>
    ensures { OnOk result (work.new ≡ then_ordinary met v.now for_uid its_nonce work.old) }
{
    let by_either = met || is_met(answer_at(work, Stream::Ordinary, v, for_uid, its_nonce));
    takes_answer(work, Stream::Ordinary, v, for_uid, its_nonce)?;
    strays_unless(work, by_either, v)
}

/// An answer without both fields is for the control connection and then, always, for the ordinary one. Where it is meant for neither, it is
/// stray.
fn answered_plainly(
    work: &mut Work,
    v: &UniqueAddress,
    for_uid: Option<u64>,
    its_nonce: Option<u64>,
) -> Result<(), NoMemory>
    ensures { OnOk result (work.new ≡ answered_plainly v.now for_uid its_nonce work.old) }
{
    let met = is_met(answer_at(work, Stream::Control, v, for_uid, its_nonce));
    takes_answer(work, Stream::Control, v, for_uid, its_nonce)?;
    then_ordinary(work, met, v, for_uid, its_nonce)
}

/// A handshake answer of an incarnation came. One with both fields is for the connection with that dial number; any other is for the control
/// connection and then for the ordinary one. It binds a connection that asked and for which it is meant; one that is meant for none is told
/// as stray.
pub fn answered(
    work: &mut Work,
    v: &UniqueAddress,
    for_uid: Option<u64>,
    its_nonce: Option<u64>,
) -> Result<(), NoMemory>
    ensures { OnOk result (work.new ≡ answered v.now for_uid its_nonce work.old) }
{
    match for_uid {
        None => answered_plainly(work, v, None, its_nonce),
        Some(uid) => match its_nonce {
            None => answered_plainly(work, v, Some(uid), None),
            Some(nonce) => answered_to(work, v, uid, nonce),
        },
    }
}
