//! Requests of a handshake.
ghost use Rattle.std.specs.Prelude.{◌≡◌, OnOk, IfOk, Some, None, Option};
ghost use Rattle.artery_machine.specs.Parts.{kept};
ghost use Rattle.artery_machine.specs.Node.{Inbound as AnInbound, inbound_at, peer_at, conn_of};
ghost use Rattle.artery_machine.specs.Doing.{in_bytes, inbound_becomes};
ghost use Rattle.artery_machine.specs.Handshaking.{answer_to, is_other, known_as, makes_origin, answers_on, answers, is_asked, drops_or, requested};
ghost use Rattle.artery_meeting.specs.Dropping.{rule_for};

use crate::dialing::writes_answer;
use artery_base::{Address, NoMemory, UniqueAddress};
use artery_frame::Stream;
use artery_handshake::OnReq;
use artery_journal::Rule;
use artery_machine::Answer;
use artery_node::Work;
use artery_peer::dial_asked;

/// The answer to a request of this incarnation: it repeats the UID and the nonce, or has neither where the request had no nonce.
fn answer_to(v: &UniqueAddress, its_nonce: Option<u64>) -> Answer
    ensures { result ≡ answer_to v.now its_nonce }
{
    match its_nonce {
        None => Answer {
            for_uid: None,
            nonce: None,
        },
        Some(nonce) => Answer {
            for_uid: Some(v.uid),
            nonce: Some(nonce),
        },
    }
}

/// Whether an answer is that of another origin.
fn is_other(answer: OnReq) -> bool
    ensures { result ≡ is_other answer }
{
    match answer {
        OnReq::Opened | OnReq::Repeated => false,
        OnReq::OtherOrigin => true,
    }
}

/// The first rule that drops a request, on a connection that would give this answer to it: it is for another address; it is from the own
/// address; it is from another origin, or with another nonce, than the connection is known for; its peer is one too many; its origin is one
/// too many.
fn request_rule(work: &Work, answer: OnReq, v: &UniqueAddress, to: &Address) -> Option<Rule>
    ensures { result ≡ rule_for work.now.node answer v.now to.now }
{
    if *to != work.me().address {
        Some(Rule::NotMe)
    } else if v.address == work.me().address {
        Some(Rule::Itself)
    } else if is_other(answer) {
        Some(Rule::Origin)
    } else if !work.may_have(&v.address) {
        Some(Rule::Peers)
    } else if !work.may_have_origin(v) {
        Some(Rule::Origins)
    } else {
        None
    }
}

/// It is known from the first request on who speaks on an inbound connection.
fn knows(
    work: &mut Work,
    number: u64,
    v: &UniqueAddress,
    its_nonce: Option<u64>,
) -> Result<(), NoMemory>
    ensures { OnOk result (work.new ≡ inbound_becomes number (known_as v.now its_nonce) work.old) }
{
    let copy = v.clone()?;
    work.set_known(number, copy, its_nonce);
    Ok(())
}

/// An origin that is missing is made.
fn makes_origin(work: &mut Work, v: &UniqueAddress) -> Result<(), NoMemory>
    ensures { OnOk result (work.new ≡ makes_origin v.now work.old) }
{
    if work.has_origin(v) {
        return Ok(());
    }
    work.add_origin(v)?;
    Ok(())
}

/// An answer is written on the control connection with this dial number; where there is none it is owed.
fn answers_on(
    work: &mut Work,
    number: u64,
    answer: Answer,
    dial: Option<u64>,
) -> Result<(), NoMemory>
    ensures { OnOk result (work.new ≡ answers_on number answer dial work.old) }
{
    let Some(dial) = dial else {
        work.set_owing(number, answer);
        return Ok(());
    };
    work.set_owes_no_answer(number);
    writes_answer(work, dial, Some(answer))?;
    Ok(())
}

/// A request is answered.
fn answers(
    work: &mut Work,
    number: u64,
    v: &UniqueAddress,
    its_nonce: Option<u64>,
) -> Result<(), NoMemory>
    ensures { OnOk result (work.new ≡ answers number v.now its_nonce work.old) }
{
    let dial = dial_asked(work.conn_at(Stream::Control, &v.address));
    answers_on(work, number, answer_to(v, its_nonce), dial)
}

/// A request is taken: the peer is made where it is missing, and used; it is known who speaks on the connection; the origin is made where it
/// is new; and the request is answered.
fn is_asked(
    work: &mut Work,
    number: u64,
    v: &UniqueAddress,
    its_nonce: Option<u64>,
) -> Result<(), NoMemory>
    ensures { OnOk result (work.new ≡ is_asked number v.now its_nonce work.old) }
{
    work.makes_missing(&v.address)?;
    work.uses(&v.address)?;
    knows(work, number, v, its_nonce)?;
    makes_origin(work, v)?;
    answers(work, number, v, its_nonce)?;
    Ok(())
}

/// A rule drops a request, or it is taken.
fn drops_or_takes(
    work: &mut Work,
    number: u64,
    rule: Option<Rule>,
    v: &UniqueAddress,
    its_nonce: Option<u64>,
) -> Result<(), NoMemory>
    ensures { OnOk result (work.new ≡ drops_or number rule (is_asked number v.now its_nonce) work.old) }
{
    match rule {
        Some(rule) => work.drops(number, rule),
        None => is_asked(work, number, v, its_nonce),
    }
}

/// A handshake request of an incarnation to an address came on the inbound connection with a number: it is dropped by the first rule that
/// does so, or taken and answered. Where there is no such connection, nothing is done.
pub fn requested(
    work: &mut Work,
    number: u64,
    v: &UniqueAddress,
    to: &Address,
    its_nonce: Option<u64>,
) -> Result<(), NoMemory>
    ensures there { (i : AnInbound kept) → inbound_at number work.old.node ≡ Some i → OnOk result (work.new ≡ requested i v.now to.now its_nonce work.old) }
    ensures gone { inbound_at number work.old.node ≡ None → OnOk result (work.new ≡ work.old) }
{
    let Some(inbound) = work.inbound(number) else {
        return Ok(());
    };
    let answer = inbound.request(v, its_nonce);
    let rule = request_rule(work, answer, v, to);
    drops_or_takes(work, number, rule, v, its_nonce)?;
    Ok(())
}
