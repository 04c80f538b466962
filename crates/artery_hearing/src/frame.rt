//! What a frame is, and what its message does.
ghost use Rattle.std.specs.Prelude.{◌≡◌, IfOk, OnOk, Some, None};
ghost use Rattle.std.specs.Option.{option_copied, option_map};
ghost use Rattle.artery_control.specs.Valid.{IsValid};
ghost use Rattle.artery_handshake.specs.declared.in_conn.InState.{InState};
ghost use Rattle.artery_journal.specs.declared.line.Line.TheVariants as lines;
ghost use Rattle.artery_machine.specs.Parts.{kept};
ghost use Rattle.artery_machine.specs.Node.{inbound_at, speaker_in};
ghost use Rattle.artery_machine.specs.Doing.{in_bytes, tells_of};
ghost use Rattle.artery_machine.specs.Verdict.{is_shut, judged, tables_for};
ghost use Rattle.artery_machine.specs.Hearing.{hears_beat, beats_back, noticed, controlled, drops_closed, by_speaker, hears};
ghost use Rattle.artery_verdict.specs.Heard.{content_told, frame_heard, IsSaid};
ghost use Rattle.artery_verdict.specs.Good.{IsGood};
ghost use Rattle.artery_hearing.specs.Heard.{requested_on, spoken_on, speaks, handles_on, heard_with, heard_on, heard_where, origin_in};

use crate::messages::{acked, nacked, numbered};
use crate::ordinary::got;
use crate::tables::{confirms, table_number, tabled};
use artery_base::{Address, NoMemory, UniqueAddress};
use artery_control::Control;
use artery_frame::Stream;
use artery_handshake::InState;
use artery_journal::{Kind, Line, Rule};
use artery_meeting::{answered, requested};
use artery_node::Work;
use artery_peer::Origin;
use artery_tables::InTables;
use artery_verdict::{Content, NotSaid, content_in, is_handshake, is_told_closed};

// ---- other control messages

/// The answer to a heartbeat counts for the current incarnation, where an actor at its address is watched.
fn hears_beat(work: &mut Work, v: &UniqueAddress)
    ensures { work.new ≡ hears_beat v.now work.old }
{
    if !(work.is_now(v) && work.watches_at(&v.address)) {
        return;
    }
    work.heard_at(&v.address);
}

/// A heartbeat is answered with the own UID.
fn beats_back(work: &mut Work, v: &UniqueAddress) -> Result<(), NoMemory>
    ensures { OnOk result (work.new ≡ beats_back v.now work.old) }
{
    let uid = work.me().uid;
    work.on_control(v, Control::HeartbeatRsp { uid })
}

/// It is told that an incarnation has closed this one.
fn tells_notice(work: &mut Work, v: &UniqueAddress) -> Result<(), NoMemory>
    ensures { OnOk result (work.new ≡ tells_of (λ me. lines.Notice me v.now) work.old) }
{
    let of = work.me().clone()?;
    let other = v.clone()?;
    work.tell(Line::Notice { of, other })
}

/// The notice that an incarnation closed this one is told; that it closed another one is dropped.
fn noticed(
    work: &mut Work,
    conn: u64,
    v: &UniqueAddress,
    to: &UniqueAddress,
) -> Result<(), NoMemory>
    ensures { OnOk result (work.new ≡ noticed conn v.now to.now work.old) }
{
    if *to != *work.me() {
        return work.drops(conn, Rule::NotMe);
    }
    tells_notice(work, v)
}

// ---- the kinds of control messages

/// What a control message of a known origin does.
fn controlled(
    work: &mut Work,
    conn: u64,
    v: &UniqueAddress,
    control: Control,
) -> Result<(), NoMemory>
    requires { IsValid control }
    ensures { OnOk result (work.new ≡ controlled conn v.now control work.old) }
{
    match control {
        Control::Quarantined { to, .. } => noticed(work, conn, v, &to),
        Control::Terminating { .. } | Control::TerminatingAck { .. } => {
            work.drops(conn, Rule::Unused)
        }
        Control::HandshakeReq { .. } | Control::HandshakeRsp { .. } => Ok(()),
        Control::RefsTable {
            origin_uid,
            version,
            keys,
            values,
            sequence,
            ..
        } => {
            work.uses(&v.address)?;
            let number = table_number(version, sequence);
            tabled(work, conn, v, Kind::Refs, origin_uid, number, keys, values)
        }
        Control::RefsAck {
            version,
            sequence,
            ..
        } => confirms(work, conn, v, Kind::Refs, table_number(version, sequence)),
        Control::ManifestsTable {
            origin_uid,
            version,
            keys,
            values,
            sequence,
            ..
        } => {
            work.uses(&v.address)?;
            let number = table_number(version, sequence);
            tabled(
                work,
                conn,
                v,
                Kind::Manifests,
                origin_uid,
                number,
                keys,
                values,
            )
        }
        Control::ManifestsAck {
            version,
            sequence,
            ..
        } => confirms(
            work,
            conn,
            v,
            Kind::Manifests,
            table_number(version, sequence),
        ),
        Control::Numbered { n, message, .. } => {
            work.uses(&v.address)?;
            numbered(work, v, n, message)
        }
        Control::Ack { n, .. } => acked(work, conn, v, n),
        Control::Nack { n, .. } => nacked(work, conn, v, n),
        Control::Heartbeat => {
            work.uses(&v.address)?;
            beats_back(work, v)
        }
        Control::HeartbeatRsp { .. } => {
            hears_beat(work, v);
            Ok(())
        }
    }
}

// ---- what is said

/// A message of a closed incarnation is dropped. Where it is one that is answered, the incarnation is told that it is closed.
fn drops_closed(
    work: &mut Work,
    conn: u64,
    v: &UniqueAddress,
    content: &Content<'_>,
) -> Result<(), NoMemory>
    ensures { OnOk result (work.new ≡ drops_closed conn v.now (content_told content.now) work.old) }
{
    work.drops(conn, Rule::Closed)?;
    if !is_told_closed(content) {
        return Ok(());
    }
    work.quarantines(v)
}

/// What a message of a known origin does on a connection with this nonce.
fn spoken(
    work: &mut Work,
    conn: u64,
    nonce: Option<u64>,
    v: &UniqueAddress,
    content: Content<'_>,
) -> Result<(), NoMemory>
    requires { IsGood content }
    ensures { OnOk result (work.new ≡ spoken_on conn nonce v.now (content_told content.entry) work.old) }
{
    match content {
        Content::Ordinary { envelope, message } => {
            work.uses(&v.address)?;
            got(work, conn, nonce, v, envelope, message)
        }
        Content::Control(control) => controlled(work, conn, v, control),
    }
}

/// What a message does of the origin that is known to speak on a connection. Nobody speaks on one that is not known.
fn speaks(work: &mut Work, conn: u64, state: &InState, content: Content<'_>) -> Result<(), NoMemory>
    requires { IsGood content }
    ensures { OnOk result (work.new ≡ speaks conn state.now (content_told content.entry) work.old) }
{
    match state {
        InState::Raw => Ok(()),
        InState::Known { origin, nonce } => spoken(work, conn, *nonce, origin, content),
    }
}

/// A handshake request on the connection with this number, where that is there.
#[tactic(auto, using(crate::proofs::Same::requested_so))]
fn meets(
    work: &mut Work,
    conn: u64,
    v: &UniqueAddress,
    to: &Address,
    nonce: Option<u64>,
) -> Result<(), NoMemory>
    ensures { OnOk result (work.new ≡ requested_on v.now to.now nonce (inbound_at conn work.old.node) work.old) }
{
    requested(work, conn, v, to, nonce)?;
    Ok(())
}

/// What a message does: a handshake request, an answer to one, or what a known origin says.
fn handles(
    work: &mut Work,
    conn: u64,
    state: &InState,
    content: Content<'_>,
) -> Result<(), NoMemory>
    requires { IsGood content }
    ensures { OnOk result (work.new ≡ handles_on conn state.now (content_told content.entry) work.old) }
{
    match content {
        Content::Control(Control::HandshakeReq { from, to, nonce }) => {
            meets(work, conn, &from, &to, nonce)
        }
        Content::Control(
            Control::HandshakeRsp {
                from,
                for_uid,
                nonce,
            },
        ) => answered(work, &from, for_uid, nonce),
        content => speaks(work, conn, state, content),
    }
}

/// A message of a closed incarnation on a connection.
fn of_closed(
    work: &mut Work,
    conn: u64,
    state: &InState,
    content: &Content<'_>,
) -> Result<(), NoMemory>
    ensures { OnOk result (work.new ≡ by_speaker (speaker_in state.now) (λ v. drops_closed conn v (content_told content.now)) work.old) }
{
    match state {
        InState::Raw => Ok(()),
        InState::Known { origin, .. } => drops_closed(work, conn, origin, content),
    }
}

/// Whether the origin that is known on a connection was closed.
fn is_shut(work: &Work, state: &InState) -> bool
    ensures { result ≡ is_shut work.now.node (speaker_in state.now) }
{
    match state {
        InState::Raw => false,
        InState::Known { origin, .. } => work.has_closed(origin),
    }
}

/// What a frame does by what it says. Of a closed origin all but a handshake is dropped.
fn says(work: &mut Work, conn: u64, state: &InState, content: Content<'_>) -> Result<(), NoMemory>
    requires { IsGood content }
    ensures { OnOk result (work.new ≡ heard_with conn state.now (judged (is_shut work.old.node (speaker_in state.now)) (Ok (content_told content.entry))) work.old) }
{
    if is_shut(work, state) && !is_handshake(&content) {
        return of_closed(work, conn, state, &content);
    }
    handles(work, conn, state, content)
}

// ---- what a frame is

/// The origin that is known to speak on a connection, where the node has it.
fn origin_in<'w>(work: &'w Work, state: &InState) -> Option<&'w Origin>
    ensures { option_copied result ≡ origin_in state.now work.now.node }
{
    match state {
        InState::Raw => None,
        InState::Known { origin, .. } => work.origin(origin),
    }
}

/// What a frame says on a connection in this state, or the first rule that drops it: by the tables that were announced to its origin.
#[tactic(auto, using(crate::proofs::Same::tables_so))]
fn said<'f>(
    work: &Work,
    stream: Option<Stream>,
    state: &InState,
    frame: &'f [u8],
) -> Result<Content<'f>, NotSaid>
    ensures said { IsSaid result (frame_heard state.now stream (tables_for state.now work.now.node) frame.now) }
    ensures good { IfOk result IsGood }
{
    let none = InTables::new();
    let (refs, manifests) = match origin_in(work, state) {
        None => (&none, &none),
        Some(origin) => origin.tables(),
    };
    content_in(work.alloc(), stream, state, refs, manifests, frame)
}

/// A frame on a connection with this number, on which this is known.
fn heard_on(
    work: &mut Work,
    conn: u64,
    state: &InState,
    stream: Option<Stream>,
    frame: &[u8],
) -> Result<(), NoMemory>
    ensures { OnOk result (work.new ≡ heard_on conn state.now stream frame.now work.old) }
{
    match said(work, stream, state, frame) {
        Ok(content) => says(work, conn, state, content),
        Err(NotSaid::Dropped(rule)) => work.drops(conn, rule),
        Err(NotSaid::NoMemory) => Err(NoMemory),
    }
}

/// What is known on the connection with this number, where that is there.
fn state_of(work: &Work, conn: u64) -> Result<Option<InState>, NoMemory>
    ensures { IfOk result (λ state. state ≡ option_map (λ i. i.state) (inbound_at conn work.now.node)) }
{
    let Some(inbound) = work.inbound(conn) else {
        return Ok(None);
    };
    match inbound.state() {
        InState::Raw => Ok(Some(InState::Raw)),
        InState::Known { origin, nonce } => {
            let origin = origin.clone()?;
            Ok(Some(InState::Known {
                origin,
                nonce: *nonce,
            }))
        }
    }
}

/// A frame came on the inbound connection with a number, on this stream: where that is still there, it is dropped by the first rule for which
/// it must be, or what it says is done.
#[tactic(auto, using(crate::proofs::Same::heard_so))]
pub fn hears(
    work: &mut Work,
    conn: u64,
    stream: Option<Stream>,
    frame: &[u8],
) -> Result<(), NoMemory>
    ensures { OnOk result (work.new ≡ hears conn stream frame.now work.old) }
{
    let state = state_of(work, conn)?;
    heard_where(work, conn, &state, stream, frame)?;
    Ok(())
}

/// A frame on a connection that may be gone.
fn heard_where(
    work: &mut Work,
    conn: u64,
    state: &Option<InState>,
    stream: Option<Stream>,
    frame: &[u8],
) -> Result<(), NoMemory>
    ensures { OnOk result (work.new ≡ heard_where conn state.now stream frame.now work.old) }
{
    match state {
        None => Ok(()),
        Some(state) => heard_on(work, conn, state, stream, frame),
    }
}
