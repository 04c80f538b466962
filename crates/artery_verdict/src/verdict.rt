//! What a frame says, by the rules in their order.
ghost use Rattle.std.specs.Prelude.{◌≡◌, is_some, IfOk};
ghost use Rattle.std.specs.Option.{option_map};
ghost use Rattle.artery_base.specs.Words.{Shows};
ghost use Rattle.artery_codec.specs.Meaning.{HasAsciiNames, meaning};
ghost use Rattle.artery_control.specs.Message.{message_of};
ghost use Rattle.artery_header.specs.Envelope.{HasTexts, envelope_of};
ghost use Rattle.artery_machine.specs.Parts.{kept};
ghost use Rattle.artery_machine.specs.Node.{Node, Inbound, speaker_in};
ghost use Rattle.artery_machine.specs.Verdict.{is_control_serializer, is_request_letter, belongs_on, belongs, control_read, content_of, is_handshake, speaker_of, uid_said, agrees_with, is_the_known, is_from, is_uid_of, meaning_or_rule, meant, said_by, tables_for, content_in};
ghost use Rattle.artery_machine.specs.Hearing.{is_told_closed};
ghost use Rattle.artery_verdict.specs.Good.{IsGood};
ghost use Rattle.artery_verdict.specs.Heard.{content_told, tell_meaning, IsSaid, envelope_heard, frame_heard};

use crate::content::{Content, NotSaid};
use crate::words::{codec_rule, control_word, header_rule};
use artery_base::{Bytes, NoMemory, Tell, Text, UniqueAddress};
use artery_codec::{Message, message_of};
use artery_control::{Control, ControlFault, read_control};
use artery_frame::Stream;
use artery_handshake::InState;
use artery_header::{Envelope, read_envelope};
use artery_journal::Rule;
use artery_tables::InTables;
use std::alloc::Global;

/// Control messages have this serializer.
const CONTROL_SERIALIZER: i32 = 17;

// ---- the stream

/// Whether it is the serializer of control messages.
fn is_control_serializer(serializer: i32) -> bool
    ensures { result ≡ is_control_serializer serializer }
{
    serializer == CONTROL_SERIALIZER
}

/// Whether it is the manifest of a handshake request.
fn is_request_letter(manifest: &[u8]) -> bool
    ensures { result ≡ is_request_letter manifest.now }
{
    manifest == b"d".as_slice()
}

/// Whether a message belongs on a stream.
fn belongs_on(stream: Stream, message: &Message<'_>) -> bool
    ensures { result ≡ belongs_on stream (meaning message.now) }
{
    match stream {
        Stream::Control => is_control_serializer(message.serializer),
        Stream::Ordinary => {
            !is_control_serializer(message.serializer) || is_request_letter(message.manifest)
        }
    }
}

/// The same where no stream is known, which never is so once a frame came.
fn belongs(stream: Option<Stream>, message: &Message<'_>) -> bool
    ensures { result ≡ belongs stream (meaning message.now) }
{
    match stream {
        None => true,
        Some(stream) => belongs_on(stream, message),
    }
}

// ---- the content

/// What a control message says, or the rule for its fault.
fn control_content<'f>(
    alloc: Global,
    manifest: &[u8],
    payload: &[u8],
) -> Result<Content<'f>, NotSaid>
    ensures said { IsSaid result (control_read (message_of manifest.now payload.now)) }
    ensures good { IfOk result IsGood }
{
    match read_control(alloc, manifest, payload) {
        Ok(control) => Ok(Content::Control(control)),
        Err(ControlFault::NoMemory) => Err(NotSaid::NoMemory),
        Err(fault) => Err(NotSaid::Dropped(Rule::Control {
            fault: control_word(fault),
        })),
    }
}

/// An ordinary message, its texts and its payload copied.
fn tell_of(alloc: Global, message: &Message<'_>) -> Result<Tell, NoMemory>
    requires { HasAsciiNames (meaning message.now) }
    ensures { IfOk result (λ tell. tell_meaning message.now.uid tell ≡ meaning message.now) }
{
    Ok(Tell {
        sender: Text::from_ascii(alloc, message.sender)?,
        recipient: Text::from_ascii(alloc, message.recipient)?,
        serializer: message.serializer,
        manifest: Text::from_ascii(alloc, message.manifest)?,
        payload: Bytes::from_slice(alloc, message.payload)?,
    })
}

/// What a message says: by its serializer a control message, or else an ordinary one.
fn content_of<'f>(
    alloc: Global,
    envelope: Envelope<'f>,
    message: &Message<'_>,
) -> Result<Content<'f>, NotSaid>
    requires ascii { HasAsciiNames (meaning message.now) }
    requires uid { message.now.uid ≡ envelope.uid }
    requires texts { HasTexts (envelope_of envelope) }
    ensures said { IsSaid result (content_of (envelope_of envelope.entry) (meaning message.now)) }
    ensures good { IfOk result IsGood }
{
    if is_control_serializer(message.serializer) {
        return control_content(alloc, message.manifest, message.payload);
    }
    let message = tell_of(alloc, message)?;
    Ok(Content::Ordinary { envelope, message })
}

// ---- who speaks

/// Whether it is a handshake request or its answer.
pub fn is_handshake(content: &Content<'_>) -> bool
    ensures { result ≡ is_handshake (content_told content.now) }
{
    match content {
        Content::Control(Control::HandshakeReq { .. } | Control::HandshakeRsp { .. }) => true,
        _ => false,
    }
}

/// Whether a message of a closed incarnation is answered.
pub fn is_told_closed(content: &Content<'_>) -> bool
    ensures { result ≡ is_told_closed (content_told content.now) }
{
    match content {
        Content::Ordinary { .. } => true,
        Content::Control(control) => match control {
            Control::RefsTable { .. }
            | Control::RefsAck { .. }
            | Control::ManifestsTable { .. }
            | Control::ManifestsAck { .. }
            | Control::Numbered { .. }
            | Control::Ack { .. }
            | Control::Nack { .. } => true,
            _ => false,
        },
    }
}

/// Who says that it speaks, where a message says so.
fn speaker_of(control: &Control) -> Option<&UniqueAddress>
    ensures { option_map (λ v. v.now) result ≡ speaker_of control.now }
{
    match control {
        Control::Quarantined { from, .. }
        | Control::Terminating { from }
        | Control::TerminatingAck { from }
        | Control::HandshakeReq { from, .. }
        | Control::HandshakeRsp { from, .. }
        | Control::RefsTable { from, .. }
        | Control::RefsAck { from, .. }
        | Control::ManifestsTable { from, .. }
        | Control::ManifestsAck { from, .. }
        | Control::Ack { from, .. }
        | Control::Nack { from, .. } => Some(from),
        Control::Numbered { reply_to, .. } => Some(reply_to),
        Control::Heartbeat | Control::HeartbeatRsp { .. } => None,
    }
}

/// Whether somebody is known to speak on a connection.
fn is_known(state: &InState) -> bool
    ensures { result ≡ is_some (speaker_in state.now) }
{
    match state {
        InState::Raw => false,
        InState::Known { .. } => true,
    }
}

/// The UID that a message says is its sender's, where it says so.
fn uid_said(control: &Control, speaker: Option<&UniqueAddress>) -> Option<u64>
    ensures { result ≡ uid_said control.now (option_map (λ v. v.now) speaker.entry) }
{
    match control {
        Control::HeartbeatRsp { uid } => Some(*uid),
        _ => match speaker {
            None => None,
            Some(who) => Some(who.uid),
        },
    }
}

/// Whether a UID is that one, where there is one.
fn agrees_with(uid: u64, said: Option<u64>) -> bool
    ensures { result ≡ agrees_with uid said }
{
    match said {
        None => true,
        Some(said) => said == uid,
    }
}

/// Whether a speaker is the origin that is known on the connection, where both are there.
fn is_the_known(state: &InState, speaker: Option<&UniqueAddress>) -> bool
    ensures { result ≡ is_the_known state.now (option_map (λ v. v.now) speaker.entry) }
{
    match state {
        InState::Raw => true,
        InState::Known { origin, .. } => match speaker {
            None => true,
            Some(who) => *who == *origin,
        },
    }
}

/// Whether a message comes from the one that it says.
fn is_from(uid: u64, state: &InState, content: &Content<'_>) -> bool
    ensures { result ≡ is_from uid state.now (content_told content.now) }
{
    match content {
        Content::Ordinary { .. } => true,
        Content::Control(control) => {
            let speaker = speaker_of(control);
            agrees_with(uid, uid_said(control, speaker)) && is_the_known(state, speaker)
        }
    }
}

/// Whether the UID of a header is that of the origin, where one is known.
fn is_uid_of(state: &InState, uid: u64) -> bool
    ensures { result ≡ is_uid_of state.now uid }
{
    match state {
        InState::Raw => true,
        InState::Known { origin, .. } => uid == origin.uid,
    }
}

// ---- the rules in their order

/// What an envelope means by these tables, or the rule for a name that means nothing.
#[tactic(auto, using(crate::proofs::Meanings::uid_stays))]
fn meant<'a>(
    envelope: Envelope<'a>,
    refs: &'a InTables,
    manifests: &'a InTables,
) -> Result<Message<'a>, Rule>
    ensures said { Shows meaning result (meaning_or_rule (meant kept (record { refs = refs.now; manifests = manifests.now }) (envelope_of envelope.entry))) }
    ensures ascii { HasTexts (envelope_of envelope.entry) → IfOk result (λ m. HasAsciiNames (meaning m)) }
    ensures uid { IfOk result (λ m. m.uid ≡ envelope.entry.uid) }
{
    match message_of(envelope, refs, manifests) {
        Ok(message) => Ok(message),
        Err(rule) => Err(codec_rule(rule)),
    }
}

/// The rule that drops what was read. It is let go here, once.
fn dropped<'f>(content: Content<'f>, rule: Rule) -> Result<Content<'f>, NotSaid>
    ensures { result ≡ Err (NotSaid.Dropped rule) }
{
    drop(content);
    Err(NotSaid::Dropped(rule))
}

/// What an envelope with its meaning says on a connection, or the first rule that drops it.
#[tactic(auto, unfolding(artery_machine::specs::Verdict::said_by))]
fn said_by<'f>(
    alloc: Global,
    stream: Option<Stream>,
    state: &InState,
    refs: &InTables,
    manifests: &InTables,
    envelope: Envelope<'f>,
) -> Result<Content<'f>, NotSaid>
    requires { HasTexts (envelope_of envelope) }
    ensures said { IsSaid result (said_by state.now stream (envelope_of envelope.entry) (meaning_or_rule (meant kept (record { refs = refs.now; manifests = manifests.now }) (envelope_of envelope.entry)))) }
    ensures good { IfOk result IsGood }
{
    let message = meant(envelope, refs, manifests)?;
    if !belongs(stream, &message) {
        return Err(NotSaid::Dropped(Rule::Stream));
    }
    let content = content_of(alloc, envelope, &message)?;
    if !(is_known(state) || is_handshake(&content)) {
        return dropped(content, Rule::NoHandshake);
    }
    if !is_from(envelope.uid, state, &content) {
        return dropped(content, Rule::From);
    }
    Ok(content)
}

/// What an envelope says; one whose UID is not the origin's is dropped before its names are read.
fn envelope_said<'f>(
    alloc: Global,
    stream: Option<Stream>,
    state: &InState,
    refs: &InTables,
    manifests: &InTables,
    envelope: Envelope<'f>,
) -> Result<Content<'f>, NotSaid>
    requires { HasTexts (envelope_of envelope) }
    ensures said { IsSaid result (envelope_heard state.now stream (record { refs = refs.now; manifests = manifests.now }) (envelope_of envelope.entry)) }
    ensures good { IfOk result IsGood }
{
    if !is_uid_of(state, envelope.uid) {
        return Err(NotSaid::Dropped(Rule::Uid));
    }
    said_by(alloc, stream, state, refs, manifests, envelope)
}

/// What a frame says; one that is no envelope is dropped for its fault.
fn frame_said<'f>(
    alloc: Global,
    stream: Option<Stream>,
    state: &InState,
    refs: &InTables,
    manifests: &InTables,
    frame: &'f [u8],
) -> Result<Content<'f>, NotSaid>
    ensures said { IsSaid result (frame_heard state.now stream (record { refs = refs.now; manifests = manifests.now }) frame.now) }
    ensures good { IfOk result IsGood }
{
    match read_envelope(frame) {
        Ok(envelope) => envelope_said(alloc, stream, state, refs, manifests, envelope),
        Err(fault) => Err(NotSaid::Dropped(header_rule(fault))),
    }
}

/// What a frame says on this stream of a connection in this state, by the tables of references and of manifests that were announced to its
/// origin; else the first rule that drops it: the frame is no envelope, its UID is not the origin's, a name means nothing, it does not
/// belong on the stream, it is no control message, nobody is known to speak yet and it is no handshake, it is not from the one that it says.
///
/// `said` says so by the state and the tables, and `machine` for every node and each of its connections that have these. What is said is
/// good: a control message is valid, and the names of an envelope are ASCII. The texts and the payload of an ordinary message are copied once; want of memory is `NoMemory`.
#[tactic(auto, using(crate::proofs::Heard::said_in))]
pub fn content_in<'f>(
    alloc: Global,
    stream: Option<Stream>,
    state: &InState,
    refs: &InTables,
    manifests: &InTables,
    frame: &'f [u8],
) -> Result<Content<'f>, NotSaid>
    ensures said { IsSaid result (frame_heard state.now stream (record { refs = refs.now; manifests = manifests.now }) frame.now) }
    ensures machine { (n : Node kept) (i : Inbound kept) → i.state ≡ state.now → tables_for i.state n ≡ (record { refs = refs.now; manifests = manifests.now }) → IsSaid result (content_in stream n i frame.now) }
    ensures good { IfOk result IsGood }
{
    frame_said(alloc, stream, state, refs, manifests, frame)
}
