//! Words of lines: what is one of a few things.
ghost use Rattle.std.specs.Prelude.{◌≡◌};
ghost use Rattle.artery_journal_reading.specs.Reading.{kind_told, which_told, cause_told, actor_reason_told, reason_told, peer_rule_told, plain_rule_told};

use artery_journal::{Cause, Kind, Reason, Rule, Which};

pub(crate) fn kind_from(text: &[u8]) -> Option<Kind>
    ensures { result ≡ kind_told text.now }
{
    if text == b"refs".as_slice() {
        return Some(Kind::Refs);
    }
    if text == b"manifests".as_slice() {
        return Some(Kind::Manifests);
    }
    None
}

pub(crate) fn which_from(text: &[u8]) -> Option<Which>
    ensures { result ≡ which_told text.now }
{
    if text == b"sender".as_slice() {
        return Some(Which::Sender);
    }
    if text == b"recipient".as_slice() {
        return Some(Which::Recipient);
    }
    if text == b"manifest".as_slice() {
        return Some(Which::Manifest);
    }
    None
}

pub(crate) fn cause_from(text: &[u8]) -> Option<Cause>
    ensures { result ≡ cause_told text.now }
{
    if text == b"superseded".as_slice() {
        return Some(Cause::Superseded);
    }
    if text == b"quarantined".as_slice() {
        return Some(Cause::Quarantined);
    }
    if text == b"unreachable".as_slice() {
        return Some(Cause::Unreachable);
    }
    if text == b"overflow".as_slice() {
        return Some(Cause::Overflow);
    }
    if text == b"undelivered".as_slice() {
        return Some(Cause::Undelivered);
    }
    None
}

// Why something was refused of an actor, or of an address.
#[tactic(auto, unfolding(crate::specs::Reading::actor_reason_told))]
fn actor_reason_from(text: &[u8]) -> Option<Reason>
    ensures { result ≡ actor_reason_told text.now }
{
    if text == b"exists".as_slice() {
        return Some(Reason::Exists);
    }
    if text == b"actors".as_slice() {
        return Some(Reason::Actors);
    }
    if text == b"not-there".as_slice() {
        return Some(Reason::NotThere);
    }
    if text == b"not-current".as_slice() {
        return Some(Reason::NotCurrent);
    }
    if text == b"closed-uids".as_slice() {
        return Some(Reason::ClosedUids);
    }
    if text == b"remote-watches".as_slice() {
        return Some(Reason::RemoteWatches);
    }
    None
}

#[tactic(auto, unfolding(crate::specs::Reading::reason_told))]
pub(crate) fn reason_from(text: &[u8]) -> Option<Reason>
    ensures { result ≡ reason_told text.now }
{
    if text == b"peers".as_slice() {
        return Some(Reason::Peers);
    }
    if text == b"connections".as_slice() {
        return Some(Reason::Connections);
    }
    if text == b"waiting".as_slice() {
        return Some(Reason::Waiting);
    }
    if text == b"held".as_slice() {
        return Some(Reason::Held);
    }
    if text == b"watching".as_slice() {
        return Some(Reason::Watching);
    }
    if text == b"watches".as_slice() {
        return Some(Reason::Watches);
    }
    if text == b"not-watched".as_slice() {
        return Some(Reason::NotWatched);
    }
    actor_reason_from(text)
}

// A rule about who speaks with whom, which is a word alone.
#[tactic(auto, unfolding(crate::specs::Reading::peer_rule_told))]
fn peer_rule_from(text: &[u8]) -> Option<Rule>
    ensures { result ≡ peer_rule_told text.now }
{
    if text == b"not-me".as_slice() {
        return Some(Rule::NotMe);
    }
    if text == b"from".as_slice() {
        return Some(Rule::From);
    }
    if text == b"self".as_slice() {
        return Some(Rule::Itself);
    }
    if text == b"origin".as_slice() {
        return Some(Rule::Origin);
    }
    if text == b"peers".as_slice() {
        return Some(Rule::Peers);
    }
    if text == b"origins".as_slice() {
        return Some(Rule::Origins);
    }
    if text == b"closed".as_slice() {
        return Some(Rule::Closed);
    }
    if text == b"not-current".as_slice() {
        return Some(Rule::NotCurrent);
    }
    None
}

// A rule that is a word alone.
#[tactic(auto, unfolding(crate::specs::Reading::plain_rule_told))]
pub(crate) fn plain_rule_from(text: &[u8]) -> Option<Rule>
    ensures { result ≡ plain_rule_told text.now }
{
    if text == b"metadata".as_slice() {
        return Some(Rule::Metadata);
    }
    if text == b"bad-magic".as_slice() {
        return Some(Rule::BadMagic);
    }
    if text == b"bad-stream".as_slice() {
        return Some(Rule::BadStream);
    }
    if text == b"too-long".as_slice() {
        return Some(Rule::TooLong);
    }
    if text == b"uid".as_slice() {
        return Some(Rule::Uid);
    }
    if text == b"stream".as_slice() {
        return Some(Rule::Stream);
    }
    if text == b"no-handshake".as_slice() {
        return Some(Rule::NoHandshake);
    }
    if text == b"old-table".as_slice() {
        return Some(Rule::OldTable);
    }
    if text == b"ack-range".as_slice() {
        return Some(Rule::AckRange);
    }
    if text == b"unused".as_slice() {
        return Some(Rule::Unused);
    }
    peer_rule_from(text)
}
