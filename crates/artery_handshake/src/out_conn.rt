//! A connection that this node dialed.
ghost use Rattle.std.specs.Prelude.{◌≡◌, ◌↔◌, ◌+◌, nat_le};
ghost use Rattle.artery_handshake.specs.Outgoing.{is_meant, is_dialing, conn_dialed, answer_to_rsp, conn_answered, answer_to_tick, conn_ticked, DialedExactly, AnsweredExactly, TickedExactly};

use artery_frame::Stream;

/// From so many milliseconds after it last asked on, a connection asks again.
const ASK_AGAIN_AFTER_MS: u64 = 1_000;

/// From so many milliseconds after it first asked on, a connection is given up.
const GIVE_UP_AFTER_MS: u64 = 20_000;

/// How far the handshake of a connection that this node dialed has come. Moments are in milliseconds.
///
/// ```text
///             on_dialed              on_rsp: Bind
///   Dialing ─────────────► Asked ────────────────────► Bound
///                          │   ▲
///                          └───┘ on_tick: AskAgain
/// ```
///
/// Every other answer leaves the state as it is. After `GiveUp` it is for the owner to hang up.
#[derive(Clone, Copy, Debug, PartialEq, Eq)]
pub enum OutState {
    /// It is not up yet.
    Dialing,
    /// The far side was asked who it is, first at `begun` and last at `last`.
    Asked { begun: u64, last: u64 },
    /// The far side answered, and is the incarnation with this UID.
    Bound { uid: u64 },
}

/// A connection that this node dialed: the number of the dial, which is also the nonce of its requests, what it carries, and its state.
#[derive(Clone, Copy, Debug, PartialEq, Eq)]
pub struct OutConn {
    pub dial: u64,
    pub stream: Stream,
    pub state: OutState,
}

/// What an answer to a handshake request does.
#[derive(Clone, Copy, Debug, PartialEq, Eq)]
pub enum OnRsp {
    /// The connection is bound to this UID from now on.
    Bind { uid: u64 },
    /// It was bound to the sender before. Nothing changed.
    Repeat,
    /// The answer is not for this connection, or it was bound to another UID, or it did not ask yet. Nothing changed.
    Stray,
}

/// What is to be done as time goes by.
#[derive(Clone, Copy, Debug, PartialEq, Eq)]
pub enum OnTick {
    /// Nothing.
    Nothing,
    /// The far side is to be asked once more.
    AskAgain,
    /// The far side has not answered in time: the connection is to be hung up. Nothing changed.
    GiveUp,
}

/// Whether a moment is at least so many milliseconds after an earlier one.
fn is_past(earlier: u64, span: u64, now: u64) -> bool
    ensures { result ≡ nat_le (earlier + span) now }
{
    now >= earlier && now - earlier >= span
}

/// Whether an answer with these fields is meant for the connection with this dial number: both fields are there and are the own UID and the
/// dial number, or not both are there.
fn is_meant(me: u64, dial: u64, for_uid: Option<u64>, nonce: Option<u64>) -> bool
    ensures { result ≡ is_meant me dial for_uid nonce }
{
    match for_uid {
        Some(uid) => match nonce {
            Some(nonce) => uid == me && nonce == dial,
            None => true,
        },
        None => true,
    }
}

impl OutConn {
    /// The connection is up: true exactly in Dialing, which becomes Asked at this moment. Else nothing changes.
    #[tactic(auto, using(crate::proofs::Exactly::dialed_exactly))]
    pub fn on_dialed(&mut self, now: u64) -> bool
        ensures answer { result ≡ is_dialing self.old }
        ensures conn { self.new ≡ conn_dialed now self.old }
        ensures exact { DialedExactly now self.old self.new result }
    {
        let OutState::Dialing = self.state else {
            return false;
        };
        self.state = OutState::Asked {
            begun: now,
            last: now,
        };
        true
    }

    /// What an answer from the UID `from`, with these two fields, does to this connection of the node with the UID `me`.
    fn answer_to(&self, me: u64, from: u64, for_uid: Option<u64>, nonce: Option<u64>) -> OnRsp
        ensures { result ≡ answer_to_rsp me from for_uid nonce self.now }
    {
        let meant = is_meant(me, self.dial, for_uid, nonce);
        match self.state {
            OutState::Asked { .. } if meant => OnRsp::Bind { uid: from },
            OutState::Bound { uid } if meant && uid == from => OnRsp::Repeat,
            _ => OnRsp::Stray,
        }
    }

    /// An answer came from the UID `from`, to the node with the UID `me`. The answer is meant for this connection where it bears the UID
    /// `me` and this dial number, or where it lacks one of the two fields.
    ///
    /// Bind exactly where the connection is Asked and the answer is meant for it: it is then bound to `from`. Repeat exactly where it is
    /// bound to `from` already and the answer is meant for it. Else Stray. At Repeat and Stray nothing changes.
    #[tactic(auto, using(crate::proofs::Exactly::answered_exactly))]
    pub fn on_rsp(&mut self, me: u64, from: u64, for_uid: Option<u64>, nonce: Option<u64>) -> OnRsp
        ensures answer { result ≡ answer_to_rsp me from for_uid nonce self.old }
        ensures conn { self.new ≡ conn_answered me from for_uid nonce self.old }
        ensures exact { AnsweredExactly me from for_uid nonce self.old self.new result }
    {
        let answer = self.answer_to(me, from, for_uid, nonce);
        if let OnRsp::Bind { uid } = answer {
            self.state = OutState::Bound { uid };
        }
        answer
    }

    /// What is to be done at this moment.
    fn due(&self, now: u64) -> OnTick
        ensures { result ≡ answer_to_tick now self.now }
    {
        match self.state {
            OutState::Asked { begun, last } => {
                if is_past(begun, GIVE_UP_AFTER_MS, now) {
                    OnTick::GiveUp
                } else if is_past(last, ASK_AGAIN_AFTER_MS, now) {
                    OnTick::AskAgain
                } else {
                    OnTick::Nothing
                }
            }
            OutState::Dialing | OutState::Bound { .. } => OnTick::Nothing,
        }
    }

    /// Time went by. In Asked: GiveUp exactly from 20,000 ms after the first request on, else AskAgain exactly from 1,000 ms after the last
    /// one on, which then counts as asked at this moment. Else, and in every other state, Nothing. But for AskAgain nothing changes.
    #[tactic(auto, using(crate::proofs::Exactly::ticked_exactly))]
    pub fn on_tick(&mut self, now: u64) -> OnTick
        ensures answer { result ≡ answer_to_tick now self.old }
        ensures conn { self.new ≡ conn_ticked now self.old }
        ensures exact { TickedExactly now self.old self.new result }
    {
        let due = self.due(now);
        if let (OnTick::AskAgain, OutState::Asked { begun, .. }) = (due, self.state) {
            self.state = OutState::Asked { begun, last: now };
        }
        due
    }
}
