//! A connection that came in.
ghost use Rattle.std.specs.Prelude.{◌≡◌};
ghost use Rattle.artery_base.specs.declared.address.UniqueAddress.{UniqueAddress};
ghost use Rattle.artery_handshake.specs.Incoming.{same_origin, same_nonce, answer_to_req, state_after_req, RequestedExactly};
ghost use Rattle.artery_handshake.specs.declared.in_conn.InState.TheVariants.{Raw};

use artery_base::UniqueAddress;
use std::marker::Model;

/// Of whom a connection that came in is.
///
/// ```text
///          on_req: Opened
///   Raw ───────────────────► Known
/// ```
///
/// Every other answer leaves the state as it is.
#[derive(Debug, PartialEq, Eq, Drop)]
pub enum InState {
    /// No request came yet.
    Raw,
    /// The first request was from this incarnation, with this nonce.
    Known {
        origin: UniqueAddress,
        nonce: Option<u64>,
    },
}

/// What a handshake request does.
#[derive(Clone, Copy, Debug, PartialEq, Eq)]
pub enum OnReq {
    /// It is the first one, and fixes the origin and the nonce.
    Opened,
    /// It has the same origin and the same nonce as the first. Nothing changed.
    Repeated,
    /// It has another origin or another nonce than the first. Nothing changed.
    OtherOrigin,
}

/// Whether two nonces are the same, or both are absent.
fn same_nonce(one: Option<u64>, other: Option<u64>) -> bool
    ensures { result ≡ same_nonce one other }
{
    match one {
        Some(one) => match other {
            Some(other) => one == other,
            None => false,
        },
        None => other.is_none(),
    }
}

/// Whether two origins are the same.
fn same_origin(one: &UniqueAddress, other: &UniqueAddress) -> bool
    ensures { result ≡ same_origin one.now other.now }
{
    one == other
}

/// A connection that came in. A contract sees its state.
#[derive(Debug, Drop)]
pub struct InConn {
    state: InState,
}

impl Model for InConn {
    ghost use Rattle.artery_handshake.specs.declared.in_conn.InState.{InState};

    ghost Value = { InState };

    ghost view = { λ c. c.state };
}

impl InConn {
    /// A connection on which no request came yet.
    pub fn new() -> InConn
        ensures { result ≡ Raw }
    {
        InConn {
            state: InState::Raw,
        }
    }

    /// Of whom the connection is.
    pub fn state(&self) -> &InState
        ensures { result.now ≡ self.now }
    {
        &self.state
    }

    /// What a request from this origin with this nonce does.
    fn answer_to(&self, origin: &UniqueAddress, nonce: Option<u64>) -> OnReq
        ensures { result ≡ answer_to_req origin.now nonce self.now }
    {
        match &self.state {
            InState::Raw => OnReq::Opened,
            InState::Known {
                origin: known,
                nonce: shown,
            } => {
                if same_origin(known, origin) && same_nonce(*shown, nonce) {
                    OnReq::Repeated
                } else {
                    OnReq::OtherOrigin
                }
            }
        }
    }

    /// A handshake request came from this origin, with this nonce.
    ///
    /// Opened exactly where the connection is Raw: it is then Known to be of this origin, with this nonce. Repeated exactly where it is
    /// Known to be of this very origin with this very nonce, else OtherOrigin: then nothing changes.
    #[tactic(auto, using(crate::proofs::Exactly::requested_exactly))]
    pub fn on_req(&mut self, origin: UniqueAddress, nonce: Option<u64>) -> OnReq
        ensures answer { result ≡ answer_to_req origin nonce self.old }
        ensures state { self.new ≡ state_after_req origin nonce self.old }
        ensures exact { RequestedExactly origin nonce self.old self.new result }
    {
        let answer = self.answer_to(&origin, nonce);
        if let OnReq::Opened = answer {
            self.state = InState::Known { origin, nonce };
        }
        answer
    }
}
