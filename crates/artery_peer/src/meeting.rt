//! What the handshake changes at a peer, at an inbound connection and at an origin.
ghost use Rattle.std.specs.Prelude.{◌≡◌, IfOk, None, false};
ghost use Rattle.artery_assoc.specs.Peer.{learning};
ghost use Rattle.artery_assoc.specs.declared.peer.Learn.TheVariants.{Learnt};
ghost use Rattle.artery_delivery.specs.Outbound.{kept_message};
ghost use Rattle.artery_handshake.specs.Outgoing.{is_dialing, conn_dialed, conn_answered};
ghost use Rattle.artery_handshake.specs.Incoming.{same_nonce, answer_to_req};
ghost use Rattle.artery_machine.specs.Parts.{kept};
ghost use Rattle.artery_machine.specs.Node.{current_of, conn_of, with_link};
ghost use Rattle.artery_machine.specs.Handshaking.{change_conn, waits_for_dial, answer_on, owes_no_answer, known_as, owing, with_learnt, owes_no_ack, ordinary_dial};

use crate::connection::dial_of;
use crate::inbound::Inbound;
use crate::origin::Origin;
use crate::peer::Peer;
use artery_assoc::Learn;
use artery_base::{NoMemory, SysMsg, UniqueAddress};
use artery_frame::Stream;
use artery_handshake::{InState, OnReq, OnRsp, OutConn, OutState};
use artery_machine::{Answer, Link};

// ---- own connections

/// Whether a connection is not up yet.
fn is_dialing(conn: OutConn) -> bool
    ensures { result ≡ is_dialing conn }
{
    match conn.state {
        OutState::Dialing => true,
        OutState::Asked { .. } | OutState::Bound { .. } => false,
    }
}

/// The connection is up at this moment, where there is one.
fn link_dialed(now: u64, link: Link) -> Link
    ensures { result ≡ change_conn (conn_dialed now) link }
{
    let Some(mut conn) = link.conn else {
        return link;
    };
    let _first = conn.on_dialed(now);
    Link {
        conn: Some(conn),
        redial: link.redial,
    }
}

/// The connection takes an answer from the UID `from` to the node with the UID `me`, where there is one.
fn link_answered(
    me: u64,
    from: u64,
    for_uid: Option<u64>,
    its_nonce: Option<u64>,
    link: Link,
) -> Link
    ensures { result ≡ change_conn (conn_answered me from for_uid its_nonce) link }
{
    let Some(mut conn) = link.conn else {
        return link;
    };
    let _answer = conn.on_rsp(me, from, for_uid, its_nonce);
    Link {
        conn: Some(conn),
        redial: link.redial,
    }
}

/// What an answer of the incarnation is to a connection of the node with the UID `me`, where there is one.
pub fn answer_on(
    me: u64,
    v: &UniqueAddress,
    for_uid: Option<u64>,
    its_nonce: Option<u64>,
    conn: Option<OutConn>,
) -> OnRsp
    ensures { result ≡ answer_on me v.now for_uid its_nonce conn }
{
    match conn {
        None => OnRsp::Stray,
        Some(mut conn) => conn.on_rsp(me, v.uid, for_uid, its_nonce),
    }
}

impl Peer {
    /// Whether its connection that carries this is not up yet.
    pub fn waits_for_dial(&self, stream: Stream) -> bool
        ensures { result ≡ waits_for_dial (conn_of stream self.now) }
    {
        match self.conn(stream) {
            None => false,
            Some(conn) => is_dialing(conn),
        }
    }

    /// Its connection that carries this is up at this moment, where there is one.
    pub fn set_dialed(&mut self, stream: Stream, now: u64)
        ensures { self.new ≡ with_link stream (change_conn (conn_dialed now)) self.old }
    {
        match stream {
            Stream::Control => self.control = link_dialed(now, self.control),
            Stream::Ordinary => self.ordinary = link_dialed(now, self.ordinary),
        }
    }

    /// Its connection that carries this takes an answer from the UID `from` to the node with the UID `me`, where there is one.
    pub fn set_answered(
        &mut self,
        stream: Stream,
        me: u64,
        from: u64,
        for_uid: Option<u64>,
        its_nonce: Option<u64>,
    )
        ensures { self.new ≡ with_link stream (change_conn (conn_answered me from for_uid its_nonce)) self.old }
    {
        match stream {
            Stream::Control => {
                self.control = link_answered(me, from, for_uid, its_nonce, self.control);
            }
            Stream::Ordinary => {
                self.ordinary = link_answered(me, from, for_uid, its_nonce, self.ordinary);
            }
        }
    }

    /// The dial number of its ordinary connection, where the incarnation is current.
    pub fn ordinary_dial(&self, v: &UniqueAddress) -> Option<u64>
        ensures { result ≡ ordinary_dial v.now self.now }
    {
        match self.current() {
            None => None,
            Some(current) => {
                if current == v.uid {
                    dial_of(self.ordinary.conn)
                } else {
                    None
                }
            }
        }
    }

    /// The answer that `learn` gives to a UID; nothing changes.
    pub fn would_learn(&self, uid: u64) -> Learn
        ensures { result ≡ learning uid self.now.incarnations }
    {
        self.incarnations.would_learn(uid)
    }

    /// A UID that is neither current nor closed is learnt at this moment: those messages that waited are the first ones to it.
    #[tactic(auto, using(crate::proofs::Opening::is_open))]
    pub fn learn(&mut self, now: u64, uid: u64)
        requires { learning uid self.old.incarnations ≡ Learnt (current_of self.old) }
        ensures { self.new ≡ with_learnt now uid self.old }
    {
        if self.current().is_none() {
            let _waited = self.out.learn();
        }
        let _learnt = self.incarnations.learn(uid);
        self.patience = now;
    }

    /// The system message that is kept or waits at a place, counted from 1.
    pub fn message(&self, place: u64) -> Result<Option<SysMsg>, NoMemory>
        ensures { IfOk result (λ message. message ≡ kept_message place self.now.out) }
    {
        match self.out.message(place) {
            None => Ok(None),
            Some(message) => Ok(Some(message.clone()?)),
        }
    }
}

// ---- inbound connections

/// Whether two nonces are the same, or both are absent.
fn same_nonce(one: Option<u64>, other: Option<u64>) -> bool
    ensures { result ≡ same_nonce one other }
{
    match one {
        Some(one) => match other {
            Some(other) => one == other,
            None => false,
        },
        None => other.is_none(),
    }
}

impl Inbound {
    /// What a handshake request of an incarnation with this nonce does; nothing changes.
    pub fn request(&self, v: &UniqueAddress, its_nonce: Option<u64>) -> OnReq
        ensures { result ≡ answer_to_req v.now its_nonce self.now.state }
    {
        match self.conn.state() {
            InState::Raw => OnReq::Opened,
            InState::Known { origin, nonce } => {
                if *origin == *v && same_nonce(*nonce, its_nonce) {
                    OnReq::Repeated
                } else {
                    OnReq::OtherOrigin
                }
            }
        }
    }

    /// It is known from the first request on who speaks on it, and with which nonce.
    pub fn know(&mut self, v: UniqueAddress, its_nonce: Option<u64>)
        ensures { self.new ≡ known_as v its_nonce self.old }
    {
        let _answer = self.conn.on_req(v, its_nonce);
    }

    /// The answer that is owed on it.
    pub fn owed(&self) -> Option<Answer>
        ensures { result ≡ self.now.owed }
    {
        self.owed
    }

    /// An answer is owed on it; a former one is not owed any more.
    pub fn set_owing(&mut self, answer: Answer)
        ensures { self.new ≡ owing answer self.old }
    {
        self.owed = Some(answer);
    }

    /// No answer is owed on it.
    pub fn set_owes_no_answer(&mut self)
        ensures { self.new ≡ owes_no_answer self.old }
    {
        self.owed = None;
    }
}

// ---- origins

impl Origin {
    /// Whether an acknowledgement is owed to it.
    pub fn is_owed_ack(&self) -> bool
        ensures { result ≡ self.now.owes }
    {
        self.owes
    }

    /// No acknowledgement is owed to it.
    pub fn set_owes_no_ack(&mut self)
        ensures { self.new ≡ owes_no_ack self.old }
    {
        self.owes = false;
    }
}
