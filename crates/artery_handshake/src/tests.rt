use crate::{InConn, InState, OnReq, OnRsp, OnTick, OutConn, OutState};
use artery_base::{Address, NoMemory, Text, UniqueAddress};
use artery_frame::Stream;
use std::alloc::Global;
use std::test::*;

// The calls with no contract of their own, so that a test's proof does not follow what they leave.

/// A connection with dial number 3 in this state.
fn conn_in(state: OutState) -> OutConn {
    OutConn {
        dial: 3,
        stream: Stream::Ordinary,
        state,
    }
}

fn asked(begun: u64, last: u64) -> OutState {
    OutState::Asked { begun, last }
}

fn bound() -> OutState {
    OutState::Bound { uid: 2 }
}

/// Whether an answer from this UID to the node with UID 1 is answered so, and leaves this state.
fn answered(
    state: OutState,
    from: u64,
    for_uid: Option<u64>,
    nonce: Option<u64>,
    want: OnRsp,
    left: OutState,
) -> bool {
    let mut conn = conn_in(state);
    conn.on_rsp(1, from, for_uid, nonce) == want && conn.state == left
}

/// Whether an answer from UID 2 with these fields is passed over before the connection asked, and one from UID 7 once it is bound to 2.
fn is_stray_elsewhere(for_uid: Option<u64>, nonce: Option<u64>) -> bool {
    let dialing = OutState::Dialing;
    answered(dialing, 2, for_uid, nonce, OnRsp::Stray, dialing)
        && answered(bound(), 7, for_uid, nonce, OnRsp::Stray, bound())
}

/// Whether an answer from UID 2 with these fields binds the connection, and is repeated once it is bound.
fn is_meant(for_uid: Option<u64>, nonce: Option<u64>) -> bool {
    let bind = OnRsp::Bind { uid: 2 };
    answered(asked(5_000, 24_500), 2, for_uid, nonce, bind, bound())
        && answered(bound(), 2, for_uid, nonce, OnRsp::Repeat, bound())
        && is_stray_elsewhere(for_uid, nonce)
}

/// Whether an answer from UID 2 with these fields is passed over in every state.
fn is_stray(for_uid: Option<u64>, nonce: Option<u64>) -> bool {
    let state = asked(5_000, 24_500);
    answered(state, 2, for_uid, nonce, OnRsp::Stray, state)
        && answered(bound(), 2, for_uid, nonce, OnRsp::Stray, bound())
        && is_stray_elsewhere(for_uid, nonce)
}

/// Whether this is to be done at this moment, and leaves this state.
fn due(state: OutState, now: u64, want: OnTick, left: OutState) -> bool {
    let mut conn = conn_in(state);
    conn.on_tick(now) == want && conn.state == left
}

/// Whether a dial that is up at this moment is answered so, and leaves this state.
fn dialed(state: OutState, now: u64, want: bool, left: OutState) -> bool {
    let mut conn = conn_in(state);
    conn.on_dialed(now) == want && conn.state == left
}

fn origin(alloc: Global, uid: u64) -> Result<UniqueAddress, NoMemory> {
    let address = Address {
        protocol: Text::from_ascii(alloc, b"akka")?,
        system: Text::from_ascii(alloc, b"A")?,
        host: Text::from_ascii(alloc, b"h1")?,
        port: 25_520,
    };
    Ok(UniqueAddress { address, uid })
}

/// Whether a request from the origin with this UID, with this nonce, is answered so.
fn requested(
    alloc: Global,
    conn: &mut InConn,
    uid: u64,
    nonce: Option<u64>,
    want: OnReq,
) -> Result<bool, NoMemory> {
    let from = origin(alloc, uid)?;
    Ok(conn.on_req(from, nonce) == want)
}

/// Whether the connection is known to be of the origin with this UID, with this nonce.
fn is_known(alloc: Global, conn: &InConn, uid: u64, nonce: Option<u64>) -> Result<bool, NoMemory> {
    let origin = origin(alloc, uid)?;
    Ok(*conn.state() == InState::Known { origin, nonce })
}

fn is_raw(conn: &InConn) -> bool {
    *conn.state() == InState::Raw
}

#[test]
fn answers_by_the_two_fields(rt: HostRuntime) -> Result<(), Fail> {
    assert!(rt; is_meant(Some(1), Some(3)));
    assert!(rt; is_stray(Some(1), Some(4)));
    assert!(rt; is_stray(Some(9), Some(3)));
    assert!(rt; is_stray(Some(9), Some(4)));
    assert!(rt; is_meant(Some(9), None));
    assert!(rt; is_meant(None, Some(4)));
    assert!(rt; is_meant(None, None));
    Ok(())
}

#[test]
fn asks_again_and_gives_up(rt: HostRuntime) -> Result<(), Fail> {
    let late = asked(5_000, 24_500);
    assert!(rt; due(late, 0, OnTick::Nothing, late));
    assert!(rt; due(late, 24_999, OnTick::Nothing, late));
    assert!(rt; due(late, 25_000, OnTick::GiveUp, late));
    assert!(rt; due(late, u64::MAX, OnTick::GiveUp, late));
    let early = asked(5_000, 6_000);
    assert!(rt; due(early, 6_999, OnTick::Nothing, early));
    assert!(rt; due(early, 7_000, OnTick::AskAgain, asked(5_000, 7_000)));
    assert!(rt; due(early, 24_999, OnTick::AskAgain, asked(5_000, 24_999)));
    assert!(rt; due(early, 25_000, OnTick::GiveUp, early));
    let dialing = OutState::Dialing;
    assert!(rt; due(dialing, 1_000_000, OnTick::Nothing, dialing));
    assert!(rt; due(bound(), 1_000_000, OnTick::Nothing, bound()));
    Ok(())
}

#[test]
fn asks_once_it_is_up(rt: HostRuntime) -> Result<(), Fail> {
    assert!(rt; dialed(OutState::Dialing, 70, true, asked(70, 70)));
    assert!(rt; dialed(asked(70, 70), 90, false, asked(70, 70)));
    assert!(rt; dialed(bound(), 90, false, bound()));
    Ok(())
}

#[test]
fn the_first_request_says_of_whom_it_is(rt: HostRuntime) -> Result<(), Fail> {
    let alloc = rt.alloc();
    let mut conn = InConn::new();
    assert!(rt; is_raw(&conn));
    assert!(rt; requested(alloc, &mut conn, 1, Some(3), OnReq::Opened)?);
    assert!(rt; requested(alloc, &mut conn, 1, Some(3), OnReq::Repeated)?);
    assert!(rt; requested(alloc, &mut conn, 1, Some(4), OnReq::OtherOrigin)?);
    assert!(rt; requested(alloc, &mut conn, 1, None, OnReq::OtherOrigin)?);
    assert!(rt; requested(alloc, &mut conn, 2, Some(3), OnReq::OtherOrigin)?);
    assert!(rt; requested(alloc, &mut conn, 1, Some(3), OnReq::Repeated)?);
    assert!(rt; is_known(alloc, &conn, 1, Some(3))?);
    Ok(())
}

#[test]
fn a_plain_peer_asks_without_a_nonce(rt: HostRuntime) -> Result<(), Fail> {
    let alloc = rt.alloc();
    let mut conn = InConn::new();
    assert!(rt; requested(alloc, &mut conn, 1, None, OnReq::Opened)?);
    assert!(rt; requested(alloc, &mut conn, 1, None, OnReq::Repeated)?);
    assert!(rt; requested(alloc, &mut conn, 1, Some(3), OnReq::OtherOrigin)?);
    Ok(())
}
