//! Heartbeats to incarnations with actors that are watched.
ghost use Rattle.std.specs.Prelude.{◌≡◌, OnOk, Some};
ghost use Rattle.artery_machine.specs.Parts.{kept};
ghost use Rattle.artery_machine.specs.Node.{peer_at, current_of, incarnation};
ghost use Rattle.artery_machine.specs.Doing.{in_bytes};
ghost use Rattle.artery_machine.specs.Ticking.{beats_on, beats, detects_of, detects_as, detects};

use artery_base::{Address, NoMemory, UniqueAddress};
use artery_control::Control;
use artery_journal::Cause;
use artery_node::{Work, incarnation};

/// A heartbeat is written on the control connection, where that is bound to the incarnation.
fn beats_on(work: &mut Work, v: &UniqueAddress, dial: Option<u64>) -> Result<(), NoMemory>
    ensures { OnOk result (work.new ≡ beats_on v.now dial work.old) }
{
    if dial.is_none() {
        return Ok(());
    }
    let now = work.moment();
    work.on_control(v, Control::Heartbeat)?;
    work.set_beaten(&v.address, now);
    Ok(())
}

/// A heartbeat is written where none was written since the detector is new, or the last was 1,000 ms ago.
fn beats(work: &mut Work, v: &UniqueAddress) -> Result<(), NoMemory>
    ensures { OnOk result (work.new ≡ beats v.now work.old) }
{
    if !work.is_beat_due(&v.address) {
        return Ok(());
    }
    let dial = work.control_dial(v);
    beats_on(work, v, dial)?;
    Ok(())
}

/// The same to the incarnation with this UID at an address.
fn beats_to(work: &mut Work, address: &Address, uid: u64) -> Result<(), NoMemory>
    ensures { OnOk result (work.new ≡ beats (incarnation address.now uid) work.old) }
{
    let v = incarnation(address, uid)?;
    beats(work, &v)?;
    Ok(())
}

/// An incarnation that is not available is closed; to one that is, heartbeats are written.
fn detects_of(work: &mut Work, address: &Address, uid: u64) -> Result<(), NoMemory>
    requires { current_of (peer_at address.now work.old.node) ≡ Some uid }
    ensures { OnOk result (work.new ≡ detects_of address.now uid work.old) }
{
    if work.is_available(address) {
        beats_to(work, address, uid)
    } else {
        work.closes_current(address, Some(uid), Cause::Unreachable)
    }
}

/// The current incarnation is asked for a heartbeat.
#[tactic(auto, using(crate::proofs::Asked::current_stays))]
fn detects_as(work: &mut Work, address: &Address, current: Option<u64>) -> Result<(), NoMemory>
    requires { current ≡ current_of (peer_at address.now work.old.node) }
    ensures { OnOk result (work.new ≡ detects_as address.now current work.old) }
{
    let Some(uid) = current else {
        return Ok(());
    };
    work.ask_beat(address);
    detects_of(work, address, uid)?;
    Ok(())
}

/// Where an actor at the address is watched, the current incarnation is asked for a heartbeat.
pub(crate) fn detects(work: &mut Work, address: &Address) -> Result<(), NoMemory>
    ensures { OnOk result (work.new ≡ detects address.now work.old) }
{
    if !work.watches_at(address) {
        return Ok(());
    }
    let current = work.current_at(address);
    detects_as(work, address, current)?;
    Ok(())
}
