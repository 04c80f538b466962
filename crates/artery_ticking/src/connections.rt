//! The connections of a peer are tended.
ghost use Rattle.std.specs.Prelude.{◌≡◌, OnOk};
ghost use Rattle.artery_machine.specs.Parts.{kept};
ghost use Rattle.artery_machine.specs.Doing.{in_bytes};
ghost use Rattle.artery_machine.specs.Ticking.{redials, due_as, tends_as, tends, tends_control, tends_ordinary};

use artery_base::{Address, NoMemory};
use artery_frame::Stream;
use artery_handshake::{OnTick, OutConn};
use artery_node::Work;
use artery_peer::answer_to_tick;

/// An absent connection is dialed, where it may be and its moment has come.
fn redials(work: &mut Work, stream: Stream, address: &Address, may: bool) -> Result<(), NoMemory>
    ensures { OnOk result (work.new ≡ redials stream address.now may work.old) }
{
    if !(may && work.redial_at(stream, address) <= work.moment()) {
        return Ok(());
    }
    work.dials(stream, address)?;
    Ok(())
}

/// The connection to an address with this dial number asks again.
fn asks_again(work: &mut Work, stream: Stream, address: &Address, dial: u64) -> Result<(), NoMemory>
    ensures { OnOk result (work.new ≡ due_as stream address.now dial OnTick.AskAgain work.old) }
{
    work.set_ticked(stream, address);
    work.asks_on(address, dial)?;
    Ok(())
}

/// What is due on a connection: it asks again, or is given up.
fn due_as(
    work: &mut Work,
    stream: Stream,
    address: &Address,
    dial: u64,
    due: OnTick,
) -> Result<(), NoMemory>
    ensures { OnOk result (work.new ≡ due_as stream address.now dial due work.old) }
{
    match due {
        OnTick::Nothing => Ok(()),
        OnTick::AskAgain => asks_again(work, stream, address, dial),
        OnTick::GiveUp => work.gives_up(stream, address),
    }
}

/// A connection that is absent, or not.
fn tends_as(
    work: &mut Work,
    stream: Stream,
    address: &Address,
    may: bool,
    conn: Option<OutConn>,
) -> Result<(), NoMemory>
    ensures { OnOk result (work.new ≡ tends_as stream address.now may conn work.old) }
{
    match conn {
        None => redials(work, stream, address, may),
        Some(conn) => {
            let due = answer_to_tick(work.moment(), conn);
            due_as(work, stream, address, conn.dial, due)
        }
    }
}

/// A connection is tended: where it is absent it is dialed, where it was asked it asks again or is given up.
fn tends(work: &mut Work, stream: Stream, address: &Address, may: bool) -> Result<(), NoMemory>
    ensures { OnOk result (work.new ≡ tends stream address.now may work.old) }
{
    let conn = work.conn_at(stream, address);
    tends_as(work, stream, address, may, conn)?;
    Ok(())
}

/// The control connection is tended: it may be dialed unless the peer is asleep.
pub(crate) fn tends_control(work: &mut Work, address: &Address) -> Result<(), NoMemory>
    ensures { OnOk result (work.new ≡ tends_control address.now work.old) }
{
    let may = !work.is_asleep(address);
    tends(work, Stream::Control, address, may)?;
    Ok(())
}

/// The ordinary connection is tended: it may be dialed where the control connection is bound to the current UID.
pub(crate) fn tends_ordinary(work: &mut Work, address: &Address) -> Result<(), NoMemory>
    ensures { OnOk result (work.new ≡ tends_ordinary address.now work.old) }
{
    let may = work.is_bound(address);
    tends(work, Stream::Ordinary, address, may)?;
    Ok(())
}
