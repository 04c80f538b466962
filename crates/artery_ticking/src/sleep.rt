//! Peers that are not used are put to sleep.
ghost use Rattle.std.specs.Prelude.{◌≡◌, OnOk};
ghost use Rattle.artery_machine.specs.Parts.{kept};
ghost use Rattle.artery_machine.specs.Doing.{in_bytes};
ghost use Rattle.artery_machine.specs.Ticking.{drops_control, tells_idle, sleeps};

use artery_base::{Address, NoMemory};
use artery_frame::Stream;
use artery_journal::Line;
use artery_node::{Work, incarnation};
use artery_peer::dial_of;

/// The control connection of a peer is hung up and gone.
fn drops_control(work: &mut Work, address: &Address) -> Result<(), NoMemory>
    ensures { OnOk result (work.new ≡ drops_control address.now work.old) }
{
    let dial = dial_of(work.conn_at(Stream::Control, address));
    work.hang_up(dial)?;
    work.set_gone(Stream::Control, address);
    Ok(())
}

/// The line that a peer is idle names its current incarnation.
fn tells_idle(work: &mut Work, address: &Address, current: Option<u64>) -> Result<(), NoMemory>
    ensures { OnOk result (work.new ≡ tells_idle address.now current work.old) }
{
    let Some(uid) = current else {
        return Ok(());
    };
    let of = work.me().clone()?;
    let other = incarnation(address, uid)?;
    work.tell(Line::Idle { of, other })
}

/// An idle peer is put to sleep: it is told, and its ordinary connection is hung up, and then its control connection.
pub(crate) fn sleeps(work: &mut Work, address: &Address) -> Result<(), NoMemory>
    ensures { OnOk result (work.new ≡ sleeps address.now work.old) }
{
    if !(work.is_idle(address) && !work.watches_at(address)) {
        return Ok(());
    }
    let current = work.current_at(address);
    tells_idle(work, address, current)?;
    work.drops_ordinary(address)?;
    drops_control(work, address)?;
    work.set_asleep(address);
    Ok(())
}
