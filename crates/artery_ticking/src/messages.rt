//! Patience with a peer that acknowledges nothing, and messages that are written again.
ghost use Rattle.std.specs.Prelude.{◌≡◌, OnOk};
ghost use Rattle.artery_machine.specs.Parts.{kept};
ghost use Rattle.artery_machine.specs.Doing.{in_bytes};
ghost use Rattle.artery_machine.specs.Ticking.{loses_patience, resends};

use artery_base::{Address, NoMemory};
use artery_journal::Cause;
use artery_node::Work;

/// An incarnation that has acknowledged none for six hours is closed.
pub(crate) fn loses_patience(work: &mut Work, address: &Address) -> Result<(), NoMemory>
    ensures { OnOk result (work.new ≡ loses_patience address.now work.old) }
{
    if !work.is_lost(address) {
        return Ok(());
    }
    let current = work.current_at(address);
    work.closes_current(address, current, Cause::Undelivered)?;
    Ok(())
}

/// Messages that are kept are written again, and the peer is quiet from now on.
pub(crate) fn resends(work: &mut Work, address: &Address) -> Result<(), NoMemory>
    ensures { OnOk result (work.new ≡ resends address.now work.old) }
{
    if !work.is_quiet(address) {
        return Ok(());
    }
    let now = work.moment();
    work.rewinds(address);
    work.pumps(address)?;
    work.set_quiet_from(address, now);
    Ok(())
}
