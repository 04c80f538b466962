//! It is a moment.
ghost use Rattle.std.specs.Prelude.{◌≡◌, ◌<◌, ◌^◌, OnOk};
ghost use Rattle.artery_machine.specs.Parts.{kept};
ghost use Rattle.artery_machine.specs.Doing.{in_bytes, each};
ghost use Rattle.artery_machine.specs.Ticking.{ticks_peer, ticks_peers, ticks_origin, ticks_origins, ticks};

use crate::beats::detects;
use crate::connections::{tends_control, tends_ordinary};
use crate::messages::{loses_patience, resends};
use crate::sleep::sleeps;
use crate::tables::ticks_origin;
use artery_base::{Address, NoMemory, UniqueAddress};
use artery_node::Work;

/// What is due for the peer at an address, in this order: its control connection; its ordinary connection; patience; writing again; heartbeats;
/// sleep.
fn ticks_peer(work: &mut Work, address: &Address) -> Result<(), NoMemory>
    ensures { OnOk result (work.new ≡ ticks_peer address.now work.old) }
{
    tends_control(work, address)?;
    tends_ordinary(work, address)?;
    loses_patience(work, address)?;
    resends(work, address)?;
    detects(work, address)?;
    sleeps(work, address)?;
    Ok(())
}

/// What is due for the peers at these addresses, in order.
fn ticks_each_peer(work: &mut Work, addresses: &[Address]) -> Result<(), NoMemory>
    ensures { OnOk result (work.new ≡ each addresses.now ticks_peer work.old) }
{
    for address in addresses {
        ticks_peer(work, address)?;
    }
    Ok(())
}

/// What is due for each peer, in the order made.
fn ticks_peers(work: &mut Work) -> Result<(), NoMemory>
    ensures { OnOk result (work.new ≡ ticks_peers work.old) }
{
    let addresses = work.addresses()?;
    ticks_each_peer(work, addresses.as_slice())?;
    Ok(())
}

/// What is due for these origins, in order.
fn ticks_each_origin(work: &mut Work, origins: &[UniqueAddress]) -> Result<(), NoMemory>
    ensures { OnOk result (work.new ≡ each origins.now ticks_origin work.old) }
{
    for v in origins {
        ticks_origin(work, v)?;
    }
    Ok(())
}

/// What is due for each origin, in the order made.
fn ticks_origins(work: &mut Work) -> Result<(), NoMemory>
    ensures { OnOk result (work.new ≡ ticks_origins work.old) }
{
    let origins = work.origins()?;
    ticks_each_origin(work, origins.as_slice())?;
    Ok(())
}

/// It is this moment: it is set, and then what is due is done for each peer and for each origin, in the orders made.
pub fn ticks(work: &mut Work, now: u64) -> Result<(), NoMemory>
    requires { now < 2 ^ 62 }
    ensures { OnOk result (work.new ≡ ticks now work.old) }
{
    work.set_moment(now);
    ticks_peers(work)?;
    ticks_origins(work)?;
    Ok(())
}
