//! What a user asks for.
ghost use Rattle.std.specs.Prelude.{◌≡◌, OnOk};
ghost use Rattle.artery_machine.specs.Making.{at_request};
ghost use Rattle.artery_machine.specs.Doing.{stays};
ghost use Rattle.artery_machine.specs.Sending.{sends, tells_message};
ghost use Rattle.artery_machine.specs.Reacting.{asked_for};

use artery_base::{Address, NoMemory, Request, SysMsg, Tell};
use artery_node::Work;

/// An association with the system at an address is wanted.
fn pairs(work: &mut Work, address: &Address) -> Result<(), NoMemory>
    ensures { OnOk result (work.new ≡ at_request address.now stays work.old) }
{
    work.at_request(address)?;
    Ok(())
}

/// A system message goes to the system at an address.
fn is_to_send(work: &mut Work, address: &Address, message: SysMsg) -> Result<(), NoMemory>
    ensures { OnOk result (work.new ≡ at_request address.now (sends address.now message) work.old) }
{
    if !work.at_request(address)? {
        return Ok(());
    }
    work.sends(address, message)
}

/// An ordinary message goes to an actor of the system at an address.
fn is_to_tell(work: &mut Work, address: &Address, message: Tell) -> Result<(), NoMemory>
    ensures { OnOk result (work.new ≡ at_request address.now (tells_message address.now message) work.old) }
{
    if !work.at_request(address)? {
        return Ok(());
    }
    work.tells_message(address, message)
}

/// A user asks for something.
pub fn asked_for(work: &mut Work, request: Request) -> Result<(), NoMemory>
    ensures { OnOk result (work.new ≡ asked_for request work.old) }
{
    match request {
        Request::Pair { address } => pairs(work, &address),
        Request::Send { address, message } => is_to_send(work, &address, message),
        Request::Tell { address, message } => is_to_tell(work, &address, message),
        Request::Watch { path, watchee } => work.watches(&path, watchee),
        Request::Unwatch { path, watchee } => work.unwatches(&path, watchee),
        Request::Spawn { path } => work.spawns(path),
        Request::Kill { path } => work.kills(&path),
        Request::Quarantine { address } => work.quarantined(&address),
    }
}
