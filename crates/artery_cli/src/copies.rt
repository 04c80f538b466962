//! Copies of events and of requests.
ghost use Rattle.std.specs.Prelude.{◌≡◌, IfOk};

use artery_base::{NoMemory, Request};
use artery_script::Event;

/// The same request once more.
fn copy_of_request(request: &Request) -> Result<Request, NoMemory>
    ensures { IfOk result (λ copy. copy ≡ request.now) }
{
    match request {
        Request::Pair { address } => Ok(Request::Pair {
            address: address.clone()?,
        }),
        Request::Send { address, message } => {
            let address = address.clone()?;
            Ok(Request::Send {
                address,
                message: message.clone()?,
            })
        }
        Request::Tell { address, message } => {
            let address = address.clone()?;
            Ok(Request::Tell {
                address,
                message: message.clone()?,
            })
        }
        Request::Watch { path, watchee } => {
            let path = path.clone()?;
            Ok(Request::Watch {
                path,
                watchee: watchee.clone()?,
            })
        }
        Request::Unwatch { path, watchee } => {
            let path = path.clone()?;
            Ok(Request::Unwatch {
                path,
                watchee: watchee.clone()?,
            })
        }
        Request::Spawn { path } => Ok(Request::Spawn {
            path: path.clone()?,
        }),
        Request::Kill { path } => Ok(Request::Kill {
            path: path.clone()?,
        }),
        Request::Quarantine { address } => Ok(Request::Quarantine {
            address: address.clone()?,
        }),
    }
}

/// The same event once more.
pub fn copy_of_event(event: &Event) -> Result<Event, NoMemory>
    ensures { IfOk result (λ copy. copy ≡ event.now) }
{
    match event {
        Event::Start { unique } => {
            let unique = unique.clone()?;
            Ok(Event::Start { unique })
        }
        Event::Stop { uid } => Ok(Event::Stop { uid: *uid }),
        Event::At { uid, request } => {
            let request = copy_of_request(request)?;
            Ok(Event::At { uid: *uid, request })
        }
        Event::Tick { uid, moment } => Ok(Event::Tick {
            uid: *uid,
            moment: *moment,
        }),
        Event::Answer { uid, dial } => Ok(Event::Answer {
            uid: *uid,
            dial: *dial,
        }),
        Event::Fail { uid, dial } => Ok(Event::Fail {
            uid: *uid,
            dial: *dial,
        }),
        Event::Carry { uid, dial, count } => Ok(Event::Carry {
            uid: *uid,
            dial: *dial,
            count: *count,
        }),
        Event::Cut { uid, dial } => Ok(Event::Cut {
            uid: *uid,
            dial: *dial,
        }),
        Event::End { uid, dial } => Ok(Event::End {
            uid: *uid,
            dial: *dial,
        }),
        Event::CutAll { uid } => Ok(Event::CutAll { uid: *uid }),
        Event::EndAll { uid } => Ok(Event::EndAll { uid: *uid }),
        Event::Pass { rounds } => Ok(Event::Pass { rounds: *rounds }),
    }
}
