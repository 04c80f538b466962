//! Which events are allowed.
ghost use Rattle.std.specs.Prelude.{◌≡◌, IfOk, not};
ghost use Rattle.std.specs.Option.{option_copied};
ghost use Rattle.artery_script.specs.declared.event.Event.TheVariants as events;
ghost use Rattle.artery_machine.specs.declared.world.Why.TheVariants as why;
ghost use Rattle.artery_machine.specs.World.{refusal, address_named, of_address, connection_of, unless, was_started};

use crate::network::Network;
use artery_base::{Address, NoMemory, Request, UniqueAddress};
use artery_connections::Connection;
use artery_machine::Why;
use artery_notices::address_in;
use artery_script::Event;
use std::alloc::Global;

/// Whether a request names this address.
fn names(alloc: Global, request: &Request, own: &Address) -> Result<bool, NoMemory>
    ensures { IfOk result (λ named. unless (not named) why.OwnAddress ≡ of_address (address_named request.now) own.now) }
{
    match request {
        Request::Pair { address }
        | Request::Send { address, .. }
        | Request::Tell { address, .. }
        | Request::Quarantine { address } => Ok(address == own),
        Request::Watch { watchee, .. } | Request::Unwatch { watchee, .. } => {
            match address_in(alloc, watchee)? {
                Some(address) => Ok(address == *own),
                None => Ok(false),
            }
        }
        Request::Spawn { .. } | Request::Kill { .. } => Ok(false),
    }
}

impl Network {
    /// The first condition of a start that fails.
    fn start_refused(&self, unique: &UniqueAddress) -> Option<Why>
        ensures { result ≡ refusal (events.Start unique.now) self.now }
    {
        if self.was_started(unique.uid) {
            return Some(Why::UsedUid);
        }
        if self.live_at(&unique.address).is_some() {
            return Some(Why::AddressLive);
        }
        None
    }

    /// Where the incarnation with this UID does not live.
    fn not_live(&self, uid: u64) -> Option<Why>
        ensures { result ≡ refusal (events.Stop uid) self.now }
    {
        match self.live_of(uid) {
            Some(_) => None,
            None => Some(Why::NotLive),
        }
    }

    /// The first condition of a request that fails.
    fn request_refused(&self, uid: u64, request: &Request) -> Result<Option<Why>, NoMemory>
        ensures { IfOk result (λ why. why ≡ refusal (events.At uid request.now) self.now) }
    {
        let Some(live) = self.live_of(uid) else {
            return Ok(Some(Why::NotLive));
        };
        if names(self.alloc, request, &live.me().address)? {
            return Ok(Some(Why::OwnAddress));
        }
        Ok(None)
    }

    /// The first condition of a tick that fails.
    fn tick_refused(&self, uid: u64, moment: u64) -> Option<Why>
        ensures { result ≡ refusal (events.Tick uid moment) self.now }
    {
        let Some(live) = self.live_of(uid) else {
            return Some(Why::NotLive);
        };
        if live.moment() > moment {
            return Some(Why::MomentBack);
        }
        None
    }

    /// The first condition of an answer that fails.
    fn answer_refused(&self, uid: u64, dial: u64) -> Option<Why>
        ensures { result ≡ refusal (events.Answer uid dial) self.now }
    {
        let Some(dialed) = self.pending_of(uid, dial) else {
            return Some(Why::NoDial);
        };
        match self.live_at(dialed.address()) {
            Some(_) => None,
            None => Some(Why::Nobody),
        }
    }

    /// Where no such dial is pending.
    fn not_pending(&self, uid: u64, dial: u64) -> Option<Why>
        ensures { result ≡ refusal (events.Fail uid dial) self.now }
    {
        match self.pending_of(uid, dial) {
            Some(_) => None,
            None => Some(Why::NoDial),
        }
    }

    /// The connection with this dialer and dial number.
    fn connection_of(&self, uid: u64, dial: u64) -> Option<&Connection>
        ensures { option_copied result ≡ connection_of uid dial self.now }
    {
        self.connections
            .get(self.connections.place_dialed(uid, dial)?)
    }

    /// The first condition of a carry that fails.
    fn carry_refused(&self, uid: u64, dial: u64, count: u64) -> Option<Why>
        ensures { result ≡ refusal (events.Carry uid dial count) self.now }
    {
        let Some(connection) = self.connection_of(uid, dial) else {
            return Some(Why::NoConnection);
        };
        if !connection.far_open() {
            return Some(Why::FarEnded);
        }
        if count > connection.load() as u64 {
            return Some(Why::TooMany);
        }
        None
    }

    /// The first condition of a cut that fails.
    fn cut_refused(&self, uid: u64, dial: u64) -> Option<Why>
        ensures { result ≡ refusal (events.Cut uid dial) self.now }
    {
        match self.connection_of(uid, dial) {
            None => Some(Why::NoConnection),
            Some(connection) => {
                if connection.near_open() {
                    None
                } else {
                    Some(Why::NearEnded)
                }
            }
        }
    }

    /// The first condition of an end that fails.
    fn end_refused(&self, uid: u64, dial: u64) -> Option<Why>
        ensures { result ≡ refusal (events.End uid dial) self.now }
    {
        match self.connection_of(uid, dial) {
            None => Some(Why::NoConnection),
            Some(connection) => {
                if connection.far_open() {
                    None
                } else {
                    Some(Why::FarEnded)
                }
            }
        }
    }

    /// Where this UID was never started.
    fn not_started(&self, uid: u64) -> Option<Why>
        ensures { result ≡ unless (was_started uid self.now) why.NotStarted }
    {
        if self.was_started(uid) {
            None
        } else {
            Some(Why::NotStarted)
        }
    }

    /// The first condition of an event that fails.
    pub(crate) fn refusal(&self, event: &Event) -> Result<Option<Why>, NoMemory>
        ensures { IfOk result (λ why. why ≡ refusal event.now self.now) }
    {
        match event {
            Event::Start { unique } => Ok(self.start_refused(unique)),
            Event::Stop { uid } => Ok(self.not_live(*uid)),
            Event::At { uid, request } => self.request_refused(*uid, request),
            Event::Tick { uid, moment } => Ok(self.tick_refused(*uid, *moment)),
            Event::Answer { uid, dial } => Ok(self.answer_refused(*uid, *dial)),
            Event::Fail { uid, dial } => Ok(self.not_pending(*uid, *dial)),
            Event::Carry { uid, dial, count } => Ok(self.carry_refused(*uid, *dial, *count)),
            Event::Cut { uid, dial } => Ok(self.cut_refused(*uid, *dial)),
            Event::End { uid, dial } => Ok(self.end_refused(*uid, *dial)),
            Event::CutAll { uid } => Ok(self.not_started(*uid)),
            Event::EndAll { uid } => Ok(self.not_started(*uid)),
            Event::Pass { .. } => Ok(None),
        }
    }
}
