//! System messages to a peer, and ordinary messages told or held.
ghost use Rattle.std.specs.Prelude.{◌≡◌, OnOk, IfOk, Some, None, is_some, length};
ghost use Rattle.artery_codec.specs.Writing.{written, held_indices};
ghost use Rattle.artery_delivery.specs.Outbound.{acceptance, next_to_write, kept_pumped};
ghost use Rattle.artery_machine.specs.Parts.{kept};
ghost use Rattle.artery_machine.specs.Deeds.{bytes_of, Sends};
ghost use Rattle.artery_machine.specs.Node.{peer_at, current_of, current_dial};
ghost use Rattle.artery_machine.specs.Doing.{in_bytes, peer_becomes, each, times};
ghost use Rattle.artery_machine.specs.Sending.{meaning_of, with_out, with_held, without_held, told_as, pumps_one, pumps, tells_sent, sends_now, sends, tells_told, tells_on, holds, tells_or_holds, tells_message, tells_held};
ghost use Rattle.artery_peer.specs.Accepting.{accepted_by};
ghost use Rattle.artery_node.specs.Steps.{sent, sent_after};

use crate::closing::incarnation;
use crate::copies::copy_of_message;
use crate::work::Work;
use artery_base::{Address, Bytes, NoMemory, SysMsg, Tell};
use artery_codec::{Message, encode};
use artery_control::Control;
use artery_delivery::Accept;
use artery_frame::{Stream, write_frame};
use artery_journal::{Cause, Line, Reason};
use artery_machine::Effect;
use artery_tables::OutTable;
use std::alloc::Global;

/// At most so many ordinary messages are held for a peer.
const MOST_HELD: usize = 3_072;

/// A frame has at most so many bytes.
const MOST_FRAME: usize = 262_144;

impl Work {
    // ---- writing

    /// The next message to the peer at an address, with its number, which counts as written then.
    #[tactic(auto, using(crate::proofs::Places::set_is_change, crate::proofs::Places::no_place_same, crate::proofs::Places::place_is_found, crate::proofs::Places::no_place))]
    fn pump(&mut self, address: &Address) -> Result<Option<(u64, SysMsg)>, NoMemory>
        ensures next { IfOk result (λ next. next ≡ next_to_write (peer_at address.now self.old.node).out) }
        ensures work { OnOk result (self.new ≡ peer_becomes address.now (with_out kept_pumped) self.old) }
    {
        let Some(at) = self.place_of(address) else {
            return Ok(None);
        };
        let peer = &mut self.peers[at];
        peer.pump()
    }

    /// One message is written to the peer at an address, if one is next. Tells whether one was.
    #[tactic(auto, using(crate::proofs::Pumping::nothing_pumped, crate::proofs::Pumping::one_pumped))]
    fn pumps_one(&mut self, address: &Address) -> Result<bool, NoMemory>
        ensures more { IfOk result (λ more. more ≡ is_some (next_to_write (peer_at address.now self.old.node).out)) }
        ensures work { OnOk result (self.new ≡ pumps_one address.now self.old) }
    {
        let current = self.current_at(address);
        let Some((n, message)) = self.pump(address)? else {
            return Ok(false);
        };
        let reply_to = self.me.clone()?;
        let control = Control::Numbered {
            n,
            message,
            reply_to,
        };
        self.on_control_to(address, current, control)?;
        Ok(true)
    }

    /// How many system messages are kept for the peer at an address or wait.
    pub fn kept_at(&self, address: &Address) -> u64
        ensures { result ≡ length (peer_at address.now self.now.node).out.messages }
    {
        match self.peer(address) {
            None => 0,
            Some(peer) => peer.kept(),
        }
    }

    /// All messages that may be written to the peer at an address are written.
    #[tactic(auto, using(crate::proofs::Pumping::stops, crate::proofs::Pumping::turn))]
    pub fn pumps(&mut self, address: &Address) -> Result<(), NoMemory>
        ensures { OnOk result (self.new ≡ pumps address.now self.old) }
    {
        let mut left = self.kept_at(address);
        while left > 0 {
            if !self.pumps_one(address)? {
                return Ok(());
            }
            left -= 1;
        }
        Ok(())
    }

    // ---- sending

    /// A message was sent to the current incarnation at an address, with this number.
    pub fn tells_sent(
        &mut self,
        address: &Address,
        current: Option<u64>,
        n: u64,
        message: SysMsg,
    ) -> Result<(), NoMemory>
        ensures { OnOk result (self.new ≡ tells_sent address.now current n message self.old) }
    {
        let Some(uid) = current else {
            return Ok(());
        };
        let of = self.me.clone()?;
        let other = incarnation(address, uid)?;
        self.tell(Line::Sent {
            of,
            other,
            n,
            message,
        })
    }

    /// A system message is accepted for the peer at an address, waits, or is one too many. One to no peer is given up.
    #[tactic(auto, using(crate::proofs::Places::set_is_change, crate::proofs::Places::no_place_same, crate::proofs::Places::place_is_found, crate::proofs::Places::no_place))]
    fn accept(&mut self, address: &Address, message: SysMsg) -> Result<Accept, NoMemory>
        ensures answer { IfOk result (λ answer. answer ≡ acceptance message (peer_at address.now self.old.node).out) }
        ensures work { OnOk result (self.new ≡ peer_becomes address.now (accepted_by self.old.node.moment message (acceptance message (peer_at address.now self.old.node).out)) self.old) }
    {
        let (alloc, now) = (self.alloc, self.moment);
        let Some(at) = self.place_of(address) else {
            return Ok(Accept::Waiting { place: 1 });
        };
        let peer = &mut self.peers[at];
        peer.accept(alloc, now, message)
    }

    /// What follows once a message has its number: it is told as sent to the incarnation that is current, and what may be written is.
    fn sent(
        &mut self,
        address: &Address,
        current: Option<u64>,
        n: u64,
        message: SysMsg,
    ) -> Result<(), NoMemory>
        ensures { OnOk result (self.new ≡ sent address.now current n message self.old) }
    {
        self.tells_sent(address, current, n, message)?;
        self.pumps(address)
    }

    /// What follows an answer to a system message, once the peer has taken it.
    fn sent_after(
        &mut self,
        address: &Address,
        current: Option<u64>,
        message: SysMsg,
        answer: &Accept,
    ) -> Result<(), NoMemory>
        requires { current ≡ current_of (peer_at address.now self.old.node) }
        ensures { OnOk result (self.new ≡ sent_after address.now current message answer.now self.old) }
    {
        match answer {
            Accept::Accepted { n } => self.sent(address, current, *n, message),
            Accept::Waiting { .. } => Ok(()),
            Accept::Overflow(_) => {
                self.closes_or_refuses(address, current, Cause::Overflow, Reason::Waiting)
            }
        }
    }

    /// A system message goes to the peer at an address.
    #[tactic(auto, using(crate::proofs::Sent::accepted_so))]
    pub fn sends_now(&mut self, address: &Address, message: SysMsg) -> Result<(), NoMemory>
        ensures { OnOk result (self.new ≡ sends_now address.now message self.old) }
    {
        let copy = copy_of_message(&message)?;
        let current = self.current_at(address);
        let answer = self.accept(address, message)?;
        self.sent_after(address, current, copy, &answer)?;
        Ok(())
    }

    /// The peer at an address is used, and a system message goes to it.
    pub fn sends(&mut self, address: &Address, message: SysMsg) -> Result<(), NoMemory>
        ensures { OnOk result (self.new ≡ sends address.now message self.old) }
    {
        self.uses(address)?;
        self.sends_now(address, message)
    }

    // ---- telling

    /// The frame of an ordinary message to the peer at an address: with the tables adopted from it. `NoMemory` also where the frame would have
    /// more than 262,144 bytes, or a name in full more than 65,535.
    fn frame_of(&self, address: &Address, message: &Tell) -> Result<Bytes, NoMemory>
        ensures { IfOk result (λ frame. frame ≡ bytes_of self.now.node.me.uid (told_as self.now.node.me.uid (peer_at address.now self.now.node) message.now)) }
    {
        let none = OutTable::new();
        let (refs, manifests) = match self.peer(address) {
            None => (&none, &none),
            Some(peer) => peer.tables(),
        };
        frame_with(self.alloc, self.me.uid, message, refs, manifests)
    }

    /// A line tells that an ordinary message is written to the current incarnation at an address, on the connection with this dial number.
    fn tells_told(
        &mut self,
        address: &Address,
        current: Option<u64>,
        dial: u64,
        message: Tell,
    ) -> Result<(), NoMemory>
        ensures { OnOk result (self.new ≡ tells_told address.now current dial message self.old) }
    {
        let Some(uid) = current else {
            return Ok(());
        };
        let of = self.me.clone()?;
        let other = incarnation(address, uid)?;
        self.tell(Line::Told {
            of,
            other,
            dial,
            message,
        })
    }

    /// An ordinary message is told and written on the connection with this dial number.
    pub fn tells_on(&mut self, address: &Address, dial: u64, message: Tell) -> Result<(), NoMemory>
        ensures { OnOk result (self.new ≡ tells_on address.now dial message self.old) }
    {
        let current = self.current_at(address);
        let bytes = self.frame_of(address, &message)?;
        self.tells_told(address, current, dial, message)?;
        self.effects.push(Effect::Write { dial, bytes })?;
        Ok(())
    }

    /// How many ordinary messages are held for the peer at an address.
    fn held_at(&self, address: &Address) -> usize
        ensures { result ≡ length (peer_at address.now self.now.node).held }
    {
        match self.peer(address) {
            None => 0,
            Some(peer) => peer.held(),
        }
    }

    /// A message is held behind the others. One to no peer is given up.
    #[tactic(auto, using(crate::proofs::Places::set_is_change, crate::proofs::Places::no_place_same))]
    fn hold(&mut self, address: &Address, message: Tell) -> Result<(), NoMemory>
        ensures { OnOk result (self.new ≡ peer_becomes address.now (with_held message) self.old) }
    {
        let Some(at) = self.place_of(address) else {
            return Ok(());
        };
        let peer = &mut self.peers[at];
        peer.hold(message)
    }

    /// A message is held, or refused beside 3,072 others.
    fn holds(&mut self, address: &Address, message: Tell) -> Result<(), NoMemory>
        ensures { OnOk result (self.new ≡ holds address.now message self.old) }
    {
        if self.held_at(address) < MOST_HELD {
            self.hold(address, message)
        } else {
            self.refuses(Reason::Held)
        }
    }

    /// The dial number of the connection to an address that carries this, where it is bound to the UID that is current.
    pub fn current_dial(&self, stream: Stream, address: &Address) -> Option<u64>
        ensures { result ≡ current_dial stream (peer_at address.now self.now.node) }
    {
        match self.peer(address) {
            None => None,
            Some(peer) => peer.current_dial(stream),
        }
    }

    /// An ordinary message to the peer at an address: told where the ordinary connection is bound to the current UID, else held, or refused
    /// beside 3,072 others.
    pub fn tells_message(&mut self, address: &Address, message: Tell) -> Result<(), NoMemory>
        ensures { OnOk result (self.new ≡ tells_message address.now message self.old) }
    {
        match self.current_dial(Stream::Ordinary, address) {
            Some(dial) => self.tells_on(address, dial, message),
            None => self.holds(address, message),
        }
    }

    /// What is held for the peer at an address is held no longer.
    #[tactic(auto, using(crate::proofs::Places::set_is_change, crate::proofs::Places::no_place_same, crate::proofs::Places::place_is_found, crate::proofs::Places::no_place))]
    fn take_held(&mut self, address: &Address) -> Vec<Tell>
        ensures held { result.items ≡ (peer_at address.now self.old.node).held }
        ensures work { self.new ≡ peer_becomes address.now without_held self.old }
    {
        let alloc = self.alloc;
        let Some(at) = self.place_of(address) else {
            return Vec::new(alloc);
        };
        let peer = &mut self.peers[at];
        peer.take_held(alloc)
    }

    /// All messages that are held for the peer at an address are told, in order, on the connection with this dial number.
    #[tactic(auto, using(crate::proofs::Each::each_last))]
    pub fn tells_held(&mut self, address: &Address, dial: u64) -> Result<(), NoMemory>
        ensures { OnOk result (self.new ≡ tells_held address.now dial self.old) }
    {
        let held = self.take_held(address);
        for message in held {
            self.tells_on(address, dial, message)?;
        }
        Ok(())
    }
}

/// The frame of an ordinary message of the incarnation with this UID, written with these tables. `NoMemory` also where the frame would have
/// more than 262,144 bytes, or a name in full more than 65,535.
fn frame_with(
    alloc: Global,
    uid: u64,
    message: &Tell,
    refs: &OutTable,
    manifests: &OutTable,
) -> Result<Bytes, NoMemory>
    ensures { IfOk result (λ frame. frame ≡ bytes_of uid (Sends (written (held_indices refs.now) (held_indices manifests.now) (meaning_of uid message.now)))) }
{
    let meant = Message {
        uid,
        serializer: message.serializer,
        sender: message.sender.as_slice(),
        recipient: message.recipient.as_slice(),
        manifest: message.manifest.as_slice(),
        payload: message.payload.as_slice(),
    };
    let mut envelope = Bytes::new(alloc);
    if encode(&meant, refs, manifests, &mut envelope).is_err() || envelope.len() > MOST_FRAME {
        return Err(NoMemory);
    }
    let mut frame = Bytes::new(alloc);
    write_frame(envelope.as_slice(), &mut frame)?;
    Ok(frame)
}
