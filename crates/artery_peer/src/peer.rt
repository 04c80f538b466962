//! What a node knows of one peer.
ghost use Rattle.std.specs.Prelude.{◌≡◌, ◌<◌, ◌≤◌, ◌^◌, ◌++◌, ◌∷◌, [], length, None, Some, IfOk, OnOk, OnErr, is_some, true};
ghost use Rattle.artery_delivery.specs.Outbound.{acceptance, is_full, next_to_write, kept_accepted, kept_pumped, kept_rewound};
ghost use Rattle.artery_assoc.specs.Peer.{is_closed};
ghost use Rattle.artery_machine.specs.Parts.{kept};
ghost use Rattle.artery_machine.specs.Node.{new_peer, address_of, current_of, conn_of, current_dial, is_peer, dialed_as, stream_dialed, with_link};
ghost use Rattle.artery_machine.specs.Making.{link_dialing, link_gone, link_lost, used_now};
ghost use Rattle.artery_machine.specs.Sending.{with_out, keeps_nothing, with_held, without_held};
ghost use Rattle.artery_peer.specs.Accepting.{accepted_by};
ghost use Rattle.artery_machine.specs.Closing.{with_closed, without_detector, with_new_tables};
ghost use Rattle.artery_machine.specs.Handshaking.{quiet_now};

use crate::connection::{dial_to, has_dial};
use artery_assoc::Peer as Incarnations;
use artery_base::{Address, NoMemory, SysMsg, Tell};
use artery_delivery::{Accept, Outbound};
use artery_detector::Detector;
use artery_frame::Stream;
use artery_handshake::{OutConn, OutState};
use artery_machine::Link;
use artery_tables::OutTable;
use std::alloc::Global;
use std::marker::Model;
use std::mem;

/// A lost connection is dialed again after this many milliseconds at the earliest.
const REDIAL_AFTER_MS: u64 = 1_000;

/// A peer: its address with the UIDs known there; the system messages to it; the ordinary messages that are held for it; the tables adopted
/// from it; its two connections; the moments since when it is quiet, patience runs and it is unused; whether it is asleep; its asks and
/// heartbeats, and the moment of the last heartbeat written to it.
#[derive(Drop)]
pub struct Peer {
    pub(crate) incarnations: Incarnations,
    pub(crate) out: Outbound,
    pub(crate) held: Vec<Tell>,
    pub(crate) refs: OutTable,
    pub(crate) manifests: OutTable,
    pub(crate) control: Link,
    pub(crate) ordinary: Link,
    pub(crate) quiet: u64,
    pub(crate) patience: u64,
    pub(crate) used: u64,
    pub(crate) asleep: bool,
    pub(crate) beats: Detector,
    pub(crate) last_beat: Option<u64>,
}

impl Model for Peer {
    ghost use Rattle.artery_machine.specs.Parts.{kept};
    ghost use Rattle.artery_machine.specs.Node as nodes;
    ghost use Rattle.artery_peer.specs.Current.{IsOpen};

    ghost Value = { nodes.Peer kept };

    ghost view = { λ p. record { incarnations = p.incarnations; out = p.out.kept; held = p.held.items; tables = record { refs = p.refs; manifests = p.manifests }; control = p.control; ordinary = p.ordinary; quiet = p.quiet; patience = p.patience; used = p.used; asleep = p.asleep; beats = p.beats; last_beat = p.last_beat } };

    ghost invariant = { λ p. IsOpen p.out.kept.learnt p.incarnations };
}

impl Peer {
    /// A peer that was just made.
    pub fn new(alloc: Global, address: &Address) -> Result<Peer, NoMemory>
        ensures { IfOk result (λ p. p ≡ new_peer address.now) }
    {
        let copy = address.clone()?;
        Ok(Peer {
            incarnations: Incarnations::new(alloc, copy)?,
            out: Outbound::new(),
            held: Vec::new(alloc),
            refs: OutTable::new(),
            manifests: OutTable::new(),
            control: Link {
                conn: None,
                redial: 0,
            },
            ordinary: Link {
                conn: None,
                redial: 0,
            },
            quiet: 0,
            patience: 0,
            used: 0,
            asleep: false,
            beats: Detector::new(),
            last_beat: None,
        })
    }

    /// The address.
    pub fn address(&self) -> &Address
        ensures { result.now ≡ address_of self.now }
    {
        self.incarnations.address()
    }

    /// Whether this is its address.
    pub fn is_at(&self, address: &Address) -> bool
        ensures { result ≡ is_peer address.now self.now }
    {
        *self.incarnations.address() == *address
    }

    /// The UID that is current.
    pub fn current(&self) -> Option<u64>
        ensures { result ≡ current_of self.now }
    {
        self.incarnations.current()
    }

    /// Whether the incarnation with this UID was closed.
    pub fn has_closed(&self, uid: u64) -> bool
        ensures { result ≡ is_closed uid self.now.incarnations }
    {
        self.incarnations.is_closed(uid)
    }

    /// The own connection that carries this, if there is one.
    pub fn conn(&self, stream: Stream) -> Option<OutConn>
        ensures { result ≡ conn_of stream self.now }
    {
        match stream {
            Stream::Control => self.control.conn,
            Stream::Ordinary => self.ordinary.conn,
        }
    }

    /// The dial number of the connection that carries this, where it is bound to the UID that is current.
    pub fn current_dial(&self, stream: Stream) -> Option<u64>
        ensures { result ≡ current_dial stream self.now }
    {
        match self.current() {
            None => None,
            Some(uid) => dial_to(uid, self.conn(stream)),
        }
    }

    /// Whether one of its connections has this dial number.
    pub fn is_dialed_as(&self, dial: u64) -> bool
        ensures { result ≡ dialed_as dial self.now }
    {
        has_dial(dial, self.control.conn) || has_dial(dial, self.ordinary.conn)
    }

    /// Which of its connections has this dial number, where one of them has it.
    pub fn stream_dialed(&self, dial: u64) -> Stream
        ensures { result ≡ stream_dialed dial self.now }
    {
        if has_dial(dial, self.control.conn) {
            Stream::Control
        } else {
            Stream::Ordinary
        }
    }

    /// Whether the peer is asleep.
    pub fn is_asleep(&self) -> bool
        ensures { result ≡ self.now.asleep }
    {
        self.asleep
    }

    /// How many system messages are kept or wait.
    pub fn kept(&self) -> u64
        ensures { result ≡ length self.now.out.messages }
    {
        self.out.kept()
    }

    /// Whether no system message is kept for the peer or waits.
    pub fn keeps_nothing(&self) -> bool
        ensures { result ≡ keeps_nothing self.now }
    {
        self.out.kept() == 0
    }

    /// How many ordinary messages are held.
    pub fn held(&self) -> usize
        ensures { result ≡ length self.now.held }
    {
        self.held.len()
    }

    /// The tables of references and of manifests that were adopted from the peer.
    pub fn tables(&self) -> (&OutTable, &OutTable)
        ensures refs { result.0.now ≡ self.now.tables.refs }
        ensures manifests { result.1.now ≡ self.now.tables.manifests }
    {
        (&self.refs, &self.manifests)
    }

    // ---- changes

    /// The peer is used now, and awake.
    pub fn set_used(&mut self, now: u64)
        ensures { self.new ≡ used_now now self.old }
    {
        self.used = now;
        self.asleep = false;
    }

    /// A connection is being dialed with this number.
    pub fn set_dialing(&mut self, stream: Stream, dial: u64)
        ensures { self.new ≡ with_link stream (link_dialing stream dial) self.old }
    {
        let conn = OutConn {
            dial,
            stream,
            state: OutState::Dialing,
        };
        match stream {
            Stream::Control => self.control.conn = Some(conn),
            Stream::Ordinary => self.ordinary.conn = Some(conn),
        }
    }

    /// A connection is gone, and may be dialed again 1,000 ms from now.
    pub fn set_lost(&mut self, stream: Stream, now: u64)
        requires { now < 2 ^ 62 }
        ensures { self.new ≡ with_link stream (link_lost now) self.old }
    {
        let lost = Link {
            conn: None,
            redial: now + REDIAL_AFTER_MS,
        };
        match stream {
            Stream::Control => self.control = lost,
            Stream::Ordinary => self.ordinary = lost,
        }
    }

    /// A connection is gone.
    pub fn set_gone(&mut self, stream: Stream)
        ensures { self.new ≡ with_link stream link_gone self.old }
    {
        match stream {
            Stream::Control => self.control.conn = None,
            Stream::Ordinary => self.ordinary.conn = None,
        }
    }

    /// A system message to the peer, at this moment: accepted with its number, waiting until a UID is known, or one too many, which changes
    /// nothing. Without memory nothing changes.
    pub fn accept(&mut self, alloc: Global, now: u64, message: SysMsg) -> Result<Accept, NoMemory>
        ensures answer { IfOk result (λ answer. answer ≡ acceptance message self.old.out) }
        ensures ok { OnOk result (self.new ≡ accepted_by now message (acceptance message self.old.out) self.old) }
        ensures err { OnErr result (self.new ≡ self.old) }
    {
        self.out.reserve(alloc)?;
        let nothing = self.keeps_nothing();
        match self.out.accept(message) {
            Accept::Accepted { n } => {
                if nothing {
                    self.quiet = now;
                    self.patience = now;
                }
                Ok(Accept::Accepted { n })
            }
            other => Ok(other),
        }
    }

    /// The next message to write with its number, which counts as written then; None where none is next.
    pub fn pump(&mut self) -> Result<Option<(u64, SysMsg)>, NoMemory>
        ensures next { IfOk result (λ next. next ≡ next_to_write self.old.out) }
        ensures peer { OnOk result (self.new ≡ with_out kept_pumped self.old) }
    {
        match self.out.pump() {
            None => Ok(None),
            Some((n, message)) => Ok(Some((n, message.clone()?))),
        }
    }

    /// What would be answered to a system message: whether it would be one too many.
    pub fn is_full(&self) -> bool
        ensures { result ≡ is_full self.now.out }
    {
        self.out.is_full()
    }

    /// The writing begins anew at the first message that is kept.
    pub fn rewind(&mut self)
        ensures { self.new ≡ with_out kept_rewound self.old }
    {
        self.out.rewind();
    }

    /// The peer is quiet from now on.
    pub fn set_quiet(&mut self, now: u64)
        ensures { self.new ≡ quiet_now now self.old }
    {
        self.quiet = now;
    }

    /// A message is held behind the others. Without memory nothing changes.
    pub fn hold(&mut self, message: Tell) -> Result<(), NoMemory>
        ensures ok { OnOk result (self.new ≡ with_held message self.old) }
        ensures err { OnErr result (self.new ≡ self.old) }
    {
        self.held.push(message)?;
        Ok(())
    }

    /// Nothing is held; what was is given back.
    pub fn take_held(&mut self, alloc: Global) -> Vec<Tell>
        ensures held { result.items ≡ self.old.held }
        ensures peer { self.new ≡ without_held self.old }
    {
        mem::replace(&mut self.held, Vec::new(alloc))
    }

    /// The incarnation with this UID, the current one, is closed: no UID is current, and what was kept for it is given up.
    pub fn close(&mut self, uid: u64)
        requires { current_of self.old ≡ Some uid }
        ensures { self.new ≡ with_closed uid self.old }
    {
        self.out.forget();
        self.incarnations.close(uid);
    }

    /// The detector is removed.
    pub fn remove_detector(&mut self)
        ensures { self.new ≡ without_detector self.old }
    {
        self.beats.remove();
        self.last_beat = None;
    }

    /// The tables are new.
    pub fn renew_tables(&mut self)
        ensures { self.new ≡ with_new_tables self.old }
    {
        self.refs = OutTable::new();
        self.manifests = OutTable::new();
    }
}
