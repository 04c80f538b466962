//! A net over the sockets of the system.
ghost use Rattle.std.specs.Prelude.{◌≡◌, ◌≢◌, ℕ, ◌^◌, ◌<◌, ◌≤◌, None, Some, Err, IfOk, OnErr, IfSome, OnOk, length, vec_len};
ghost use Rattle.artery_net.specs.declared.event.NetFault.TheVariants as fault;
ghost use Rattle.artery_net.specs.Story.{HasNetCause, IsFit, moment_after};
ghost use Rattle.artery_net.specs.Coming.{NoTick};

use crate::event::{NetEvent, NetFault};
use crate::net::Net;
use crate::socket_peer::{Peer, Seen};
use artery_base::{Address, Bytes, NoMemory};
use artery_machine::Conn;
use mio::net::{TcpListener, TcpStream};
use mio::{Events, Interest, Poll, Token};
use std::alloc::Global;
use std::collections::VecDeque;
use std::io::ErrorKind;
use std::net::{SocketAddr, ToSocketAddrs};
use std::time::{Clock, Duration, Instant};
use std::{io, net};

/// The longest wait, and the longest time between two ticks, in milliseconds.
const TICK_MS: u64 = 100;

/// The first moment that is none.
const MOMENT_END: u64 = 1 << 62;

/// The token of the listening socket.
const LISTENER: usize = usize::MAX;

/// A net over sockets of IPv4. It tells no story.
///
/// It gives a `Tick` at least each 100 ms, in milliseconds since it was made, and waits at most 100 ms in `next`. Of each connection it keeps
/// at most 16 MiB of unsent bytes; a write that would pass this has failed, and so has one on a connection that the system has ended, or that
/// is not there. A write that failed ends its connection. A host is an address of four numbers or a name that is looked up, which may take
/// its time; a dial to one that is not found has failed.
#[derive(Drop)]
pub struct SocketNet<R> {
    rt: R,
    start: Instant,
    poll: Poll,
    events: Events,
    listener: TcpListener,
    // What comes in at one read.
    buffer: Vec<u8>,
    peers: Vec<Peer>,
    // Where there may be more to do: the system tells of it once.
    ready: VecDeque<usize>,
    tokens: usize,
    accepted: u64,
    moment: u64,
    asked: u64,
    faults: u64,
    next_faults: u64,
    ghost small: { moment < 2 ^ 62 },
    ghost room: { (0 < vec_len buffer) × (vec_len buffer ≤ 65536) },
}

/// A buffer for one piece.
fn new_buffer(alloc: Global) -> Result<Vec<u8>, NoMemory>
    ensures { IfOk result (λ b. (0 < vec_len b) × (vec_len b ≤ 65536)) }
{
    Ok(Vec::from_elem(alloc, 0, 65536)?)
}

/// The first address of IPv4 that an address names, if there is one.
fn resolve<R: net::Net>(rt: &R, address: &Address) -> io::Result<Option<SocketAddr>> {
    let Ok(host) = str::from_utf8(address.host.as_slice()) else {
        return Ok(None);
    };
    let mut found = (host, address.port).to_socket_addrs(rt)?;
    Ok(found.find(|a| a.is_ipv4()))
}

/// Listens at an address, and notes the moment.
fn open<R: net::Net + Clock>(
    rt: &R,
    address: &Address,
) -> io::Result<Option<(Instant, Poll, TcpListener)>> {
    let Some(at) = resolve(rt, address)? else {
        return Ok(None);
    };
    let start = Instant::now(rt)?;
    let poll = Poll::new(rt)?;
    let mut listener = TcpListener::bind(rt, at)?;
    poll.registry()
        .register(&mut listener, Token(LISTENER), Interest::READABLE)?;
    Ok(Some((start, poll, listener)))
}

/// Begins to connect to an address.
fn connect<R: net::Net>(rt: &R, address: &Address) -> io::Result<Option<TcpStream>> {
    let Some(at) = resolve(rt, address)? else {
        return Ok(None);
    };
    Ok(Some(TcpStream::connect(rt, at)?))
}

/// What is told where a connection is up.
fn dialed(conn: Conn) -> Option<NetEvent>
    ensures { (last : ℕ) → NoTick last result }
{
    match conn {
        Conn::Outward(dial) => Some(NetEvent::Dialed { dial }),
        Conn::Inward(_) => None,
    }
}

/// What is told where a connection is gone: that the dial failed, where it never was up.
fn gone(conn: Conn, up: bool) -> NetEvent
    ensures { (last : ℕ) → NoTick last (Some result) }
{
    match conn {
        Conn::Outward(dial) if !up => NetEvent::DialFailed { dial },
        _ => NetEvent::Ended { conn },
    }
}

/// What is told of bytes that came into the buffer: nothing, where they came on a dialed connection, which carries none.
fn piece(
    alloc: Global,
    conn: Conn,
    buffer: &[u8],
    count: usize,
) -> Result<Option<NetEvent>, NoMemory>
    requires some { 0 < count }
    requires bound { count ≤ length buffer.now }
    requires most { length buffer.now ≤ 65536 }
    ensures { IfOk result (λ e. (last : ℕ) → NoTick last e) }
{
    let Conn::Inward(conn) = conn else {
        return Ok(None);
    };
    let piece = Bytes::from_slice(alloc, &buffer[..count])?;
    Ok(Some(NetEvent::Bytes { conn, piece }))
}

impl<R: net::Net + Clock + Drop> SocketNet<R> {
    ghost use Rattle.artery_net.specs.Counting.{counts};

    /// A net that listens at the host and port of an address. `Failed` comes where the system refuses to.
    pub fn listen(rt: R, alloc: Global, address: &Address) -> Result<SocketNet<R>, NetFault>
        ensures { IfOk result (λ n. counts n ≡ record { asked = 0; faults = 0; next_faults = 0; moment = 0 }) }
    {
        let buffer = new_buffer(alloc)?;
        let events = Events::with_capacity(alloc, 64)?;
        let Ok(Some((start, poll, listener))) = open(&rt, address) else {
            return Err(NetFault::Failed);
        };
        Ok(SocketNet {
            rt,
            start,
            poll,
            events,
            listener,
            buffer,
            peers: Vec::new(alloc),
            ready: VecDeque::new(alloc),
            tokens: 0,
            accepted: 0,
            moment: 0,
            asked: 0,
            faults: 0,
            next_faults: 0,
        })
    }

    /// The milliseconds since it was made, never less than the moment of the last tick.
    fn now(&self) -> io::Result<u64>
        ensures { IfOk result (λ now. (self.now.moment ≤ now) × (now < 2 ^ 62)) }
    {
        let elapsed = self.start.elapsed(&self.rt)?.as_millis();
        let most = MOMENT_END - 1;
        let now = u64::try_from(elapsed).unwrap_or(most).min(most);
        Ok(now.max(self.moment))
    }

    /// The place of the connection with this token.
    fn with_token(&self, token: usize) -> Option<usize>
        ensures { IfSome result (λ at. at < vec_len self.now.peers) }
    {
        self.peers.iter().position(|p| p.token() == token)
    }

    /// The place of this connection.
    fn with_conn(&self, conn: Conn) -> Option<usize>
        ensures { IfSome result (λ at. at < vec_len self.now.peers) }
    {
        self.peers.iter().position(|p| p.conn() == conn)
    }
}

impl<R: net::Net + Clock + Drop> SocketNet<R> {
    ghost use Rattle.artery_net.specs.Counting.{counts};

    /// Keeps a stream under a new token.
    fn keep(
        &mut self,
        alloc: Global,
        mut stream: TcpStream,
        conn: Conn,
        up: bool,
    ) -> Result<(), NetFault>
        ensures { counts self.new ≡ counts self.old }
    {
        let token = self.tokens;
        self.tokens = self.tokens.wrapping_add(1);
        let both = Interest::READABLE | Interest::WRITABLE;
        if self
            .poll
            .registry()
            .register(&mut stream, Token(token), both)
            .is_err()
        {
            return Err(NetFault::Failed);
        }
        self.peers.push(Peer::new(alloc, stream, conn, token, up))?;
        Ok(())
    }

    /// Takes the next connection that waits to come in. One that can't be kept is dropped.
    fn accept(&mut self, alloc: Global) -> Result<Option<NetEvent>, NoMemory>
        ensures same { counts self.new ≡ counts self.old }
        ensures event { IfOk result (NoTick self.old.moment) }
    {
        let stream = match self.listener.accept() {
            Ok((stream, _)) => stream,
            Err(e) if e.kind() == ErrorKind::WouldBlock => return Ok(None),
            Err(_) => {
                self.ready.push_back(LISTENER)?;
                return Ok(None);
            }
        };
        let conn = self.accepted.saturating_add(1);
        self.accepted = conn;
        match self.keep(alloc, stream, Conn::Inward(conn), true) {
            Ok(()) => {
                self.ready.push_back(LISTENER)?;
                Ok(Some(NetEvent::Accepted { conn }))
            }
            Err(NetFault::Failed) => Ok(None),
            Err(NetFault::NoMemory) => Err(NoMemory),
        }
    }

    /// Looks at the connection at a place.
    fn look(&mut self, alloc: Global, at: usize) -> Result<Option<NetEvent>, NoMemory>
        requires { at < vec_len self.old.peers }
        ensures same { counts self.new ≡ counts self.old }
        ensures event { IfOk result (NoTick self.old.moment) }
    {
        let peer = &mut self.peers[at];
        let conn = peer.conn();
        let token = peer.token();
        let up = peer.is_up();
        match peer.look(self.buffer.as_mut_slice()) {
            Seen::Nothing => Ok(None),
            Seen::Up => {
                self.ready.push_back(token)?;
                Ok(dialed(conn))
            }
            Seen::Piece(count) => {
                self.ready.push_back(token)?;
                piece(alloc, conn, self.buffer.as_slice(), count)
            }
            Seen::Gone => {
                drop(self.peers.swap_remove(at));
                Ok(Some(gone(conn, up)))
            }
        }
    }

    /// Looks at what a token names.
    fn look_at(&mut self, alloc: Global, token: usize) -> Result<Option<NetEvent>, NoMemory>
        ensures same { counts self.new ≡ counts self.old }
        ensures event { IfOk result (NoTick self.old.moment) }
    {
        if token == LISTENER {
            return self.accept(alloc);
        }
        match self.with_token(token) {
            Some(at) => self.look(alloc, at),
            None => Ok(None),
        }
    }

    /// The first event of what may have more to do, each looked at once.
    fn progress(&mut self, alloc: Global) -> Result<Option<NetEvent>, NoMemory>
        ensures same { counts self.new ≡ counts self.old }
        ensures event { IfOk result (NoTick self.old.moment) }
    {
        let most = self.ready.len();
        for _ in 0..most {
            let Some(token) = self.ready.pop_front() else {
                break;
            };
            if let Some(event) = self.look_at(alloc, token)? {
                return Ok(Some(event));
            }
        }
        Ok(None)
    }

    /// Waits until something is ready, for at most so many milliseconds, and notes what.
    fn wait(&mut self, millis: u64) -> Result<(), NetFault>
        ensures { counts self.new ≡ counts self.old }
    {
        let most = Duration::from_millis(millis);
        if self.poll.poll(&mut self.events, Some(most)).is_err() {
            return Err(NetFault::Failed);
        }
        for event in &self.events {
            let token = event.token().0;
            if !self.ready.contains(&token) {
                self.ready.push_back(token)?;
            }
        }
        Ok(())
    }
}

impl<R: net::Net + Clock + Drop> SocketNet<R> {
    ghost use Rattle.artery_net.specs.Counting.{counts, Counts};

    /// A failed call of `next`, which is counted.
    fn fail_next(&mut self) -> Result<NetEvent, NetFault>
        ensures answer { result ≡ Err fault.Failed }
        ensures cause { HasNetCause self.old.faults self.new.faults result }
        ensures next_cause { HasNetCause self.old.next_faults self.new.next_faults result }
        ensures rest { counts self.new ≡ record (counts self.old) { faults = self.new.faults; next_faults = self.new.next_faults } }
    {
        self.faults = self.faults.saturating_add(1);
        self.next_faults = self.next_faults.saturating_add(1);
        Err(NetFault::Failed)
    }

    /// A failed act, which is counted.
    fn fail(&mut self) -> Result<(), NetFault>
        ensures cause { HasNetCause self.old.faults self.new.faults result }
        ensures rest { counts self.new ≡ record (counts self.old) { faults = self.new.faults } }
    {
        self.faults = self.faults.saturating_add(1);
        Err(NetFault::Failed)
    }

    /// Lets a connection go.
    fn forget(&mut self, conn: Conn)
        ensures { counts self.new ≡ counts self.old }
    {
        if let Some(at) = self.with_conn(conn) {
            drop(self.peers.swap_remove(at));
        }
    }

    /// Begins a connection to an address.
    fn begin(&mut self, alloc: Global, dial: u64, address: &Address) -> Result<(), NetFault>
        ensures { counts self.new ≡ counts self.old }
    {
        let Ok(Some(stream)) = connect(&self.rt, address) else {
            return Err(NetFault::Failed);
        };
        self.keep(alloc, stream, Conn::Outward(dial), false)
    }

    /// Sends bytes on a dialed connection.
    fn send(&mut self, dial: u64, bytes: &[u8]) -> Result<(), NetFault>
        ensures { counts self.new ≡ counts self.old }
    {
        let Some(at) = self.with_conn(Conn::Outward(dial)) else {
            return Err(NetFault::Failed);
        };
        let peer = &mut self.peers[at];
        peer.send(bytes)
    }

    /// What comes in at most so many milliseconds, where anything does.
    fn come(&mut self, alloc: Global, millis: u64) -> Result<NetEvent, NetFault>
        ensures same { counts self.new ≡ counts self.old }
        ensures event { IfOk result (λ e. NoTick self.old.moment (Some e)) }
    {
        if let Some(event) = self.progress(alloc)? {
            return Ok(event);
        }
        self.wait(millis)?;
        match self.progress(alloc)? {
            Some(event) => Ok(event),
            None => Ok(NetEvent::Idle),
        }
    }

    /// A tick where one is due, once it was noted what is ready; else what comes until then.
    fn gives(&mut self, alloc: Global, now: u64) -> Result<NetEvent, NetFault>
        requires later { self.old.moment ≤ now }
        requires small { now < 2 ^ 62 }
        ensures same { counts self.new ≡ record (counts self.old) { moment = self.new.moment } }
        ensures fit { IfOk result (λ e. IsFit self.old.moment e) }
        ensures moment { IfOk result (λ e. self.new.moment ≡ moment_after self.old.moment e) }
        ensures unmoved { OnErr result (self.new.moment ≡ self.old.moment) }
    {
        let since = now - self.moment;
        if since < TICK_MS {
            return self.come(alloc, TICK_MS - since);
        }
        self.wait(0)?;
        self.moment = now;
        Ok(NetEvent::Tick { now })
    }
}

impl<R: net::Net + Clock + Drop> Net for SocketNet<R> {
    ghost story = { λ _. None };

    ghost faults = { λ n. n.faults };

    ghost next_faults = { λ n. n.next_faults };

    ghost asked = { λ n. n.asked };

    ghost moment = { λ n. n.moment };

    fn next(&mut self, alloc: Global) -> Result<NetEvent, NetFault> {
        self.asked = self.asked.saturating_add(1);
        let Ok(now) = self.now() else {
            return self.fail_next();
        };
        match self.gives(alloc, now) {
            Ok(event) => Ok(event),
            Err(NetFault::Failed) => self.fail_next(),
            Err(NetFault::NoMemory) => Err(NetFault::NoMemory),
        }
    }

    fn dial(&mut self, alloc: Global, dial: u64, address: &Address) -> Result<(), NetFault> {
        match self.begin(alloc, dial, address) {
            Ok(()) => Ok(()),
            Err(NetFault::Failed) => self.fail(),
            Err(NetFault::NoMemory) => Err(NetFault::NoMemory),
        }
    }

    fn write(&mut self, _alloc: Global, dial: u64, bytes: &[u8]) -> Result<(), NetFault> {
        match self.send(dial, bytes) {
            Ok(()) => Ok(()),
            Err(NetFault::Failed) => {
                self.forget(Conn::Outward(dial));
                self.fail()
            }
            Err(NetFault::NoMemory) => Err(NetFault::NoMemory),
        }
    }

    fn hang(&mut self, conn: Conn) {
        self.forget(conn);
    }
}
