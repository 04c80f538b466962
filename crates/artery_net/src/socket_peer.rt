//! One connection over a socket, with what is still to be sent on it.
ghost use Rattle.std.specs.Prelude.{◌≡◌, ℕ, ◌+◌, ◌<◌, ◌≤◌, length, vec_len, IfOk};
ghost use Rattle.artery_net.specs.Seeing.{Sees};

use crate::event::NetFault;
use artery_machine::Conn;
use mio::net::TcpStream;
use std::alloc::Global;
use std::io;
use std::io::{ErrorKind, Read, Write};

/// The most unsent bytes of a connection, 16 MiB.
const UNSENT_MOST: usize = 16_777_216;

/// What a look at a connection found.
pub(crate) enum Seen {
    /// Nothing, until the system tells that there is more.
    Nothing,
    /// The dial is up.
    Up,
    /// So many bytes came into the buffer.
    Piece(usize),
    /// The connection has ended, or was never up.
    Gone,
}

/// One connection. Of `unsent` the first `sent` bytes were sent, and the others wait until the system takes them.
#[derive(Drop)]
pub(crate) struct Peer {
    stream: TcpStream,
    conn: Conn,
    token: usize,
    up: bool,
    unsent: Vec<u8>,
    sent: usize,
    ghost within: { sent ≤ vec_len unsent },
    ghost few: { vec_len unsent ≤ sent + 16777216 },
}

/// Sends the front of some bytes, as far as the system takes them, and answers how many it took.
fn send_front(stream: &mut TcpStream, bytes: &[u8]) -> io::Result<usize>
    ensures { IfOk result (λ n. n ≤ length bytes.now) }
{
    let mut sent = 0;
    for _ in 0..bytes.len() {
        let (_, rest) = bytes.split_at(sent);
        if rest.is_empty() {
            break;
        }
        match stream.write(rest) {
            Ok(0) => break,
            Ok(n) => sent += n,
            Err(e) if e.kind() == ErrorKind::WouldBlock => break,
            Err(e) => return Err(e),
        }
    }
    Ok(sent)
}

impl Peer {
    /// A connection over a stream, of which nothing is unsent. `up` says that it needs not be waited for.
    pub(crate) fn new(
        alloc: Global,
        stream: TcpStream,
        conn: Conn,
        token: usize,
        up: bool,
    ) -> Peer {
        Peer {
            stream,
            conn,
            token,
            up,
            unsent: Vec::new(alloc),
            sent: 0,
        }
    }

    /// Which connection it is.
    pub(crate) fn conn(&self) -> Conn {
        self.conn
    }

    /// Under which token the system tells of it.
    pub(crate) fn token(&self) -> usize {
        self.token
    }

    /// Whether it is up.
    pub(crate) fn is_up(&self) -> bool {
        self.up
    }

    /// Sends what is unsent, as far as the system takes it.
    fn flush(&mut self) -> io::Result<()> {
        let (_, rest) = self.unsent.as_slice().split_at(self.sent);
        let count = send_front(&mut self.stream, rest)?;
        self.sent += count;
        if self.sent == self.unsent.len() {
            self.unsent.clear();
            self.sent = 0;
        }
        Ok(())
    }

    /// Keeps bytes behind what is unsent. `Failed` comes where more than 16 MiB would be unsent, and keeps nothing.
    fn keep(&mut self, bytes: &[u8]) -> Result<(), NetFault> {
        let waiting = self.unsent.len() - self.sent;
        if bytes.len() > UNSENT_MOST - waiting {
            return Err(NetFault::Failed);
        }
        if self.sent > waiting {
            self.unsent.drain(..self.sent);
            self.sent = 0;
        }
        self.unsent.extend_from_slice(bytes)?;
        Ok(())
    }

    /// Sends bytes behind what is unsent. What the system does not take is kept until it does.
    pub(crate) fn send(&mut self, bytes: &[u8]) -> Result<(), NetFault> {
        if !self.up || !self.unsent.is_empty() {
            return self.keep(bytes);
        }
        let Ok(count) = send_front(&mut self.stream, bytes) else {
            return Err(NetFault::Failed);
        };
        let (_, rest) = bytes.split_at(count);
        self.keep(rest)
    }

    /// Whether the dial is up now.
    fn dialed(&mut self) -> Seen
        ensures { (room : ℕ) → Sees result room }
    {
        match self.stream.take_error() {
            Ok(None) => match self.stream.peer_addr() {
                Ok(_) => {
                    self.up = true;
                    Seen::Up
                }
                Err(_) => Seen::Nothing,
            },
            _ => Seen::Gone,
        }
    }

    /// One look: whether the dial is up, or else what came, once what is unsent was sent as far as the system takes it.
    pub(crate) fn look(&mut self, buffer: &mut [u8]) -> Seen
        requires { 0 < length buffer.old }
        ensures bound { Sees result (length buffer.old) }
        ensures size { length buffer.new ≡ length buffer.old }
    {
        if !self.up {
            return self.dialed();
        }
        if self.flush().is_err() {
            return Seen::Gone;
        }
        match self.stream.read(buffer) {
            Ok(0) => Seen::Gone,
            Ok(count) => Seen::Piece(count),
            Err(e) if e.kind() == ErrorKind::WouldBlock => Seen::Nothing,
            Err(_) => Seen::Gone,
        }
    }
}
