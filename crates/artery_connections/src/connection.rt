//! One connection, and the bytes that are on their way on it.
ghost use Rattle.std.specs.Prelude.{◌≡◌, ◌≤◌, take, drop, vec_len, OnOk, OnErr, IfOk};
ghost use Rattle.artery_machine.specs.Connections.{connected, far_open, load, is_loaded, undelivered_on, near_ended, far_ended, with_delivered};
ghost use Rattle.artery_connections.specs.Change.{with_bytes, gained, counts_of};

use artery_base::{Bytes, NoMemory};
use std::alloc::Global;
use std::marker::Model;
use std::mem;

/// Who dialed a connection and by which dial, and how many bytes were written on it and delivered, each at most
/// 18,446,744,073,709,551,615.
#[derive(Clone, Copy, Debug, PartialEq, Eq)]
pub struct Counts {
    /// The UID of who dialed.
    pub uid: u64,
    /// The number of that dial.
    pub dial: u64,
    /// How many bytes were written, also those that were lost.
    pub written: u64,
    /// How many bytes were delivered.
    pub delivered: u64,
}

/// A connection: who dialed it, whom it reaches, which of its sides are open, and the bytes on their way from the near side to the far one.
///
/// Its buffer holds the bytes that are on their way behind some that are gone. A contract sees those on their way alone.
#[derive(Drop)]
pub struct Connection {
    dialer: u64,
    dial: u64,
    far: u64,
    number: u64,
    near_open: bool,
    far_open: bool,
    bytes: Vec<u8>,
    at: usize,
    written: u64,
    delivered: u64,
}

impl Model for Connection {
    ghost use Rattle.std.specs.Prelude.{◌≤◌, drop, vec_len};
    ghost use Rattle.artery_machine.specs.Ways.{kept_ways};
    ghost use Rattle.artery_machine.specs.Connections as machine;

    ghost Value = { machine.Connection kept_ways };

    ghost view = { λ c. record { dialer = c.dialer; dial = c.dial; far = c.far; number = c.number; near_open = c.near_open; way = record { bytes = drop c.at c.bytes.items; written = c.written; delivered = c.delivered; is_open = c.far_open } } };

    ghost invariant = { λ c. c.at ≤ vec_len c.bytes };
}

impl Connection {
    /// A connection that was just made, with both sides open and no byte on its way. Takes no memory.
    pub(crate) fn new(alloc: Global, dialer: u64, dial: u64, far: u64, number: u64) -> Connection
        ensures { result ≡ connected dialer dial far number }
    {
        Connection {
            dialer,
            dial,
            far,
            number,
            near_open: true,
            far_open: true,
            bytes: Vec::new(alloc),
            at: 0,
            written: 0,
            delivered: 0,
        }
    }

    /// The UID of who dialed it.
    pub fn dialer(&self) -> u64
        ensures { result ≡ self.now.dialer }
    {
        self.dialer
    }

    /// The number of that dial.
    pub fn dial(&self) -> u64
        ensures { result ≡ self.now.dial }
    {
        self.dial
    }

    /// The UID of whom it reaches.
    pub fn far(&self) -> u64
        ensures { result ≡ self.now.far }
    {
        self.far
    }

    /// Its number at whom it reaches.
    pub fn number(&self) -> u64
        ensures { result ≡ self.now.number }
    {
        self.number
    }

    /// Whether its near side, that of who dialed, is open.
    pub fn near_open(&self) -> bool
        ensures { result ≡ self.now.near_open }
    {
        self.near_open
    }

    /// Whether its far side is open.
    pub fn far_open(&self) -> bool
        ensures { result ≡ far_open self.now }
    {
        self.far_open
    }

    /// How many bytes are on their way.
    pub fn load(&self) -> usize
        ensures { result ≡ load self.now }
    {
        self.bytes.len() - self.at
    }

    /// Whether bytes are on their way.
    pub(crate) fn is_loaded(&self) -> bool
        ensures { result ≡ is_loaded self.now }
    {
        self.at < self.bytes.len()
    }

    /// How many of these bytes would be on their way once they are written.
    pub(crate) fn gained(&self, bytes: &[u8]) -> u64
        ensures { result ≡ gained bytes.now self.now }
    {
        if self.far_open { bytes.len() as u64 } else { 0 }
    }

    /// Who dialed it, and its counts.
    pub(crate) fn counts(&self) -> Counts
        ensures { result ≡ counts_of self.now }
    {
        Counts {
            uid: self.dialer,
            dial: self.dial,
            written: self.written,
            delivered: self.delivered,
        }
    }

    /// Writes bytes: they count, and are on their way where the far side is open. Without memory nothing changes.
    pub(crate) fn write(&mut self, bytes: &[u8]) -> Result<(), NoMemory>
        ensures ok { OnOk result (self.new ≡ with_bytes bytes.now self.old) }
        ensures err { OnErr result (self.new ≡ self.old) }
    {
        if self.far_open {
            self.bytes.extend_from_slice(bytes)?;
        }
        self.written = self.written.saturating_add(bytes.len() as u64);
        Ok(())
    }

    /// Takes the first `count` of the bytes that are on their way, at most all, and counts them as delivered. All of them are handed over
    /// without a copy, where none was taken before from the buffer that they stand in. Without memory nothing changes.
    pub(crate) fn take(&mut self, alloc: Global, count: usize) -> Result<Bytes, NoMemory>
        ensures bytes { IfOk result (λ b. b ≡ take count (undelivered_on self.old)) }
        ensures ok { OnOk result (self.new ≡ with_delivered count self.old) }
        ensures err { OnErr result (self.new ≡ self.old) }
    {
        if self.at == 0 && count >= self.bytes.len() {
            let bytes = mem::replace(&mut self.bytes, Vec::new(alloc));
            self.delivered = self.delivered.saturating_add(bytes.len() as u64);
            return Ok(Bytes::from_vec(bytes));
        }
        let count = count.min(self.bytes.len() - self.at);
        let gone = self.at + count;
        let taken = Bytes::from_slice(alloc, &self.bytes[self.at..gone])?;
        self.delivered = self.delivered.saturating_add(count as u64);
        self.at = give_up(&mut self.bytes, gone);
        Ok(taken)
    }

    /// Ends the near side.
    pub(crate) fn end_near(&mut self)
        ensures { self.new ≡ near_ended self.old }
    {
        self.near_open = false;
    }

    /// Ends the far side: what is on its way is lost.
    pub(crate) fn end_far(&mut self)
        ensures { self.new ≡ far_ended self.old }
    {
        self.bytes.clear();
        self.at = 0;
        self.far_open = false;
    }
}

/// Gives up the room of the first bytes of a buffer, which are gone, where that costs at most as many moves as bytes are gone, and answers
/// how many of the bytes that it has then are gone.
fn give_up(bytes: &mut Vec<u8>, gone: usize) -> usize
    requires { gone ≤ vec_len bytes.old }
    ensures rest { drop result bytes.new.items ≡ drop gone bytes.old.items }
    ensures within { result ≤ vec_len bytes.new }
{
    if gone == bytes.len() {
        bytes.clear();
        return 0;
    }
    if gone > bytes.len() / 2 {
        bytes.drain(..gone);
        return 0;
    }
    gone
}
