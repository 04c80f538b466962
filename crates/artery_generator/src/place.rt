ghost use Rattle.std.specs.Prelude.{◌≡◌, IfOk, codes};
ghost use Rattle.std.specs.Str.{IsAscii};
ghost use Rattle.artery_generator.specs.Places.{place, address_named, address_of, first_other, second_other, actor_at, watched_path, watching_path};

use artery_base::{Address, NoMemory, Text};
use std::alloc::Global;

const PROTOCOL: &[u8] = b"akka";

const PORT: u16 = 25_520;

/// One of the three places where an incarnation lives.
#[derive(Clone, Copy, Debug, PartialEq, Eq)]
pub enum Place {
    A,
    B,
    C,
}

fn address_named(alloc: Global, system: &[u8], host: &[u8]) -> Result<Address, NoMemory>
    requires system { IsAscii system.now }
    requires host { IsAscii host.now }
    ensures { IfOk result (λ a. a ≡ address_named system.now host.now) }
{
    let protocol = Text::from_ascii(alloc, PROTOCOL)?;
    let system = Text::from_ascii(alloc, system)?;
    let host = Text::from_ascii(alloc, host)?;
    Ok(Address {
        protocol,
        system,
        host,
        port: PORT,
    })
}

impl Place {
    /// The place with this number: 0, 1, and 2 or more.
    pub(crate) fn numbered(number: u32) -> Place
        ensures { result ≡ place number }
    {
        match number {
            0 => Place::A,
            1 => Place::B,
            _ => Place::C,
        }
    }

    /// The two others, in order.
    pub(crate) fn others(self) -> (Place, Place)
        ensures { result ≡ (first_other self, second_other self) }
    {
        match self {
            Place::A => (Place::B, Place::C),
            Place::B => (Place::A, Place::C),
            Place::C => (Place::A, Place::B),
        }
    }

    /// The address of the system there.
    pub(crate) fn address(self, alloc: Global) -> Result<Address, NoMemory>
        ensures { IfOk result (λ a. a ≡ address_of self) }
    {
        match self {
            Place::A => address_named(alloc, b"A", b"h1"),
            Place::B => address_named(alloc, b"B", b"h2"),
            Place::C => address_named(alloc, b"C", b"h3"),
        }
    }

    /// The actor there that watches and tells.
    pub(crate) fn watching(self, alloc: Global) -> Result<Text, NoMemory>
        ensures { IfOk result (λ t. t ≡ actor_at self watching_path) }
    {
        match self {
            Place::A => Text::from_ascii(alloc, b"akka://A@h1:25520/user/w"),
            Place::B => Text::from_ascii(alloc, b"akka://B@h2:25520/user/w"),
            Place::C => Text::from_ascii(alloc, b"akka://C@h3:25520/user/w"),
        }
    }

    /// The actor there that is watched and told.
    pub(crate) fn watched(self, alloc: Global) -> Result<Text, NoMemory>
        ensures { IfOk result (λ t. t ≡ actor_at self watched_path) }
    {
        match self {
            Place::A => Text::from_ascii(alloc, b"akka://A@h1:25520/user/x"),
            Place::B => Text::from_ascii(alloc, b"akka://B@h2:25520/user/x"),
            Place::C => Text::from_ascii(alloc, b"akka://C@h3:25520/user/x"),
        }
    }
}
