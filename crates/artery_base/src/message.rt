use crate::address::Address;
use crate::bytes::Bytes;
use crate::text::Text;

/// A system message: what it is written with, its manifest and its payload.
#[derive(Clone, Debug, PartialEq, Eq, Drop)]
pub struct SysMsg {
    pub serializer: i32,
    pub manifest: Bytes,
    pub payload: Bytes,
}

/// An ordinary message from one actor to another. An absent sender or manifest is empty.
#[derive(Clone, Debug, PartialEq, Eq, Drop)]
pub struct Tell {
    pub sender: Text,
    pub recipient: Text,
    pub serializer: i32,
    pub manifest: Text,
    pub payload: Bytes,
}

/// What the user of a node asks of it.
#[derive(Clone, Debug, PartialEq, Eq, Drop)]
pub enum Request {
    /// Make an association with the system at the address.
    Pair { address: Address },
    /// Send a system message to the system at the address, in order and once.
    Send { address: Address, message: SysMsg },
    /// Tell an actor at the address an ordinary message, at most once.
    Tell { address: Address, message: Tell },
    /// Let the actor at this path watch another, named by its address and path.
    Watch { path: Text, watchee: Text },
    /// End that watch.
    Unwatch { path: Text, watchee: Text },
    /// Let an actor live at this path.
    Spawn { path: Text },
    /// End the actor at this path, of which its remote watchers are told.
    Kill { path: Text },
    /// Close the incarnation at the address: nothing more is exchanged with it.
    Quarantine { address: Address },
}
