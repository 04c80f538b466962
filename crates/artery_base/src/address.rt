use crate::text::Text;

/// The address of an actor system, `PROTOCOL://SYSTEM@HOST:PORT`.
#[derive(Clone, Debug, PartialEq, Eq, Hash, Drop)]
pub struct Address {
    pub protocol: Text,
    pub system: Text,
    pub host: Text,
    pub port: u16,
}

/// One incarnation of an actor system: its address and the UID that it drew at its start.
#[derive(Clone, Debug, PartialEq, Eq, Hash, Drop)]
pub struct UniqueAddress {
    pub address: Address,
    pub uid: u64,
}
