use artery_base::{Address, Names, SysMsg, UniqueAddress, Values};

/// A message between two nodes themselves, as their own serializer writes it.
/// `sequence` is the number of a table, present from where its version alone no longer tells it.
#[derive(Debug, Drop)]
pub enum Control {
    /// `from` has quarantined `to` (`a`).
    Quarantined {
        from: UniqueAddress,
        to: UniqueAddress,
    },
    /// The system is about to end (`b`).
    Terminating {
        from: UniqueAddress,
    },
    /// The answer to it (`c`).
    TerminatingAck {
        from: UniqueAddress,
    },
    /// Asks the system at `to` for its UID (`d`).
    HandshakeReq {
        from: UniqueAddress,
        to: Address,
        nonce: Option<u64>,
    },
    /// The answer to it (`e`).
    HandshakeRsp {
        from: UniqueAddress,
        for_uid: Option<u64>,
        nonce: Option<u64>,
    },
    /// A table of references for the origin (`f`).
    RefsTable {
        from: UniqueAddress,
        origin_uid: u64,
        version: u8,
        keys: Names,
        values: Values,
        sequence: Option<u64>,
    },
    /// A table of references was adopted (`g`).
    RefsAck {
        from: UniqueAddress,
        version: u8,
        sequence: Option<u64>,
    },
    /// A table of manifests for the origin (`h`).
    ManifestsTable {
        from: UniqueAddress,
        origin_uid: u64,
        version: u8,
        keys: Names,
        values: Values,
        sequence: Option<u64>,
    },
    /// A table of manifests was adopted (`i`).
    ManifestsAck {
        from: UniqueAddress,
        version: u8,
        sequence: Option<u64>,
    },
    /// A system message under its number (`j`).
    Numbered {
        n: u64,
        message: SysMsg,
        reply_to: UniqueAddress,
    },
    /// All messages up to this number were taken (`k`).
    Ack {
        n: u64,
        from: UniqueAddress,
    },
    /// The message after this number is missing (`l`).
    Nack {
        n: u64,
        from: UniqueAddress,
    },
    /// A sign of life (`m`).
    Heartbeat,
    /// The answer to it, with the UID of who answers (`n`).
    HeartbeatRsp {
        uid: u64,
    },
}
