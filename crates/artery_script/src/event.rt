use artery_base::{Request, UniqueAddress};

/// What happens in a network, as one line of a script tells it. A connection is named by the UID of
/// the incarnation that dialed it and the number of the dial.
#[derive(Debug, PartialEq, Eq, Drop)]
pub enum Event {
    /// An incarnation starts.
    Start { unique: UniqueAddress },
    /// The incarnation with this UID stops.
    Stop { uid: u64 },
    /// The incarnation is asked something.
    At { uid: u64, request: Request },
    /// The incarnation is told the time, in milliseconds below 2^62.
    Tick { uid: u64, moment: u64 },
    /// A dial is answered: the connection is made.
    Answer { uid: u64, dial: u64 },
    /// A dial fails.
    Fail { uid: u64, dial: u64 },
    /// So many bytes of the connection arrive at its far side, at least one.
    Carry { uid: u64, dial: u64, count: u64 },
    /// The near side of the connection ends.
    Cut { uid: u64, dial: u64 },
    /// The far side of the connection ends.
    End { uid: u64, dial: u64 },
    /// The near sides of all connections end that the incarnation dialed.
    CutAll { uid: u64 },
    /// The far sides of all connections end that the incarnation dialed.
    EndAll { uid: u64 },
    /// So many rounds of delivery pass, 1 to 1,000.
    Pass { rounds: u64 },
}
