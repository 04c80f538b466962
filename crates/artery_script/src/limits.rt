/// Moments are below this number of milliseconds.
pub const MOMENT_END: u64 = 1 << 62;
/// The most rounds that one line lets pass.
pub const MOST_ROUNDS: u64 = 1_000;
/// The most bytes of a payload.
pub const MOST_PAYLOAD: usize = 131_072;
/// The most bytes of a sender, a recipient and a manifest.
pub const MOST_NAME: usize = 4_096;
/// The most bytes of an actor of another system: its system's address and its path together.
pub const MOST_REFERENCE: usize = 4_096;
/// The most bytes of the path of an actor of one's own system.
pub const MOST_PATH: usize = 1_024;
