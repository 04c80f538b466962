use artery_frame::FrameFault;

/// How far a capture has come.
#[derive(Clone, Copy, Debug, PartialEq, Eq)]
pub(crate) enum Progress {
    /// No fault of the stream has been seen.
    GoingOn,
    /// This fault of the stream was seen, behind all whole frames.
    Faulty { fault: FrameFault },
    /// Memory ran out.
    Lost,
}
