/// One of the three names of an envelope.
#[derive(Clone, Copy, Debug, PartialEq, Eq)]
pub enum Which {
    Sender,
    Recipient,
    Manifest,
}

/// A name: its text, or its number in the table whose version the envelope tells.
#[derive(Clone, Copy, Debug, PartialEq, Eq)]
pub enum Name<'a> {
    /// ASCII text, empty where the name is absent.
    Literal(&'a [u8]),
    /// The place in the table, from 0.
    Index(u16),
}

/// A message with what is needed to deliver it; the texts and the payload lie in the frame.
#[derive(Clone, Copy, Debug, PartialEq, Eq)]
pub struct Envelope<'a> {
    /// The incarnation that sent it.
    pub uid: u64,
    /// The version of the table of references.
    pub refs_version: u8,
    /// The version of the table of manifests.
    pub manifests_version: u8,
    /// What the payload is written with.
    pub serializer: i32,
    pub sender: Name<'a>,
    pub recipient: Name<'a>,
    pub manifest: Name<'a>,
    pub payload: &'a [u8],
}
