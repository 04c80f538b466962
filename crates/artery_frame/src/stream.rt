/// What a stream carries: control messages alone, or ordinary ones.
#[derive(Clone, Copy, Debug, PartialEq, Eq)]
pub enum Stream {
    Control,
    Ordinary,
}
