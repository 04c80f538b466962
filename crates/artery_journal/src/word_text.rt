//! The words of causes, kinds, reasons and names.
ghost use Rattle.std.specs.Prelude.{◌≡◌};
ghost use Rattle.artery_journal.specs.Texts.{cause_text, kind_text, reason_text, which_text};

use crate::words::{Cause, Kind, Reason, Which};

pub(crate) fn cause_word(cause: Cause) -> &'static [u8]
    ensures { result.now ≡ cause_text cause }
{
    match cause {
        Cause::Superseded => b"superseded",
        Cause::Quarantined => b"quarantined",
        Cause::Unreachable => b"unreachable",
        Cause::Overflow => b"overflow",
        Cause::Undelivered => b"undelivered",
    }
}

pub(crate) fn kind_word(kind: Kind) -> &'static [u8]
    ensures { result.now ≡ kind_text kind }
{
    match kind {
        Kind::Refs => b"refs",
        Kind::Manifests => b"manifests",
    }
}

pub(crate) fn reason_word(reason: Reason) -> &'static [u8]
    ensures { result.now ≡ reason_text reason }
{
    match reason {
        Reason::Peers => b"peers",
        Reason::Connections => b"connections",
        Reason::Waiting => b"waiting",
        Reason::Held => b"held",
        Reason::Watching => b"watching",
        Reason::Watches => b"watches",
        Reason::NotWatched => b"not-watched",
        Reason::Exists => b"exists",
        Reason::Actors => b"actors",
        Reason::NotThere => b"not-there",
        Reason::NotCurrent => b"not-current",
        Reason::ClosedUids => b"closed-uids",
        Reason::RemoteWatches => b"remote-watches",
    }
}

pub(crate) fn which_word(which: Which) -> &'static [u8]
    ensures { result.now ≡ which_text which }
{
    match which {
        Which::Sender => b"sender",
        Which::Recipient => b"recipient",
        Which::Manifest => b"manifest",
    }
}
