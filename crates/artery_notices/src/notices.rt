//! Notices of watches as system messages.
ghost use Rattle.std.specs.Prelude.{◌≡◌, ◌∷◌, [], IfOk};
ghost use Rattle.artery_machine.specs.Watching.{notice, told_by, told_of};
ghost use Rattle.artery_notices.specs.Telling.{kind_of, told};

use artery_base::{Bytes, NoMemory, SysMsg, Text};
use artery_watch::{Notice, NoticeFault, read_notice, write_notice};
use std::alloc::Global;

/// Notices of watches have this serializer.
const NOTICE_SERIALIZER: i32 = 9_001;

/// A text in a notice has at most so many bytes.
const MOST_TEXT: usize = 65_535;

/// What a notice tells of a watch.
#[derive(Clone, Copy, Debug, PartialEq, Eq)]
pub enum NoticeKind {
    /// `W`: it begins.
    Watch,
    /// `U`: it ends.
    Unwatch,
    /// `D`: the watched actor has ended.
    Ended,
}

/// What a system message tells of a watch.
#[derive(Debug, Drop)]
pub enum Told {
    /// A watch begins.
    Begins(Notice),
    /// A watch ends.
    Ends(Notice),
    /// A watched actor has ended.
    HasEnded(Notice),
    /// It is no notice.
    Nothing,
}

/// The letter of a kind.
fn letter(kind: NoticeKind) -> u8
    ensures { kind_of kind ≡ result ∷ [] }
{
    match kind {
        NoticeKind::Watch => b'W',
        NoticeKind::Unwatch => b'U',
        NoticeKind::Ended => b'D',
    }
}

/// The notice of this kind, of an actor and a watcher, as a system message. `NoMemory` also where one of them has more than 65,535 bytes.
pub fn notice(
    alloc: Global,
    kind: NoticeKind,
    actor: &Text,
    watcher: &Text,
) -> Result<SysMsg, NoMemory>
    ensures { IfOk result (λ message. message ≡ notice (kind_of kind) actor.now watcher.now) }
{
    if actor.len() > MOST_TEXT || watcher.len() > MOST_TEXT {
        return Err(NoMemory);
    }
    let notice = Notice {
        actor: actor.clone()?,
        watcher: watcher.clone()?,
    };
    let mut payload = Bytes::new(alloc);
    write_notice(&notice, &mut payload)?;
    Ok(SysMsg {
        serializer: NOTICE_SERIALIZER,
        manifest: Bytes::from_slice(alloc, &[letter(kind)])?,
        payload,
    })
}

/// A notice by its kind, which is one letter.
fn told_by(kind: &[u8], notice: Notice) -> Told
    ensures { told result ≡ told_by kind.now notice }
{
    match kind {
        [b'W'] => Told::Begins(notice),
        [b'U'] => Told::Ends(notice),
        [b'D'] => Told::HasEnded(notice),
        _ => Told::Nothing,
    }
}

/// What a system message tells of a watch: nothing, unless it has the serializer of notices, its payload is one, and its manifest is a kind.
pub fn told_of(alloc: Global, message: &SysMsg) -> Result<Told, NoMemory>
    ensures { IfOk result (λ answer. told answer ≡ told_of message.now) }
{
    if message.serializer != NOTICE_SERIALIZER {
        return Ok(Told::Nothing);
    }
    match read_notice(alloc, message.payload.as_slice()) {
        Ok(notice) => Ok(told_by(message.manifest.as_slice(), notice)),
        Err(NoticeFault::BadNotice) => Ok(Told::Nothing),
        Err(NoticeFault::NoMemory) => Err(NoMemory),
    }
}
