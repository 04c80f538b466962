//! The bytes of a notice: two texts, each behind its length in two bytes.
ghost use Rattle.std.specs.Prelude.{◌≡◌, ◌+◌, ◌≤◌, ◌++◌, ℕ, List, Option, Some, None, length, drop, take, true, IsAscii, IfOk, IfSome, OnOk, OnErr};
ghost use Rattle.std.specs.Option.{option_map};
ghost use Rattle.artery_watch.specs.Notice.{Gives, is_ascii, text_of, text_at, text_bytes, notice_of, notice_bytes, IsNotice};
ghost use Rattle.artery_watch.specs.declared.notice.Notice.{Notice as NoticeValue};
ghost use Rattle.artery_watch.specs.declared.notice.NoticeFault.TheVariants as faults;

use artery_base::{Bytes, NoMemory, Text};
use std::alloc::Global;

/// What is told of a watch, of its end, or of the end of an actor: the actor that is watched and the watcher, each as a reference.
#[derive(Clone, Debug, PartialEq, Eq, Drop)]
pub struct Notice {
    /// The actor that is watched.
    pub actor: Text,
    /// The one that watches it.
    pub watcher: Text,
}

/// Why bytes are no notice.
#[derive(Clone, Copy, Debug, PartialEq, Eq)]
pub enum NoticeFault {
    /// They are not two texts of ASCII bytes, each behind its length, and nothing more.
    BadNotice,
    /// Memory ran out.
    NoMemory,
}

impl From<NoMemory> for NoticeFault {
    ghost from_gives = { λ _ e. e ≡ faults.NoMemory };

    fn from(_error: NoMemory) -> NoticeFault {
        NoticeFault::NoMemory
    }
}

/// Whether all bytes are ASCII.
fn is_ascii(bytes: &[u8]) -> bool
    ensures { result ≡ is_ascii bytes.now }
{
    bytes.iter().all(|byte| *byte < 128)
}

/// So many ASCII bytes, and what stands behind them.
fn text_of(len: usize, bytes: &[u8]) -> Option<(&[u8], &[u8])>
    ensures value { option_map (λ p. (p.0.now, p.1.now)) result ≡ text_of len bytes.now }
    ensures ascii { IfSome result (λ p. is_ascii p.0.now ≡ true) }
{
    if bytes.len() < len {
        return None;
    }
    let (text, rest) = bytes.split_at(len);
    if is_ascii(text) {
        Some((text, rest))
    } else {
        None
    }
}

/// The text at the front, behind its length, and what stands behind it.
fn text_at(bytes: &[u8]) -> Option<(&[u8], &[u8])>
    ensures value { option_map (λ p. (p.0.now, p.1.now)) result ≡ text_at bytes.now }
    ensures ascii { IfSome result (λ p. is_ascii p.0.now ≡ true) }
{
    match bytes {
        [low, high, rest @ ..] => text_of(*low as usize + 256 * *high as usize, rest),
        _ => None,
    }
}

/// A text of its own.
#[tactic(auto, using(crate::proofs::Notices::ascii_text))]
fn own(alloc: Global, text: &[u8]) -> Result<Text, NoMemory>
    requires { is_ascii text.now ≡ true }
    ensures { IfOk result (λ t. t ≡ text.now) }
{
    Text::from_ascii(alloc, text)
}

/// The notice that the bytes are, by the definition.
fn read(alloc: Global, payload: &[u8]) -> Result<Notice, NoticeFault>
    ensures { Gives result (notice_of payload.now) }
{
    let Some((actor, rest)) = text_at(payload) else {
        return Err(NoticeFault::BadNotice);
    };
    let Some((watcher, rest)) = text_at(rest) else {
        return Err(NoticeFault::BadNotice);
    };
    if !rest.is_empty() {
        return Err(NoticeFault::BadNotice);
    }
    Ok(Notice {
        actor: own(alloc, actor)?,
        watcher: own(alloc, watcher)?,
    })
}

/// The notice that the bytes are: two texts of ASCII bytes, each behind its length in two bytes, the lowest first, and nothing behind them.
/// `BadNotice` comes exactly where the bytes are none.
pub fn read_notice(alloc: Global, payload: &[u8]) -> Result<Notice, NoticeFault>
    ensures exact { Gives result (notice_of payload.now) }
    ensures found { IfOk result (λ n. IsNotice n × (payload.now ≡ notice_bytes n)) }
    ensures only { (n : NoticeValue) → IsNotice n → payload.now ≡ notice_bytes n → Gives result (Some n) }
{
    read(alloc, payload)
}

/// Appends a text behind its length; without memory a part of it.
#[tactic(auto, using(crate::proofs::Appending::keeps_front))]
fn put_text(text: &[u8], out: &mut Bytes) -> Result<(), NoMemory>
    requires { length text.now ≤ 65535 }
    ensures ok { OnOk result (out.new ≡ out.old ++ text_bytes text.now) }
    ensures kept { take (length out.old) out.new ≡ out.old }
{
    let len = text.len();
    out.extend_from_slice(&[(len % 256) as u8, (len / 256) as u8])?;
    out.extend_from_slice(text)
}

/// Appends both texts; without memory a part of them.
#[tactic(auto, using(crate::proofs::Appending::keeps_on))]
fn put_notice(notice: &Notice, out: &mut Bytes) -> Result<(), NoMemory>
    requires actor { length notice.now.actor ≤ 65535 }
    requires watcher { length notice.now.watcher ≤ 65535 }
    ensures ok { OnOk result (out.new ≡ out.old ++ notice_bytes notice.now) }
    ensures kept { take (length out.old) out.new ≡ out.old }
{
    put_text(notice.actor.as_slice(), out)?;
    put_text(notice.watcher.as_slice(), out)
}

/// Appends the bytes of a notice: the actor and the watcher, each behind its length in two bytes, the lowest first. Without memory `out`
/// stays as it was.
///
/// Wants that both texts have at most 65,535 bytes.
pub fn write_notice(notice: &Notice, out: &mut Bytes) -> Result<(), NoMemory>
    requires actor { length notice.now.actor ≤ 65535 }
    requires watcher { length notice.now.watcher ≤ 65535 }
    ensures ok { OnOk result (out.new ≡ out.old ++ notice_bytes notice.now) }
    ensures err { OnErr result (out.new ≡ out.old) }
{
    let before = out.len();
    let put = put_notice(notice, out);
    out.settle(before, put)
}
