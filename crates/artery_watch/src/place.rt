//! Whether a text is at an address.
ghost use Rattle.std.specs.Prelude.{◌≡◌, ◌≤◌, length, drop, nat_eq, IsTrue, ◌↔◌, ◌++◌, codes, decimal};
ghost use Rattle.std.specs.List.{list_all};
ghost use Rattle.std.specs.Option.{option_copied};
ghost use Rattle.artery_text.specs.Spelling.{address_text};
ghost use Rattle.artery_watch.specs.Place.{is_path_byte, is_path, after, is_at, IsAt};

use artery_base::Address;
use itoa::Buffer;

/// Whether a path may have this byte behind its `/`: one from 0x21 to 0x7E but `%`.
fn is_path_byte(byte: u8) -> bool
    ensures { result ≡ is_path_byte byte }
{
    matches!(byte, 33..=126) && byte != b'%'
}

/// Whether a path may have all these bytes behind its `/`.
fn are_path_bytes(bytes: &[u8]) -> bool
    ensures { result ≡ list_all is_path_byte bytes.now }
{
    bytes.iter().all(|byte| is_path_byte(*byte))
}

/// Whether this is a path: `/` and at least one byte from 0x21 to 0x7E without `%`.
fn is_path(text: &[u8]) -> bool
    ensures { result ≡ is_path text.now }
{
    match text {
        [first, rest @ ..] => *first == b'/' && !rest.is_empty() && are_path_bytes(rest),
        _ => false,
    }
}

/// What stands behind this front.
fn after<'a>(front: &[u8], text: &'a [u8]) -> Option<&'a [u8]>
    ensures { option_copied result ≡ after front.now text.now }
{
    if text.starts_with(front) {
        Some(&text[front.len()..])
    } else {
        None
    }
}

/// What stands behind the port.
fn after_port(port: u16, text: &[u8]) -> Option<&[u8]>
    ensures { option_copied result ≡ after (decimal port) text.now }
{
    let mut buffer = Buffer::new();
    after(buffer.format(port).as_bytes(), text)
}

/// What stands behind the protocol and `://`.
#[tactic(auto, using(crate::proofs::Places::some_after, crate::proofs::Places::none_after))]
fn after_scheme<'a>(address: &Address, text: &'a [u8]) -> Option<&'a [u8]>
    ensures { option_copied result ≡ after (address.now.protocol ++ codes "://") text.now }
{
    let text = after(address.protocol.as_slice(), text)?;
    after(b"://", text)
}

/// What stands behind that and the system.
#[tactic(auto, using(crate::proofs::Places::some_after, crate::proofs::Places::none_after))]
fn after_system<'a>(address: &Address, text: &'a [u8]) -> Option<&'a [u8]>
    ensures { option_copied result ≡ after (address.now.protocol ++ codes "://" ++ address.now.system) text.now }
{
    let text = after_scheme(address, text)?;
    after(address.system.as_slice(), text)
}

/// What stands behind that and `@`.
#[tactic(auto, using(crate::proofs::Places::some_after, crate::proofs::Places::none_after))]
fn after_at<'a>(address: &Address, text: &'a [u8]) -> Option<&'a [u8]>
    ensures { option_copied result ≡ after (address.now.protocol ++ codes "://" ++ address.now.system ++ codes "@") text.now }
{
    let text = after_system(address, text)?;
    after(b"@", text)
}

/// What stands behind that and the host.
#[tactic(auto, using(crate::proofs::Places::some_after, crate::proofs::Places::none_after))]
fn after_host<'a>(address: &Address, text: &'a [u8]) -> Option<&'a [u8]>
    ensures { option_copied result ≡ after (address.now.protocol ++ codes "://" ++ address.now.system ++ codes "@" ++ address.now.host) text.now }
{
    let text = after_at(address, text)?;
    after(address.host.as_slice(), text)
}

/// What stands behind that and `:`.
#[tactic(auto, using(crate::proofs::Places::some_after, crate::proofs::Places::none_after))]
fn after_colon<'a>(address: &Address, text: &'a [u8]) -> Option<&'a [u8]>
    ensures { option_copied result ≡ after (address.now.protocol ++ codes "://" ++ address.now.system ++ codes "@" ++ address.now.host ++ codes ":") text.now }
{
    let text = after_host(address, text)?;
    after(b":", text)
}

/// What stands behind the text of the address.
#[tactic(auto, using(crate::proofs::Places::some_after, crate::proofs::Places::none_after))]
fn after_address<'a>(address: &Address, text: &'a [u8]) -> Option<&'a [u8]>
    ensures { option_copied result ≡ after (address_text address.now) text.now }
{
    let text = after_colon(address, text)?;
    after_port(address.port, text)
}

/// Whether a path stands behind the text of the address.
fn has_path(address: &Address, text: &[u8]) -> bool
    ensures { result ≡ is_at address.now text.now }
{
    match after_address(address, text) {
        Some(path) => is_path(path),
        None => false,
    }
}

/// Whether a text is at an address: the text of the address, `PROTOCOL://SYSTEM@HOST:PORT`, and then a path, which is `/` and at least
/// one byte from 0x21 to 0x7E without `%`. Takes no memory.
#[tactic(auto, using(crate::proofs::Places::at_exact))]
pub fn is_at(address: &Address, text: &[u8]) -> bool
    ensures answer { result ≡ is_at address.now text.now }
    ensures exact { IsTrue result ↔ IsAt address.now text.now }
{
    has_path(address, text)
}
