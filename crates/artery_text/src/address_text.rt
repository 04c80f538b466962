ghost use Rattle.std.specs.Prelude.{◌≡◌, ℕ, ◌+◌, ◌≤◌, ◌<◌, ◌^◌, ◌++◌, ◌==◌, List, length, take, drop, position, not, codes, decimal, Option, Some, None, Ok, IfOk, IfSome, IfNone, OnOk, OnErr};
ghost use Rattle.std.specs.Prelude.{nat_eq};
ghost use Rattle.std.specs.List.{starts_with};
ghost use Rattle.std.specs.Int.{is_in_range};
ghost use Rattle.artery_text.specs.Spelling.{IsAddress, IsUniqueAddress, is_part_byte, address_text, unique_text};
ghost use Rattle.artery_base.specs.declared.address.Address.{Address as AddressValue};
ghost use Rattle.artery_base.specs.declared.address.UniqueAddress.{UniqueAddress as UniqueAddressValue};
ghost use Rattle.artery_text.specs.Reading.{Gives, address_memory, Parts, scheme_end, parts_of, bad_length, bad_byte, bad_char, port_number, number_of, address_in, address_of, last_hash, unique_of};

use crate::fault::{AddressFault, Part};
use crate::number::{print_number, read_number};
use artery_base::{Address, Bytes, NoMemory, Text, UniqueAddress};
use std::alloc::Global;
use std::marker::Model;

/// The most bytes of a part.
const PART_END: usize = 255;
/// What stands before the system.
const SCHEME: &[u8] = b"://";

/// The texts between the separators of an address.
#[derive(Drop)]
struct SplitText<'a> {
    protocol: &'a [u8],
    system: &'a [u8],
    host: &'a [u8],
    port: &'a [u8],
}

impl<'a> Model for SplitText<'a> {
    ghost use Rattle.artery_text.specs.Reading.{Parts};

    ghost Value = { Parts };

    ghost view = { λ s. record { protocol = s.protocol.now; system = s.system.now; host = s.host.now; port = s.port.now } };
}

fn before(text: &[u8], at: usize) -> &[u8]
    requires { at ≤ length text.now }
    ensures { result.now ≡ take at text.now }
{
    &text[..at]
}

fn after(text: &[u8], at: usize) -> &[u8]
    requires { at ≤ length text.now }
    ensures { result.now ≡ drop at text.now }
{
    &text[at..]
}

fn find(text: &[u8], mark: u8) -> Option<usize>
    ensures found { result ≡ position (λ b. b == mark) text.now }
    ensures within { IfSome result (λ at. at < length text.now) }
{
    text.iter().position(|byte| *byte == mark)
}

fn starts_with_scheme(text: &[u8]) -> bool
    ensures { result ≡ starts_with nat_eq text.now (codes "://") }
{
    text.starts_with(b"://")
}

#[tactic(auto, using(crate::proofs::AddressParts::scheme_step, crate::proofs::AddressParts::scheme_hit, crate::proofs::AddressParts::scheme_room, crate::proofs::AddressParts::scheme_none))]
fn find_scheme(text: &[u8]) -> Option<usize>
    ensures found { result ≡ scheme_end text.now }
    ensures within { IfSome result (λ at. at + 3 ≤ length text.now) }
{
    let mut at = 0;
    while at < text.len() {
        if starts_with_scheme(after(text, at)) {
            return Some(at);
        }
        at += 1;
    }
    None
}

fn split(text: &[u8]) -> Result<SplitText<'_>, AddressFault>
    ensures { result ≡ parts_of text.now }
{
    let Some(at) = find_scheme(text) else {
        return Err(AddressFault::NoScheme);
    };
    let protocol = before(text, at);
    let rest = after(text, at + 3);
    let Some(at) = find(rest, b'@') else {
        return Err(AddressFault::NoAt);
    };
    let system = before(rest, at);
    let rest = after(rest, at + 1);
    let Some(at) = find(rest, b':') else {
        return Err(AddressFault::NoPort);
    };
    let host = before(rest, at);
    let port = after(rest, at + 1);
    Ok(SplitText {
        protocol,
        system,
        host,
        port,
    })
}

fn has_part_length(part: &[u8]) -> bool
    ensures { result ≡ is_in_range 1 255 (length part.now) }
{
    1 <= part.len() && part.len() <= PART_END
}

fn bad_length(parts: &SplitText<'_>) -> Option<AddressFault>
    ensures { result ≡ bad_length parts.now }
{
    if !has_part_length(parts.protocol) {
        return Some(AddressFault::PartLength {
            part: Part::Protocol,
            len: parts.protocol.len(),
        });
    }
    if !has_part_length(parts.system) {
        return Some(AddressFault::PartLength {
            part: Part::System,
            len: parts.system.len(),
        });
    }
    if !has_part_length(parts.host) {
        return Some(AddressFault::PartLength {
            part: Part::Host,
            len: parts.host.len(),
        });
    }
    None
}

fn is_part_byte(byte: u8) -> bool
    ensures { result ≡ is_part_byte byte }
{
    matches!(byte, b'a'..=b'z' | b'A'..=b'Z' | b'0'..=b'9' | b'-' | b'_' | b'.')
}

#[tactic(auto, using(crate::proofs::AddressParts::bad_first, crate::proofs::AddressParts::none_bad))]
fn find_bad(part: &[u8]) -> Option<usize>
    ensures found { result ≡ position (λ b. not (is_part_byte b)) part.now }
    ensures within { IfSome result (λ at. at < length part.now) }
{
    let mut at = 0;
    while at < part.len() {
        if !is_part_byte(part[at]) {
            return Some(at);
        }
        at += 1;
    }
    None
}

fn bad_byte(from: usize, part: &[u8]) -> Option<usize>
    requires { from + length part.now < 2 ^ 64 }
    ensures { result ≡ bad_byte from part.now }
{
    match find_bad(part) {
        None => None,
        Some(at) => Some(at + from),
    }
}

fn bad_char(parts: &SplitText<'_>) -> Option<usize>
    requires protocol { length parts.now.protocol ≤ 255 }
    requires system { length parts.now.system ≤ 255 }
    requires host { length parts.now.host ≤ 255 }
    ensures { result ≡ bad_char parts.now }
{
    let in_protocol = bad_byte(0, parts.protocol);
    if in_protocol.is_some() {
        return in_protocol;
    }
    let system_from = parts.protocol.len() + 3;
    let in_system = bad_byte(system_from, parts.system);
    if in_system.is_some() {
        return in_system;
    }
    bad_byte(system_from + parts.system.len() + 1, parts.host)
}

fn read_port(text: &[u8]) -> Option<u16>
    ensures { result ≡ port_number (number_of text.now) }
{
    let number = read_number(text)?;
    if number == 0 {
        return None;
    }
    if number > 65_535 {
        return None;
    }
    Some(number as u16)
}

fn read_parts(alloc: Global, parts: &SplitText<'_>) -> Result<Address, AddressFault>
    ensures { Gives address_memory result (address_in parts.now) }
{
    if let Some(fault) = bad_length(parts) {
        return Err(fault);
    }
    if let Some(at) = bad_char(parts) {
        return Err(AddressFault::BadChar { at });
    }
    let Some(port) = read_port(parts.port) else {
        return Err(AddressFault::PortRange);
    };
    let protocol = Text::from_ascii(alloc, parts.protocol)?;
    let system = Text::from_ascii(alloc, parts.system)?;
    let host = Text::from_ascii(alloc, parts.host)?;
    Ok(Address {
        protocol,
        system,
        host,
        port,
    })
}

fn address_from(alloc: Global, text: &[u8]) -> Result<Address, AddressFault>
    ensures { Gives address_memory result (address_of text.now) }
{
    let parts = split(text)?;
    read_parts(alloc, &parts)
}

/// The address that the text spells, `PROTOCOL://SYSTEM@HOST:PORT`. It is split at the first `://`,
/// then at the first `@`, then at the first `:`. Its first fault is told: a missing separator, a
/// part's length, a byte that no part may have, the port.
pub fn read_address(alloc: Global, text: &[u8]) -> Result<Address, AddressFault>
    ensures exact { Gives address_memory result (address_of text.now) }
    ensures found { IfOk result (λ a. IsAddress a × (text.now ≡ address_text a)) }
    ensures only { (a : AddressValue) → IsAddress a → text.now ≡ address_text a → Gives address_memory result (Ok a) }
{
    address_from(alloc, text)
}

#[tactic(auto, using(crate::proofs::AddressParts::hash_step, crate::proofs::AddressParts::hash_hit, crate::proofs::AddressParts::hash_start))]
fn find_hash(text: &[u8]) -> Option<usize>
    ensures found { result ≡ last_hash text.now }
    ensures within { IfSome result (λ at. at < length text.now) }
{
    let mut end = text.len();
    while end > 0 {
        end -= 1;
        if text[end] == b'#' {
            return Some(end);
        }
    }
    None
}

fn unique_from(alloc: Global, text: &[u8]) -> Result<UniqueAddress, AddressFault>
    ensures { Gives address_memory result (unique_of text.now) }
{
    let Some(at) = find_hash(text) else {
        return Err(AddressFault::NoUid);
    };
    let Some(uid) = read_number(after(text, at + 1)) else {
        return Err(AddressFault::NoUid);
    };
    let address = address_from(alloc, before(text, at))?;
    Ok(UniqueAddress { address, uid })
}

/// The unique address that the text spells, `ADDRESS#UID`. It is split at the last `#`. The UID is
/// tried first, then the address before it, as `read_address` tries it.
pub fn read_unique(alloc: Global, text: &[u8]) -> Result<UniqueAddress, AddressFault>
    ensures exact { Gives address_memory result (unique_of text.now) }
    ensures found { IfOk result (λ u. IsUniqueAddress u × (text.now ≡ unique_text u)) }
    ensures only { (u : UniqueAddressValue) → IsUniqueAddress u → text.now ≡ unique_text u → Gives address_memory result (Ok u) }
{
    unique_from(alloc, text)
}

#[tactic(auto, using(artery_base::proofs::Appending::keeps_front))]
fn put_address(address: &Address, out: &mut Bytes) -> Result<(), NoMemory>
    ensures ok { OnOk result (out.new ≡ out.old ++ address_text address.now) }
    ensures kept { take (length out.old) out.new ≡ out.old }
{
    out.extend_from_slice(address.protocol.as_slice())?;
    out.extend_from_slice(SCHEME)?;
    out.extend_from_slice(address.system.as_slice())?;
    out.push(b'@')?;
    out.extend_from_slice(address.host.as_slice())?;
    out.push(b':')?;
    print_number(u64::from(address.port), out)
}

/// Appends the address, `PROTOCOL://SYSTEM@HOST:PORT`. Without memory `out` stays as it was.
pub fn print_address(address: &Address, out: &mut Bytes) -> Result<(), NoMemory>
    ensures ok { OnOk result (out.new ≡ out.old ++ address_text address.now) }
    ensures err { OnErr result (out.new ≡ out.old) }
{
    let before = out.len();
    let appended = put_address(address, out);
    out.settle(before, appended)
}

#[tactic(auto, using(artery_base::proofs::Appending::keeps_front))]
fn put_unique(unique: &UniqueAddress, out: &mut Bytes) -> Result<(), NoMemory>
    ensures ok { OnOk result (out.new ≡ out.old ++ unique_text unique.now) }
    ensures kept { take (length out.old) out.new ≡ out.old }
{
    print_address(&unique.address, out)?;
    out.push(b'#')?;
    print_number(unique.uid, out)
}

/// Appends the unique address, `ADDRESS#UID`. Without memory `out` stays as it was.
pub fn print_unique(unique: &UniqueAddress, out: &mut Bytes) -> Result<(), NoMemory>
    ensures ok { OnOk result (out.new ≡ out.old ++ unique_text unique.now) }
    ensures err { OnErr result (out.new ≡ out.old) }
{
    let before = out.len();
    let appended = put_unique(unique, out);
    out.settle(before, appended)
}
