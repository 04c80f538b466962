//! References of actors.
ghost use Rattle.std.specs.Prelude.{◌≡◌, ◌≤◌, ◌<◌, length, position, take, IfOk, IfSome};
ghost use Rattle.artery_script.specs.Reading.{is_slash, path_start};
ghost use Rattle.artery_machine.specs.Watching.{reference, address_before, address_in};
ghost use Rattle.artery_notices.specs.Telling.{path_at};

use artery_base::{Address, Bytes, NoMemory, Text};
use artery_text::{AddressFault, print_address, read_address, text_of};
use artery_watch::is_at;
use std::alloc::Global;

fn find_slash(text: &[u8]) -> Option<usize>
    ensures found { result ≡ position is_slash text.now }
    ensures within { IfSome result (λ at. at < length text.now) }
{
    text.iter().position(|byte| *byte == b'/')
}

/// Where the path begins in a reference: at the first `/` behind `://`.
fn path_start(text: &[u8]) -> Option<usize>
    ensures found { result ≡ path_start text.now }
    ensures within { IfSome result (λ at. at ≤ length text.now) }
{
    let first = find_slash(text)?;
    let rest = &text[first + 1..];
    let second = find_slash(rest)?;
    let rest = &rest[second + 1..];
    let third = find_slash(rest)?;
    Some(first + second + third + 2)
}

/// The address of the text before this place, if it is one.
fn address_before(alloc: Global, text: &[u8], at: usize) -> Result<Option<Address>, NoMemory>
    requires { at ≤ length text.now }
    ensures { IfOk result (λ address. address ≡ address_before text.now at) }
{
    match read_address(alloc, &text[..at]) {
        Ok(address) => Ok(Some(address)),
        Err(AddressFault::NoMemory) => Err(NoMemory),
        Err(_fault) => Ok(None),
    }
}

/// The address in a reference: what stands before the first `/` behind `://`, where that is an address.
pub fn address_in(alloc: Global, reference: &Text) -> Result<Option<Address>, NoMemory>
    ensures { IfOk result (λ address. address ≡ address_in reference.now) }
{
    let text = reference.as_slice();
    match path_start(text) {
        None => Ok(None),
        Some(at) => address_before(alloc, text, at),
    }
}

/// The reference of the actor with this path in the system at this address.
pub fn reference(alloc: Global, address: &Address, path: &Text) -> Result<Text, NoMemory>
    ensures { IfOk result (λ text. text ≡ reference address.now path.now) }
{
    let mut bytes = Bytes::new(alloc);
    print_address(address, &mut bytes)?;
    bytes.extend_from_slice(path.as_slice())?;
    match text_of(alloc, bytes.as_slice()) {
        Ok(text) => Ok(text),
        // An address and a path are ASCII, so that this is want of memory.
        Err(_want) => Err(NoMemory),
    }
}

/// The path of the actor that a text names at an address, where it names one there: what stands behind the text of the address.
#[tactic(auto, using(crate::proofs::Behind::is_behind, crate::proofs::Behind::is_long))]
pub fn path_at(alloc: Global, address: &Address, text: &Text) -> Result<Option<Text>, NoMemory>
    ensures { IfOk result (λ path. path ≡ path_at address.now text.now) }
{
    if !is_at(address, text.as_slice()) {
        return Ok(None);
    }
    let mut front = Bytes::new(alloc);
    print_address(address, &mut front)?;
    if front.len() > text.len() {
        return Ok(None);
    }
    match text_of(alloc, &text.as_slice()[front.len()..]) {
        Ok(path) => Ok(Some(path)),
        // What stands in a text is ASCII, so that this is want of memory.
        Err(_want) => Err(NoMemory),
    }
}
