//! What several lines tell: messages, numbers and words behind a space.
ghost use Rattle.std.specs.Prelude.{◌≡◌, ◌++◌, [], ◌∷◌, length, take, decimal, OnOk};
ghost use Rattle.std.specs.Fmt.{signed_decimal};
ghost use Rattle.artery_text.specs.Spelling.{address_text, word_text, hex_text};
ghost use Rattle.artery_script.specs.Texts.{message_fields, tell_fields, spaced};
ghost use Rattle.artery_script.specs.Reading.{Reads, message_in, tell_in};

use crate::fields::{take_manifest, take_name, take_ordinary, take_payload, take_serializer};
use artery_base::{Address, Bytes, NoMemory, SysMsg, Tell};
use artery_lines::{LineFault, Tokens};
use artery_text::{print_address, print_hex, print_int32, print_message, print_number, print_word};
use std::alloc::Global;

#[tactic(auto, using(artery_base::proofs::Appending::keeps_front))]
pub(crate) fn put_field(text: &[u8], out: &mut Bytes) -> Result<(), NoMemory>
    ensures ok { OnOk result (out.new ≡ out.old ++ spaced (text.now ∷ [])) }
    ensures kept { take (length out.old) out.new ≡ out.old }
{
    out.push(b' ')?;
    out.extend_from_slice(text)
}

#[tactic(auto, using(artery_base::proofs::Appending::keeps_front))]
pub(crate) fn put_number(number: u64, out: &mut Bytes) -> Result<(), NoMemory>
    ensures ok { OnOk result (out.new ≡ out.old ++ spaced (decimal number ∷ [])) }
    ensures kept { take (length out.old) out.new ≡ out.old }
{
    out.push(b' ')?;
    print_number(number, out)
}

#[tactic(auto, using(artery_base::proofs::Appending::keeps_front))]
pub(crate) fn put_address(address: &Address, out: &mut Bytes) -> Result<(), NoMemory>
    ensures ok { OnOk result (out.new ≡ out.old ++ spaced (address_text address.now ∷ [])) }
    ensures kept { take (length out.old) out.new ≡ out.old }
{
    out.push(b' ')?;
    print_address(address, out)
}

// A word and an address.
#[tactic(auto, using(artery_base::proofs::Appending::keeps_front, artery_base::proofs::Appending::keeps_on))]
pub(crate) fn put_word_address(
    word: &[u8],
    address: &Address,
    out: &mut Bytes,
) -> Result<(), NoMemory>
    ensures ok { OnOk result (out.new ≡ out.old ++ spaced (word.now ∷ address_text address.now ∷ [])) }
    ensures kept { take (length out.old) out.new ≡ out.old }
{
    put_field(word, out)?;
    put_address(address, out)
}

#[tactic(auto, using(artery_base::proofs::Appending::keeps_front))]
pub(crate) fn put_message(message: &SysMsg, out: &mut Bytes) -> Result<(), NoMemory>
    ensures ok { OnOk result (out.new ≡ out.old ++ spaced (message_fields message.now)) }
    ensures kept { take (length out.old) out.new ≡ out.old }
{
    out.push(b' ')?;
    print_message(message, out)
}

#[tactic(auto, using(artery_base::proofs::Appending::keeps_front))]
fn put_name(name: &[u8], out: &mut Bytes) -> Result<(), NoMemory>
    ensures ok { OnOk result (out.new ≡ out.old ++ spaced (word_text name.now ∷ [])) }
    ensures kept { take (length out.old) out.new ≡ out.old }
{
    out.push(b' ')?;
    print_word(name, out)
}

#[tactic(auto, using(artery_base::proofs::Appending::keeps_front))]
fn put_serializer(serializer: i32, out: &mut Bytes) -> Result<(), NoMemory>
    ensures ok { OnOk result (out.new ≡ out.old ++ spaced (signed_decimal serializer ∷ [])) }
    ensures kept { take (length out.old) out.new ≡ out.old }
{
    out.push(b' ')?;
    print_int32(serializer, out)
}

#[tactic(auto, using(artery_base::proofs::Appending::keeps_front))]
fn put_payload(payload: &[u8], out: &mut Bytes) -> Result<(), NoMemory>
    ensures ok { OnOk result (out.new ≡ out.old ++ spaced (hex_text payload.now ∷ [])) }
    ensures kept { take (length out.old) out.new ≡ out.old }
{
    out.push(b' ')?;
    print_hex(payload, out)
}

#[tactic(auto, using(artery_base::proofs::Appending::keeps_front, artery_base::proofs::Appending::keeps_on))]
fn put_two_names(first: &[u8], second: &[u8], out: &mut Bytes) -> Result<(), NoMemory>
    ensures ok { OnOk result (out.new ≡ out.old ++ spaced (word_text first.now ∷ word_text second.now ∷ [])) }
    ensures kept { take (length out.old) out.new ≡ out.old }
{
    put_name(first, out)?;
    put_name(second, out)
}

#[tactic(auto, using(artery_base::proofs::Appending::keeps_front, artery_base::proofs::Appending::keeps_on))]
fn put_content(
    serializer: i32,
    manifest: &[u8],
    payload: &[u8],
    out: &mut Bytes,
) -> Result<(), NoMemory>
    ensures ok { OnOk result (out.new ≡ out.old ++ spaced (signed_decimal serializer ∷ word_text manifest.now ∷ hex_text payload.now ∷ [])) }
    ensures kept { take (length out.old) out.new ≡ out.old }
{
    put_serializer(serializer, out)?;
    put_name(manifest, out)?;
    put_payload(payload, out)
}

#[tactic(auto, using(artery_base::proofs::Appending::keeps_front, artery_base::proofs::Appending::keeps_on))]
pub(crate) fn put_tell(message: &Tell, out: &mut Bytes) -> Result<(), NoMemory>
    ensures ok { OnOk result (out.new ≡ out.old ++ spaced (tell_fields message.now)) }
    ensures kept { take (length out.old) out.new ≡ out.old }
{
    put_two_names(message.sender.as_slice(), message.recipient.as_slice(), out)?;
    put_content(
        message.serializer,
        message.manifest.as_slice(),
        message.payload.as_slice(),
        out,
    )
}

pub(crate) fn take_message(alloc: Global, fields: &mut Tokens<'_>) -> Result<SysMsg, LineFault>
    ensures { Reads result fields.new (message_in fields.old) }
{
    let serializer = take_serializer(fields)?;
    let manifest = take_manifest(alloc, fields)?;
    let payload = take_payload(alloc, fields)?;
    Ok(SysMsg {
        serializer,
        manifest,
        payload,
    })
}

pub(crate) fn take_tell(alloc: Global, fields: &mut Tokens<'_>) -> Result<Tell, LineFault>
    ensures { Reads result fields.new (tell_in fields.old) }
{
    let sender = take_name(alloc, fields)?;
    let recipient = take_name(alloc, fields)?;
    let serializer = take_ordinary(fields)?;
    let manifest = take_name(alloc, fields)?;
    let payload = take_payload(alloc, fields)?;
    Ok(Tell {
        sender,
        recipient,
        serializer,
        manifest,
        payload,
    })
}
