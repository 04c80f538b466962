//! Messages, as text.
ghost use Rattle.std.specs.Prelude.{◌≡◌};
ghost use Rattle.artery_script.specs.Reading.{Reads};
ghost use Rattle.artery_journal_reading.specs.Reading.{message_in, names_in, content_in, tell_in};

use crate::fields::{take_name, take_payload, take_serializer, take_word};
use artery_base::{Bytes, SysMsg, Tell, Text};
use artery_lines::{LineFault, Tokens};
use std::alloc::Global;

#[tactic(auto, unfolding(crate::specs::Reading::message_in))]
pub(crate) fn take_message(alloc: Global, fields: &mut Tokens<'_>) -> Result<SysMsg, LineFault>
    ensures { Reads result fields.new (message_in fields.old) }
{
    let serializer = take_serializer(fields)?;
    let manifest = take_word(alloc, fields)?;
    let payload = take_payload(alloc, fields)?;
    Ok(SysMsg {
        serializer,
        manifest,
        payload,
    })
}

// Who sends, and to whom.
#[tactic(auto, unfolding(crate::specs::Reading::names_in))]
fn take_names(alloc: Global, fields: &mut Tokens<'_>) -> Result<(Text, Text), LineFault>
    ensures { Reads result fields.new (names_in fields.old) }
{
    let sender = take_name(alloc, fields)?;
    let recipient = take_name(alloc, fields)?;
    Ok((sender, recipient))
}

// The serializer, the manifest and the payload of an ordinary message.
#[tactic(auto, unfolding(crate::specs::Reading::content_in))]
fn take_content(alloc: Global, fields: &mut Tokens<'_>) -> Result<(i32, (Text, Bytes)), LineFault>
    ensures { Reads result fields.new (content_in fields.old) }
{
    let serializer = take_serializer(fields)?;
    let manifest = take_name(alloc, fields)?;
    let payload = take_payload(alloc, fields)?;
    Ok((serializer, (manifest, payload)))
}

#[tactic(auto, unfolding(crate::specs::Reading::tell_in))]
pub(crate) fn take_tell(alloc: Global, fields: &mut Tokens<'_>) -> Result<Tell, LineFault>
    ensures { Reads result fields.new (tell_in fields.old) }
{
    let (sender, recipient) = take_names(alloc, fields)?;
    let (serializer, (manifest, payload)) = take_content(alloc, fields)?;
    Ok(Tell {
        sender,
        recipient,
        serializer,
        manifest,
        payload,
    })
}
