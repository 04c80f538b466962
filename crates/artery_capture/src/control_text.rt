ghost use Rattle.std.specs.Prelude.{◌≡◌, [], ◌∷◌, ◌++◌, length, take, codes, decimal, OnOk, OnErr};
ghost use Rattle.artery_text.specs.Spelling.{address_text, unique_text, word_text, message_text};
ghost use Rattle.artery_control.specs.declared.control.Control.TheVariants as controls;
ghost use Rattle.artery_capture.specs.ControlText.{optional_text, version_text, entry_text, entries_text, origin_text, counted_text, table_text, control_text};

use artery_base::{Address, Bytes, Names, NoMemory, SysMsg, Text, UniqueAddress, Values};
use artery_control::Control;
use artery_text::{print_address, print_message, print_number, print_unique, print_word};

#[tactic(auto, using(crate::proofs::Appending::keeps_front, crate::proofs::Appending::keeps_on))]
fn put_optional(number: Option<u64>, out: &mut Bytes) -> Result<(), NoMemory>
    ensures ok { OnOk result (out.new ≡ out.old ++ optional_text number) }
    ensures err { OnErr result (out.new ≡ out.old) }
{
    match number {
        None => out.push(b'-'),
        Some(number) => print_number(number, out),
    }
}

#[tactic(auto, using(crate::proofs::Appending::keeps_front, crate::proofs::Appending::keeps_on))]
fn put_version(version: u8, sequence: Option<u64>, out: &mut Bytes) -> Result<(), NoMemory>
    ensures ok { OnOk result (out.new ≡ out.old ++ version_text version sequence) }
    ensures kept { take (length out.old) out.new ≡ out.old }
{
    print_number(u64::from(version), out)?;
    let Some(sequence) = sequence else {
        return Ok(());
    };
    out.push(b'/')?;
    print_number(sequence, out)
}

#[tactic(auto, using(crate::proofs::Appending::keeps_front, crate::proofs::Appending::keeps_on))]
fn put_terminating(from: &UniqueAddress, out: &mut Bytes) -> Result<(), NoMemory>
    ensures ok { OnOk result (out.new ≡ out.old ++ control_text (controls.Terminating from.now)) }
    ensures kept { take (length out.old) out.new ≡ out.old }
{
    out.extend_from_slice(b"terminating ")?;
    print_unique(from, out)
}

#[tactic(auto, using(crate::proofs::Appending::keeps_front, crate::proofs::Appending::keeps_on))]
fn put_terminating_ack(from: &UniqueAddress, out: &mut Bytes) -> Result<(), NoMemory>
    ensures ok { OnOk result (out.new ≡ out.old ++ control_text (controls.TerminatingAck from.now)) }
    ensures kept { take (length out.old) out.new ≡ out.old }
{
    out.extend_from_slice(b"terminating-ack ")?;
    print_unique(from, out)
}

#[tactic(auto, using(crate::proofs::Appending::keeps_front, crate::proofs::Appending::keeps_on))]
fn put_ack(n: u64, from: &UniqueAddress, out: &mut Bytes) -> Result<(), NoMemory>
    ensures ok { OnOk result (out.new ≡ out.old ++ control_text (controls.Ack n from.now)) }
    ensures kept { take (length out.old) out.new ≡ out.old }
{
    out.extend_from_slice(b"ack ")?;
    print_number(n, out)?;
    out.push(b' ')?;
    print_unique(from, out)
}

#[tactic(auto, using(crate::proofs::Appending::keeps_front, crate::proofs::Appending::keeps_on))]
fn put_nack(n: u64, from: &UniqueAddress, out: &mut Bytes) -> Result<(), NoMemory>
    ensures ok { OnOk result (out.new ≡ out.old ++ control_text (controls.Nack n from.now)) }
    ensures kept { take (length out.old) out.new ≡ out.old }
{
    out.extend_from_slice(b"nack ")?;
    print_number(n, out)?;
    out.push(b' ')?;
    print_unique(from, out)
}

#[tactic(auto, using(crate::proofs::Appending::keeps_front, crate::proofs::Appending::keeps_on))]
fn put_quarantined_fields(
    from: &UniqueAddress,
    to: &UniqueAddress,
    out: &mut Bytes,
) -> Result<(), NoMemory>
    ensures ok { OnOk result (out.new ≡ out.old ++ (unique_text from.now ++ codes " " ++ unique_text to.now)) }
    ensures kept { take (length out.old) out.new ≡ out.old }
{
    print_unique(from, out)?;
    out.push(b' ')?;
    print_unique(to, out)
}

#[tactic(auto, using(crate::proofs::Appending::keeps_front, crate::proofs::Appending::keeps_on))]
fn put_quarantined(
    from: &UniqueAddress,
    to: &UniqueAddress,
    out: &mut Bytes,
) -> Result<(), NoMemory>
    ensures ok { OnOk result (out.new ≡ out.old ++ control_text (controls.Quarantined from.now to.now)) }
    ensures kept { take (length out.old) out.new ≡ out.old }
{
    out.extend_from_slice(b"quarantined ")?;
    put_quarantined_fields(from, to, out)
}

#[tactic(auto, using(crate::proofs::Appending::keeps_front, crate::proofs::Appending::keeps_on))]
fn put_request_fields(
    from: &UniqueAddress,
    to: &Address,
    nonce: Option<u64>,
    out: &mut Bytes,
) -> Result<(), NoMemory>
    ensures ok { OnOk result (out.new ≡ out.old ++ (unique_text from.now ++ codes " " ++ address_text to.now ++ codes " " ++ optional_text nonce)) }
    ensures kept { take (length out.old) out.new ≡ out.old }
{
    print_unique(from, out)?;
    out.push(b' ')?;
    print_address(to, out)?;
    out.push(b' ')?;
    put_optional(nonce, out)
}

#[tactic(auto, using(crate::proofs::Appending::keeps_front, crate::proofs::Appending::keeps_on))]
fn put_request(
    from: &UniqueAddress,
    to: &Address,
    nonce: Option<u64>,
    out: &mut Bytes,
) -> Result<(), NoMemory>
    ensures ok { OnOk result (out.new ≡ out.old ++ control_text (controls.HandshakeReq from.now to.now nonce)) }
    ensures kept { take (length out.old) out.new ≡ out.old }
{
    out.extend_from_slice(b"handshake-req ")?;
    put_request_fields(from, to, nonce, out)
}

#[tactic(auto, using(crate::proofs::Appending::keeps_front, crate::proofs::Appending::keeps_on))]
fn put_answer_fields(
    from: &UniqueAddress,
    for_uid: Option<u64>,
    nonce: Option<u64>,
    out: &mut Bytes,
) -> Result<(), NoMemory>
    ensures ok { OnOk result (out.new ≡ out.old ++ (unique_text from.now ++ codes " " ++ optional_text for_uid ++ codes " " ++ optional_text nonce)) }
    ensures kept { take (length out.old) out.new ≡ out.old }
{
    print_unique(from, out)?;
    out.push(b' ')?;
    put_optional(for_uid, out)?;
    out.push(b' ')?;
    put_optional(nonce, out)
}

#[tactic(auto, using(crate::proofs::Appending::keeps_front, crate::proofs::Appending::keeps_on))]
fn put_answer(
    from: &UniqueAddress,
    for_uid: Option<u64>,
    nonce: Option<u64>,
    out: &mut Bytes,
) -> Result<(), NoMemory>
    ensures ok { OnOk result (out.new ≡ out.old ++ control_text (controls.HandshakeRsp from.now for_uid nonce)) }
    ensures kept { take (length out.old) out.new ≡ out.old }
{
    out.extend_from_slice(b"handshake-rsp ")?;
    put_answer_fields(from, for_uid, nonce, out)
}

// Who has adopted a table, and its version.
#[tactic(auto, using(crate::proofs::Appending::keeps_front, crate::proofs::Appending::keeps_on))]
fn put_adopted(
    from: &UniqueAddress,
    version: u8,
    sequence: Option<u64>,
    out: &mut Bytes,
) -> Result<(), NoMemory>
    ensures ok { OnOk result (out.new ≡ out.old ++ (unique_text from.now ++ codes " " ++ version_text version sequence)) }
    ensures kept { take (length out.old) out.new ≡ out.old }
{
    print_unique(from, out)?;
    out.push(b' ')?;
    put_version(version, sequence, out)
}

#[tactic(auto, using(crate::proofs::Appending::keeps_front, crate::proofs::Appending::keeps_on))]
fn put_refs_ack(
    from: &UniqueAddress,
    version: u8,
    sequence: Option<u64>,
    out: &mut Bytes,
) -> Result<(), NoMemory>
    ensures ok { OnOk result (out.new ≡ out.old ++ control_text (controls.RefsAck from.now version sequence)) }
    ensures kept { take (length out.old) out.new ≡ out.old }
{
    out.extend_from_slice(b"refs-ack ")?;
    put_adopted(from, version, sequence, out)
}

#[tactic(auto, using(crate::proofs::Appending::keeps_front, crate::proofs::Appending::keeps_on))]
fn put_manifests_ack(
    from: &UniqueAddress,
    version: u8,
    sequence: Option<u64>,
    out: &mut Bytes,
) -> Result<(), NoMemory>
    ensures ok { OnOk result (out.new ≡ out.old ++ control_text (controls.ManifestsAck from.now version sequence)) }
    ensures kept { take (length out.old) out.new ≡ out.old }
{
    out.extend_from_slice(b"manifests-ack ")?;
    put_adopted(from, version, sequence, out)
}

#[tactic(auto, using(crate::proofs::Appending::keeps_front, crate::proofs::Appending::keeps_on))]
fn put_entry(key: &Text, value: u16, out: &mut Bytes) -> Result<(), NoMemory>
    ensures ok { OnOk result (out.new ≡ out.old ++ entry_text key.now value) }
    ensures kept { take (length out.old) out.new ≡ out.old }
{
    out.push(b' ')?;
    print_word(key.as_slice(), out)?;
    out.push(b'=')?;
    print_number(u64::from(value), out)
}

#[tactic(auto, using(crate::proofs::Appending::keeps_front, crate::proofs::Appending::keeps_through, crate::proofs::Entries::entry_on, crate::proofs::Entries::keys_end, crate::proofs::Entries::values_end))]
fn put_entries(keys: &[Text], values: &[u16], out: &mut Bytes) -> Result<(), NoMemory>
    ensures ok { OnOk result (out.new ≡ out.old ++ entries_text keys.now values.now) }
    ensures kept { take (length out.old) out.new ≡ out.old }
{
    let mut at = 0;
    while at < keys.len() && at < values.len() {
        put_entry(&keys[at], values[at], out)?;
        at += 1;
    }
    Ok(())
}

// Who sent a table, and for whom.
#[tactic(auto, using(crate::proofs::Appending::keeps_front, crate::proofs::Appending::keeps_on))]
fn put_table_origin(from: &UniqueAddress, origin_uid: u64, out: &mut Bytes) -> Result<(), NoMemory>
    ensures ok { OnOk result (out.new ≡ out.old ++ origin_text from.now origin_uid) }
    ensures kept { take (length out.old) out.new ≡ out.old }
{
    print_unique(from, out)?;
    out.push(b' ')?;
    print_number(origin_uid, out)?;
    out.push(b' ')
}

// How many entries a table has, and each.
#[tactic(auto, using(crate::proofs::Appending::keeps_front, crate::proofs::Appending::keeps_on))]
fn put_table_entries(keys: &Names, values: &Values, out: &mut Bytes) -> Result<(), NoMemory>
    ensures ok { OnOk result (out.new ≡ out.old ++ counted_text keys.now values.now) }
    ensures kept { take (length out.old) out.new ≡ out.old }
{
    out.push(b' ')?;
    print_number(keys.len() as u64, out)?;
    put_entries(keys.as_slice(), values.as_slice(), out)
}

#[tactic(auto, using(crate::proofs::Appending::keeps_front, crate::proofs::Appending::keeps_on))]
fn put_table(
    from: &UniqueAddress,
    origin_uid: u64,
    version: u8,
    sequence: Option<u64>,
    keys: &Names,
    values: &Values,
    out: &mut Bytes,
) -> Result<(), NoMemory>
    ensures ok { OnOk result (out.new ≡ out.old ++ table_text from.now origin_uid (version_text version sequence) keys.now values.now) }
    ensures kept { take (length out.old) out.new ≡ out.old }
{
    put_table_origin(from, origin_uid, out)?;
    put_version(version, sequence, out)?;
    put_table_entries(keys, values, out)
}

#[tactic(auto, using(crate::proofs::Appending::keeps_front, crate::proofs::Appending::keeps_on))]
fn put_refs_table(
    from: &UniqueAddress,
    origin_uid: u64,
    version: u8,
    sequence: Option<u64>,
    keys: &Names,
    values: &Values,
    out: &mut Bytes,
) -> Result<(), NoMemory>
    ensures ok { OnOk result (out.new ≡ out.old ++ control_text (controls.RefsTable from.now origin_uid version keys.now values.now sequence)) }
    ensures kept { take (length out.old) out.new ≡ out.old }
{
    out.extend_from_slice(b"refs-table ")?;
    put_table(from, origin_uid, version, sequence, keys, values, out)
}

#[tactic(auto, using(crate::proofs::Appending::keeps_front, crate::proofs::Appending::keeps_on))]
fn put_manifests_table(
    from: &UniqueAddress,
    origin_uid: u64,
    version: u8,
    sequence: Option<u64>,
    keys: &Names,
    values: &Values,
    out: &mut Bytes,
) -> Result<(), NoMemory>
    ensures ok { OnOk result (out.new ≡ out.old ++ control_text (controls.ManifestsTable from.now origin_uid version keys.now values.now sequence)) }
    ensures kept { take (length out.old) out.new ≡ out.old }
{
    out.extend_from_slice(b"manifests-table ")?;
    put_table(from, origin_uid, version, sequence, keys, values, out)
}

#[tactic(auto, using(crate::proofs::Appending::keeps_front, crate::proofs::Appending::keeps_on))]
fn put_numbered_fields(
    n: u64,
    message: &SysMsg,
    reply_to: &UniqueAddress,
    out: &mut Bytes,
) -> Result<(), NoMemory>
    ensures ok { OnOk result (out.new ≡ out.old ++ (decimal n ++ codes " " ++ message_text message.now ++ codes " " ++ unique_text reply_to.now)) }
    ensures kept { take (length out.old) out.new ≡ out.old }
{
    print_number(n, out)?;
    out.push(b' ')?;
    print_message(message, out)?;
    out.push(b' ')?;
    print_unique(reply_to, out)
}

#[tactic(auto, using(crate::proofs::Appending::keeps_front, crate::proofs::Appending::keeps_on))]
fn put_numbered(
    n: u64,
    message: &SysMsg,
    reply_to: &UniqueAddress,
    out: &mut Bytes,
) -> Result<(), NoMemory>
    ensures ok { OnOk result (out.new ≡ out.old ++ control_text (controls.Numbered n message.now reply_to.now)) }
    ensures kept { take (length out.old) out.new ≡ out.old }
{
    out.extend_from_slice(b"numbered ")?;
    put_numbered_fields(n, message, reply_to, out)
}

#[tactic(auto, using(crate::proofs::Appending::keeps_front, crate::proofs::Appending::keeps_on))]
fn put_heartbeat_answer(uid: u64, out: &mut Bytes) -> Result<(), NoMemory>
    ensures ok { OnOk result (out.new ≡ out.old ++ control_text (controls.HeartbeatRsp uid)) }
    ensures kept { take (length out.old) out.new ≡ out.old }
{
    out.extend_from_slice(b"heartbeat-rsp ")?;
    print_number(uid, out)
}

#[tactic(auto, using(crate::proofs::Appending::keeps_front, crate::proofs::Appending::keeps_on))]
fn put_control(control: &Control, out: &mut Bytes) -> Result<(), NoMemory>
    ensures ok { OnOk result (out.new ≡ out.old ++ control_text control.now) }
    ensures kept { take (length out.old) out.new ≡ out.old }
{
    match control {
        Control::Quarantined { from, to } => put_quarantined(from, to, out),
        Control::Terminating { from } => put_terminating(from, out),
        Control::TerminatingAck { from } => put_terminating_ack(from, out),
        Control::HandshakeReq { from, to, nonce } => put_request(from, to, *nonce, out),
        Control::HandshakeRsp {
            from,
            for_uid,
            nonce,
        } => put_answer(from, *for_uid, *nonce, out),
        Control::RefsTable {
            from,
            origin_uid,
            version,
            keys,
            values,
            sequence,
        } => put_refs_table(from, *origin_uid, *version, *sequence, keys, values, out),
        Control::RefsAck {
            from,
            version,
            sequence,
        } => put_refs_ack(from, *version, *sequence, out),
        Control::ManifestsTable {
            from,
            origin_uid,
            version,
            keys,
            values,
            sequence,
        } => put_manifests_table(from, *origin_uid, *version, *sequence, keys, values, out),
        Control::ManifestsAck {
            from,
            version,
            sequence,
        } => put_manifests_ack(from, *version, *sequence, out),
        Control::Numbered {
            n,
            message,
            reply_to,
        } => put_numbered(*n, message, reply_to, out),
        Control::Ack { n, from } => put_ack(*n, from, out),
        Control::Nack { n, from } => put_nack(*n, from, out),
        Control::Heartbeat => out.extend_from_slice(b"heartbeat"),
        Control::HeartbeatRsp { uid } => put_heartbeat_answer(*uid, out),
    }
}

/// Appends the text of a control message: its word and its fields, a space before each; an absent
/// number is `-`. Without memory `out` stays as it was.
pub fn print_control(control: &Control, out: &mut Bytes) -> Result<(), NoMemory>
    ensures ok { OnOk result (out.new ≡ out.old ++ control_text control.now) }
    ensures err { OnErr result (out.new ≡ out.old) }
{
    let before = out.len();
    let appended = put_control(control, out);
    out.settle(before, appended)
}
