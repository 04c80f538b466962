ghost use Rattle.std.specs.Prelude.{◌≡◌, ◌+◌, ◌++◌, [], ◌∷◌, length, map, OnOk, OnErr, IfOk, IsTrue};
ghost use Rattle.artery_wire.specs.Writing.{IsNumber, record_bytes, uint_field, bytes_field, head_bytes, field_bytes, BeginsWith};
ghost use Rattle.artery_control.specs.Payload.{optional_field, present_field, address_bytes, unique_bytes, unique_field, table_fields, table_ack_fields, message_fields, numbered_fields, control_fields, is_about_table, payload_of, letter_of};

use crate::control::Control;
use artery_base::{Address, Bytes, Names, NoMemory, SysMsg, UniqueAddress, Values};
use artery_wire::{head_size, put_bytes, put_head, put_int32, put_uint, uint_size};

/// The manifest of a message: its letter.
pub fn manifest_of(control: &Control) -> u8
    ensures { result ≡ letter_of control.now }
{
    match control {
        Control::Quarantined { .. } => b'a',
        Control::Terminating { .. } => b'b',
        Control::TerminatingAck { .. } => b'c',
        Control::HandshakeReq { .. } => b'd',
        Control::HandshakeRsp { .. } => b'e',
        Control::RefsTable { .. } => b'f',
        Control::RefsAck { .. } => b'g',
        Control::ManifestsTable { .. } => b'h',
        Control::ManifestsAck { .. } => b'i',
        Control::Numbered { .. } => b'j',
        Control::Ack { .. } => b'k',
        Control::Nack { .. } => b'l',
        Control::Heartbeat => b'm',
        Control::HeartbeatRsp { .. } => b'n',
    }
}

/// Appends the canonical payload of a message: ascending fields, shortest varints, numbers unpacked,
/// and neither an absent field nor an empty manifest. Without memory `out` stays as it was.
pub fn write_control(control: &Control, out: &mut Bytes) -> Result<(), NoMemory>
    ensures ok { OnOk result (out.new ≡ out.old ++ payload_of control.now) }
    ensures err { OnErr result (out.new ≡ out.old) }
{
    let before = out.len();
    let appended = append_control(control, out);
    out.settle(before, appended)
}

/// How many bytes a field with this payload has; want of memory where no memory holds so many.
fn bytes_size(number: u32, len: usize) -> Result<usize, NoMemory>
    ensures { IfOk result (λ n. n ≡ length (head_bytes number len) + len) }
{
    let size = head_size(number, len).checked_add(len).ok_or(NoMemory)?;
    Ok(size)
}

/// How many bytes an address has as a record.
#[tactic(auto, using(crate::proofs::Writes::write_steps), unfolding(crate::specs::Payload::address_bytes))]
fn address_size(address: &Address) -> Result<usize, NoMemory>
    ensures { IfOk result (λ n. n ≡ length (address_bytes address.now)) }
{
    let protocol = bytes_size(1, address.protocol.len())?;
    let system = bytes_size(2, address.system.len())?;
    let host = bytes_size(3, address.host.len())?;
    let port = uint_size(4, address.port as u64);
    let names = protocol.checked_add(system).ok_or(NoMemory)?;
    let texts = names.checked_add(host).ok_or(NoMemory)?;
    let size = texts.checked_add(port).ok_or(NoMemory)?;
    Ok(size)
}

/// How many bytes a unique address has as a record.
#[tactic(auto, using(crate::proofs::Writes::write_steps), unfolding(crate::specs::Payload::unique_bytes))]
fn unique_size(unique: &UniqueAddress) -> Result<usize, NoMemory>
    ensures { IfOk result (λ n. n ≡ length (unique_bytes unique.now)) }
{
    let address = bytes_size(1, address_size(&unique.address)?)?;
    let uid = uint_size(2, unique.uid);
    let size = address.checked_add(uid).ok_or(NoMemory)?;
    Ok(size)
}

/// Appends the record of an address.
#[tactic(auto, using(crate::proofs::Writes::write_steps), unfolding(crate::specs::Payload::address_bytes))]
fn append_address_record(address: &Address, out: &mut Bytes) -> Result<(), NoMemory>
    ensures ok { OnOk result (out.new ≡ out.old ++ address_bytes address.now) }
    ensures err { OnErr result (BeginsWith out.old out.new) }
{
    put_bytes(1, address.protocol.as_slice(), out)?;
    put_bytes(2, address.system.as_slice(), out)?;
    put_bytes(3, address.host.as_slice(), out)?;
    put_uint(4, address.port as u64, out)?;
    Ok(())
}

/// Appends a field that is an address.
#[tactic(auto, using(crate::proofs::Writes::write_steps))]
fn append_address(number: u32, address: &Address, out: &mut Bytes) -> Result<(), NoMemory>
    requires { IsNumber number }
    ensures ok { OnOk result (out.new ≡ out.old ++ field_bytes (bytes_field number (address_bytes address.now))) }
    ensures err { OnErr result (BeginsWith out.old out.new) }
{
    let size = address_size(address)?;
    put_head(number, size, out)?;
    append_address_record(address, out)?;
    Ok(())
}

/// Appends the record of a unique address.
#[tactic(auto, using(crate::proofs::Writes::write_steps), unfolding(crate::specs::Payload::unique_bytes))]
fn append_unique_record(unique: &UniqueAddress, out: &mut Bytes) -> Result<(), NoMemory>
    ensures ok { OnOk result (out.new ≡ out.old ++ unique_bytes unique.now) }
    ensures err { OnErr result (BeginsWith out.old out.new) }
{
    append_address(1, &unique.address, out)?;
    put_uint(2, unique.uid, out)?;
    Ok(())
}

/// Appends a field that is a unique address.
#[tactic(auto, using(crate::proofs::Writes::write_steps))]
fn append_unique(number: u32, unique: &UniqueAddress, out: &mut Bytes) -> Result<(), NoMemory>
    requires { IsNumber number }
    ensures ok { OnOk result (out.new ≡ out.old ++ field_bytes (unique_field number unique.now)) }
    ensures err { OnErr result (BeginsWith out.old out.new) }
{
    let size = unique_size(unique)?;
    put_head(number, size, out)?;
    append_unique_record(unique, out)?;
    Ok(())
}

/// Appends a number, where it is there.
#[tactic(auto, using(crate::proofs::Writes::write_steps))]
fn append_optional(number: u32, value: Option<u64>, out: &mut Bytes) -> Result<(), NoMemory>
    requires { IsNumber number }
    ensures ok { OnOk result (out.new ≡ out.old ++ record_bytes (optional_field number value)) }
    ensures err { OnErr result (out.new ≡ out.old) }
{
    match value {
        Some(value) => put_uint(number, value, out),
        None => Ok(()),
    }
}

/// Appends bytes, where there are any.
#[tactic(auto, using(crate::proofs::Writes::write_steps))]
fn append_present(number: u32, bytes: &[u8], out: &mut Bytes) -> Result<(), NoMemory>
    requires { IsNumber number }
    ensures ok { OnOk result (out.new ≡ out.old ++ record_bytes (present_field number bytes.now)) }
    ensures err { OnErr result (out.new ≡ out.old) }
{
    if bytes.is_empty() {
        Ok(())
    } else {
        put_bytes(number, bytes, out)
    }
}

/// Appends the keys of a table.
#[tactic(auto, using(crate::proofs::Writes::write_steps))]
fn append_keys(keys: &Names, out: &mut Bytes) -> Result<(), NoMemory>
    ensures ok { OnOk result (out.new ≡ out.old ++ record_bytes (map (bytes_field 4) keys.now)) }
    ensures err { OnErr result (BeginsWith out.old out.new) }
{
    for key in keys.as_slice() {
        put_bytes(4, key.as_slice(), out)?;
    }
    Ok(())
}

/// Appends the values of a table, one by one.
#[tactic(auto, using(crate::proofs::Writes::write_steps))]
fn append_values(values: &Values, out: &mut Bytes) -> Result<(), NoMemory>
    ensures ok { OnOk result (out.new ≡ out.old ++ record_bytes (map (uint_field 5) values.now)) }
    ensures err { OnErr result (BeginsWith out.old out.new) }
{
    for value in values.as_slice() {
        put_uint(5, *value as u64, out)?;
    }
    Ok(())
}

#[tactic(auto, using(crate::proofs::Writes::write_steps))]
fn append_control(control: &Control, out: &mut Bytes) -> Result<(), NoMemory>
    ensures ok { OnOk result (out.new ≡ out.old ++ payload_of control.now) }
    ensures err { OnErr result (BeginsWith out.old out.new) }
{
    match control {
        Control::Quarantined { from, to } => append_two(from, to, out),
        Control::Terminating { from } => append_unique(1, from, out),
        Control::TerminatingAck { from } => append_unique(1, from, out),
        Control::HandshakeReq { from, to, nonce } => append_request(from, to, *nonce, out),
        Control::HandshakeRsp {
            from,
            for_uid,
            nonce,
        } => append_answer(from, *for_uid, *nonce, out),
        Control::RefsTable { .. }
        | Control::RefsAck { .. }
        | Control::ManifestsTable { .. }
        | Control::ManifestsAck { .. } => append_about_table(control, out),
        Control::Numbered {
            n,
            message,
            reply_to,
        } => append_numbered(*n, message, reply_to, out),
        Control::Ack { n, from } => append_counted(*n, from, out),
        Control::Nack { n, from } => append_counted(*n, from, out),
        Control::Heartbeat => Ok(()),
        Control::HeartbeatRsp { uid } => put_uint(1, *uid, out),
    }
}

/// Appends a message that announces a table or answers one.
#[tactic(auto, using(crate::proofs::Writes::write_steps))]
fn append_about_table(control: &Control, out: &mut Bytes) -> Result<(), NoMemory>
    requires { IsTrue (is_about_table control.now) }
    ensures ok { OnOk result (out.new ≡ out.old ++ payload_of control.now) }
    ensures err { OnErr result (BeginsWith out.old out.new) }
{
    match control {
        Control::RefsTable {
            from,
            origin_uid,
            version,
            keys,
            values,
            sequence,
        } => { append_table(from, *origin_uid, *version, keys, values, *sequence, out) }
        Control::RefsAck {
            from,
            version,
            sequence,
        } => append_table_ack(from, *version, *sequence, out),
        Control::ManifestsTable {
            from,
            origin_uid,
            version,
            keys,
            values,
            sequence,
        } => { append_table(from, *origin_uid, *version, keys, values, *sequence, out) }
        Control::ManifestsAck {
            from,
            version,
            sequence,
        } => append_table_ack(from, *version, *sequence, out),
        _ => Ok(()),
    }
}

#[tactic(auto, using(crate::proofs::Writes::write_steps))]
fn append_two(from: &UniqueAddress, to: &UniqueAddress, out: &mut Bytes) -> Result<(), NoMemory>
    ensures ok { OnOk result (out.new ≡ out.old ++ record_bytes (unique_field 1 from.now ∷ unique_field 2 to.now ∷ [])) }
    ensures err { OnErr result (BeginsWith out.old out.new) }
{
    append_unique(1, from, out)?;
    append_unique(2, to, out)?;
    Ok(())
}

#[tactic(auto, using(crate::proofs::Writes::write_steps))]
fn append_request(
    from: &UniqueAddress,
    to: &Address,
    nonce: Option<u64>,
    out: &mut Bytes,
) -> Result<(), NoMemory>
    ensures ok { OnOk result (out.new ≡ out.old ++ record_bytes (unique_field 1 from.now ∷ bytes_field 2 (address_bytes to.now) ∷ optional_field 15 nonce)) }
    ensures err { OnErr result (BeginsWith out.old out.new) }
{
    append_unique(1, from, out)?;
    append_address(2, to, out)?;
    append_optional(15, nonce, out)?;
    Ok(())
}

#[tactic(auto, using(crate::proofs::Writes::write_steps))]
fn append_answer(
    from: &UniqueAddress,
    for_uid: Option<u64>,
    nonce: Option<u64>,
    out: &mut Bytes,
) -> Result<(), NoMemory>
    ensures ok { OnOk result (out.new ≡ out.old ++ record_bytes (unique_field 1 from.now ∷ (optional_field 14 for_uid ++ optional_field 15 nonce))) }
    ensures err { OnErr result (BeginsWith out.old out.new) }
{
    append_unique(1, from, out)?;
    append_optional(14, for_uid, out)?;
    append_optional(15, nonce, out)?;
    Ok(())
}

#[tactic(auto, using(crate::proofs::Writes::table_steps))]
fn append_table(
    from: &UniqueAddress,
    origin_uid: u64,
    version: u8,
    keys: &Names,
    values: &Values,
    sequence: Option<u64>,
    out: &mut Bytes,
) -> Result<(), NoMemory>
    ensures ok { OnOk result (out.new ≡ out.old ++ record_bytes (table_fields from.now origin_uid version keys.now values.now sequence)) }
    ensures err { OnErr result (BeginsWith out.old out.new) }
{
    append_table_head(from, origin_uid, version, out)?;
    append_entries(keys, values, out)?;
    append_optional(6, sequence, out)?;
    Ok(())
}

/// Appends who announces a table to which origin, and its version.
#[tactic(auto, using(crate::proofs::Writes::write_steps))]
fn append_table_head(
    from: &UniqueAddress,
    origin_uid: u64,
    version: u8,
    out: &mut Bytes,
) -> Result<(), NoMemory>
    ensures ok { OnOk result (out.new ≡ out.old ++ record_bytes (unique_field 1 from.now ∷ uint_field 2 origin_uid ∷ uint_field 3 version ∷ [])) }
    ensures err { OnErr result (BeginsWith out.old out.new) }
{
    append_unique(1, from, out)?;
    put_uint(2, origin_uid, out)?;
    put_uint(3, version as u64, out)?;
    Ok(())
}

/// Appends the keys and the values of a table.
#[tactic(auto, using(crate::proofs::Writes::write_steps))]
fn append_entries(keys: &Names, values: &Values, out: &mut Bytes) -> Result<(), NoMemory>
    ensures ok { OnOk result (out.new ≡ out.old ++ (record_bytes (map (bytes_field 4) keys.now) ++ record_bytes (map (uint_field 5) values.now))) }
    ensures err { OnErr result (BeginsWith out.old out.new) }
{
    append_keys(keys, out)?;
    append_values(values, out)?;
    Ok(())
}

#[tactic(auto, using(crate::proofs::Writes::write_steps))]
fn append_table_ack(
    from: &UniqueAddress,
    version: u8,
    sequence: Option<u64>,
    out: &mut Bytes,
) -> Result<(), NoMemory>
    ensures ok { OnOk result (out.new ≡ out.old ++ record_bytes (table_ack_fields from.now version sequence)) }
    ensures err { OnErr result (BeginsWith out.old out.new) }
{
    append_unique(1, from, out)?;
    put_uint(2, version as u64, out)?;
    append_optional(3, sequence, out)?;
    Ok(())
}

/// Appends the fields of a system message.
#[tactic(auto, using(crate::proofs::Writes::write_steps))]
fn append_message(message: &SysMsg, out: &mut Bytes) -> Result<(), NoMemory>
    ensures ok { OnOk result (out.new ≡ out.old ++ record_bytes (message_fields message.now)) }
    ensures err { OnErr result (BeginsWith out.old out.new) }
{
    put_bytes(1, message.payload.as_slice(), out)?;
    put_int32(2, message.serializer, out)?;
    append_present(3, message.manifest.as_slice(), out)?;
    Ok(())
}

#[tactic(auto, using(crate::proofs::Writes::numbered_steps))]
fn append_numbered(
    n: u64,
    message: &SysMsg,
    reply_to: &UniqueAddress,
    out: &mut Bytes,
) -> Result<(), NoMemory>
    ensures ok { OnOk result (out.new ≡ out.old ++ record_bytes (numbered_fields n message.now reply_to.now)) }
    ensures err { OnErr result (BeginsWith out.old out.new) }
{
    append_message(message, out)?;
    put_uint(4, n, out)?;
    append_unique(5, reply_to, out)?;
    Ok(())
}

#[tactic(auto, using(crate::proofs::Writes::write_steps))]
fn append_counted(n: u64, from: &UniqueAddress, out: &mut Bytes) -> Result<(), NoMemory>
    ensures ok { OnOk result (out.new ≡ out.old ++ record_bytes (uint_field 1 n ∷ unique_field 2 from.now ∷ [])) }
    ensures err { OnErr result (BeginsWith out.old out.new) }
{
    put_uint(1, n, out)?;
    append_unique(2, from, out)?;
    Ok(())
}
