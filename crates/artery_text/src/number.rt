ghost use Rattle.std.specs.Prelude.{◌==◌, ◌&&◌, nat_lt, length, slice_index, ◌≡◌, ℕ, ℤ, ◌<◌, ◌^◌, ◌++◌, decimal, IfSome, Some, OnOk, OnErr, FitsSigned};
ghost use Rattle.std.specs.Fmt.{signed_decimal};
ghost use Rattle.std.specs.Int.{w32};
ghost use Rattle.std.specs.Char.{is_ascii_digit};
ghost use Rattle.std.specs.List.{list_all};
ghost use Rattle.artery_text.specs.Reading.{is_numeral, number_of, int32_of, positive_int32, negative_int32};

use artery_base::{Bytes, NoMemory};
use itoa::Buffer;

/// The magnitude of the least `i32`.
const INT32_END: u64 = 1 << 31;

fn has_leading_zero(text: &[u8]) -> bool
    ensures { result ≡ (nat_lt 1 (length text.now) && slice_index text.now 0 == 48) }
{
    text.len() > 1 && text[0] == b'0'
}

fn has_digits_alone(text: &[u8]) -> bool
    ensures { result ≡ list_all is_ascii_digit text.now }
{
    text.iter().all(|byte| byte.is_ascii_digit())
}

fn is_numeral(text: &[u8]) -> bool
    ensures { result ≡ is_numeral text.now }
{
    if text.is_empty() {
        return false;
    }
    if has_leading_zero(text) {
        return false;
    }
    has_digits_alone(text)
}

fn number_in(text: &[u8]) -> Option<u64>
    ensures { result ≡ number_of text.now }
{
    if !is_numeral(text) {
        return None;
    }
    let Ok(digits) = str::from_utf8(text) else {
        return None;
    };
    digits.parse::<u64>().ok()
}

/// The number below 2^64 that the text spells in decimal, without leading zeros or a sign; `None`
/// where it spells none. Takes no memory.
#[tactic(auto, using(crate::proofs::Decimals::number_found, crate::proofs::Decimals::number_again))]
pub fn read_number(text: &[u8]) -> Option<u64>
    ensures exact { result ≡ number_of text.now }
    ensures found { IfSome result (λ n. (n < 2 ^ 64) × (text.now ≡ decimal n)) }
    ensures only { (n : ℕ) → n < 2 ^ 64 → text.now ≡ decimal n → result ≡ Some n }
{
    number_in(text)
}

fn positive(magnitude: Option<u64>) -> Option<i32>
    ensures { result ≡ positive_int32 magnitude }
{
    let magnitude = magnitude?;
    if magnitude < INT32_END {
        Some(magnitude as i32)
    } else {
        None
    }
}

fn negative(magnitude: Option<u64>) -> Option<i32>
    ensures { result ≡ negative_int32 magnitude }
{
    let magnitude = magnitude?;
    if magnitude == 0 {
        return None;
    }
    if magnitude > INT32_END {
        return None;
    }
    Some((-(magnitude as i64)) as i32)
}

fn int32_in(text: &[u8]) -> Option<i32>
    ensures { result ≡ int32_of text.now }
{
    match text {
        [] => None,
        [b'-', digits @ ..] => negative(read_number(digits)),
        _ => positive(read_number(text)),
    }
}

/// The `i32` that the text spells in decimal, without leading zeros, behind a `-` where it is
/// negative; `None` where it spells none, as `-0`. Takes no memory.
pub fn read_int32(text: &[u8]) -> Option<i32>
    ensures exact { result ≡ int32_of text.now }
    ensures found { IfSome result (λ z. FitsSigned w32 z × (text.now ≡ signed_decimal z)) }
    ensures only { (z : ℤ) → FitsSigned w32 z → text.now ≡ signed_decimal z → result ≡ Some z }
{
    int32_in(text)
}

/// Appends the number in decimal. Without memory `out` stays as it was.
#[tactic(auto, using(std::proofs::lemmas::Fmt::decimal_digit))]
pub fn print_number(number: u64, out: &mut Bytes) -> Result<(), NoMemory>
    ensures ok { OnOk result (out.new ≡ out.old ++ decimal number) }
    ensures err { OnErr result (out.new ≡ out.old) }
{
    if number < 10 {
        return out.push(b'0' + number as u8);
    }
    let mut buffer = Buffer::new();
    out.extend_from_slice(buffer.format(number).as_bytes())
}

/// Appends the number in decimal, behind a `-` where it is negative. Without memory `out` stays as
/// it was.
pub fn print_int32(number: i32, out: &mut Bytes) -> Result<(), NoMemory>
    ensures ok { OnOk result (out.new ≡ out.old ++ signed_decimal number) }
    ensures err { OnErr result (out.new ≡ out.old) }
{
    let mut buffer = Buffer::new();
    out.extend_from_slice(buffer.format(number).as_bytes())
}
