//! Where a field of a control message is, as text.
ghost use Rattle.std.specs.Prelude.{◌≡◌, ◌<◌, length, position, IfSome};
ghost use Rattle.artery_journal_reading.specs.Reading.{is_dot, field_number_told, innermost_told, inner_told, numbers_told, path_told};

use artery_journal::Path;
use artery_text::read_number;

fn find_dot(text: &[u8]) -> Option<usize>
    ensures found { result ≡ position is_dot text.now }
    ensures within { IfSome result (λ at. at < length text.now) }
{
    text.iter().position(|byte| *byte == b'.')
}

// The number of a field, 1 to 255.
fn field_number(text: &[u8]) -> Option<u8>
    ensures { result ≡ field_number_told text.now }
{
    let number = read_number(text)?;
    if number == 0 {
        return None;
    }
    if number > 255 {
        return None;
    }
    Some(number as u8)
}

fn innermost_from(outer: u8, middle: u8, text: &[u8]) -> Option<Path>
    ensures { result ≡ innermost_told outer middle text.now }
{
    let inner = field_number(text)?;
    Some(Path::Innermost(outer, middle, inner))
}

// What stands behind the first number.
fn inner_from(outer: u8, text: &[u8]) -> Option<Path>
    ensures { result ≡ inner_told outer text.now (position is_dot text.now) }
{
    let Some(at) = find_dot(text) else {
        let inner = field_number(text)?;
        return Some(Path::Inner(outer, inner));
    };
    let middle = field_number(&text[..at])?;
    innermost_from(outer, middle, &text[at + 1..])
}

fn numbers_from(text: &[u8]) -> Option<Path>
    ensures { result ≡ numbers_told text.now (position is_dot text.now) }
{
    let Some(at) = find_dot(text) else {
        let number = field_number(text)?;
        return Some(Path::Field(number));
    };
    let outer = field_number(&text[..at])?;
    inner_from(outer, &text[at + 1..])
}

#[tactic(auto, unfolding(crate::specs::Reading::path_told))]
pub(crate) fn path_from(text: &[u8]) -> Option<Path>
    ensures { result ≡ path_told text.now }
{
    if text == b"-".as_slice() {
        return Some(Path::Message);
    }
    numbers_from(text)
}
