ghost use Rattle.std.specs.Prelude.{◌≡◌, nat_lt};
ghost use Rattle.std.specs.List.{list_all};
ghost use Rattle.std.specs.Bool.{OnTrue};
ghost use Rattle.std.specs.Str.{IsAscii};
ghost use Rattle.artery_base.specs.Valid.{is_part_byte};
ghost use Rattle.artery_control.specs.Parts.{is_part, is_key};

/// The most bytes of a part of an address.
const MAX_PART: usize = 255;

/// The most bytes of a key of a table.
const MAX_KEY: usize = 65_535;

fn part_byte(byte: u8) -> bool
    ensures { result ≡ is_part_byte byte }
{
    matches!(byte, b'a'..=b'z' | b'A'..=b'Z' | b'0'..=b'9' | b'-' | b'_' | b'.')
}

fn all_part_bytes(text: &[u8]) -> bool
    ensures { result ≡ list_all is_part_byte text.now }
{
    text.iter().all(|byte| part_byte(*byte))
}

fn all_ascii(text: &[u8]) -> bool
    ensures { result ≡ list_all (λ b. nat_lt b 128) text.now }
{
    text.iter().all(|byte| *byte < 128)
}

/// Whether the text may be a part of an address.
#[tactic(auto, using(crate::proofs::Ascii::part_ascii), unfolding(crate::specs::Parts::is_part))]
pub(crate) fn is_part_text(text: &[u8]) -> bool
    ensures value { result ≡ is_part text.now }
    ensures ascii { OnTrue result (IsAscii text.now) }
{
    1 <= text.len() && text.len() <= MAX_PART && all_part_bytes(text)
}

/// Whether the text may be a key of a table.
#[tactic(auto, using(crate::proofs::Ascii::key_ascii), unfolding(crate::specs::Parts::is_key))]
pub(crate) fn is_key_text(text: &[u8]) -> bool
    ensures value { result ≡ is_key text.now }
    ensures ascii { OnTrue result (IsAscii text.now) }
{
    text.len() <= MAX_KEY && all_ascii(text)
}
