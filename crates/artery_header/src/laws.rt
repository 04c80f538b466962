ghost use Rattle.std.specs.Prelude.{◌≡◌, ◌↔◌, ◌⊎◌, ℕ, List, length, None, Ok, Err};
ghost use Rattle.artery_header.specs.declared.fault.HeaderFault.{HeaderFault};
ghost use Rattle.artery_header.specs.FirstFault.{IsFirstFault};
ghost use Rattle.artery_header.specs.Envelope.{EnvelopeOf, IsEnvelope, HasTexts, IsLaidOut, canonical, canonical_len, refusal, read_of, literal_limit, envelope_limit};

use crate::write::{FRAME_LIMIT, LITERAL_LIMIT};

/// Bytes stand for an envelope exactly where that is read from them, and have a first fault exactly where it
/// is. So each list of bytes stands for one envelope or has one first fault, and never both.
pub fn one_reading()
    ensures envelope { (bytes : List ℕ) (e : EnvelopeOf) → IsLaidOut bytes e ↔ (read_of bytes ≡ Ok e) }
    ensures fault { (bytes : List ℕ) (fault : HeaderFault) → IsFirstFault bytes fault ↔ (read_of bytes ≡ Err fault) }
    ensures either { (bytes : List ℕ) → ((e : EnvelopeOf) × IsLaidOut bytes e) ⊎ ((fault : HeaderFault) × IsFirstFault bytes fault) }
{}

/// What was written is read again: the canonical bytes of every envelope that is not refused are read as
/// that envelope.
pub fn written_is_read()
    ensures read { (e : EnvelopeOf) → IsEnvelope e → HasTexts e → refusal e ≡ None → read_of (canonical e) ≡ Ok e }
    ensures length { (e : EnvelopeOf) → length (canonical e) ≡ canonical_len e }
{}

/// The limits that the code compares with are the numbers of the definitions.
pub fn limits_stand()
    ensures literal { LITERAL_LIMIT ≡ literal_limit }
    ensures envelope { FRAME_LIMIT ≡ envelope_limit }
{}
