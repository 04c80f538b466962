ghost use Rattle.std.specs.Prelude.{◌≡◌};
ghost use Rattle.artery_text.specs.declared.fault.TextFault.TheVariants as text_faults;
ghost use Rattle.artery_text.specs.declared.fault.WordFault.TheVariants as word_faults;
ghost use Rattle.artery_text.specs.declared.fault.AddressFault.TheVariants as address_faults;

use artery_base::NoMemory;

/// Why bytes are no text.
#[derive(Clone, Copy, Debug, PartialEq, Eq)]
pub enum TextFault {
    /// The byte at this place is the first above 127.
    NotAscii { at: usize },
    /// Memory ran out.
    NoMemory,
}

/// Why a text is no word, or no bytes in hexadecimal.
#[derive(Clone, Copy, Debug, PartialEq, Eq)]
pub enum WordFault {
    /// The text is not the one spelling of any bytes, from this place on.
    BadWord { at: usize },
    /// Memory ran out.
    NoMemory,
}

/// A named part of an address.
#[derive(Clone, Copy, Debug, PartialEq, Eq)]
pub enum Part {
    Protocol,
    System,
    Host,
}

/// Why a text is no address. The faults are tried in this order: the UID, the separators, the
/// lengths, the bytes, the port.
#[derive(Clone, Copy, Debug, PartialEq, Eq)]
pub enum AddressFault {
    /// There is no `://`.
    NoScheme,
    /// There is no `@` after it.
    NoAt,
    /// There is no `:` after that.
    NoPort,
    /// The port is not 1 to 65,535 in decimal without leading zeros.
    PortRange,
    /// The first part that has not 1 to 255 bytes, and how many it has.
    PartLength { part: Part, len: usize },
    /// The byte at this place of the text is the first in a part that is neither a letter, a digit,
    /// `-`, `_` nor `.`.
    BadChar { at: usize },
    /// There is no `#`, or no number below 2^64 after the last one.
    NoUid,
    /// Memory ran out.
    NoMemory,
}

impl From<NoMemory> for TextFault {
    ghost from_gives = { λ _ e. e ≡ text_faults.NoMemory };

    fn from(_error: NoMemory) -> TextFault {
        TextFault::NoMemory
    }
}

impl From<NoMemory> for WordFault {
    ghost from_gives = { λ _ e. e ≡ word_faults.NoMemory };

    fn from(_error: NoMemory) -> WordFault {
        WordFault::NoMemory
    }
}

impl From<NoMemory> for AddressFault {
    ghost from_gives = { λ _ e. e ≡ address_faults.NoMemory };

    fn from(_error: NoMemory) -> AddressFault {
        AddressFault::NoMemory
    }
}
