ghost use Rattle.std.specs.Prelude.{◌≡◌, [], ◌∷◌, MatchOption};
ghost use Rattle.artery_wire.specs.Reading.{numbers_of};

use artery_wire::Cursor;
use std::marker::Model;

/// The numbers of a packed field one after the other, up to its end or its first fault.
#[derive(Drop)]
pub(crate) struct Packed<'a> {
    cursor: Cursor<'a>,
}

impl<'a> Model for Packed<'a> {
    ghost use Rattle.std.specs.Prelude.{List, ℕ};
    ghost use Rattle.artery_wire.specs.Reader.{numbers_left};

    ghost Value = { List ℕ };

    ghost view = { λ f. (numbers_left f.cursor).0 };
}

impl<'a> Packed<'a> {
    pub(crate) fn new(bytes: &'a [u8]) -> Packed<'a>
        ensures { result ≡ (numbers_of bytes.now).0 }
    {
        Packed {
            cursor: Cursor::new(bytes),
        }
    }

    /// The next number; `None` at the end and at the first fault.
    pub(crate) fn next(&mut self) -> Option<u64>
        ensures { MatchOption result (self.old ≡ []) (λ n. self.old ≡ n ∷ self.new) }
    {
        match self.cursor.next_packed() {
            Ok(next) => next,
            Err(_) => None,
        }
    }
}
