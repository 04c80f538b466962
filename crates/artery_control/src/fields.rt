ghost use Rattle.std.specs.Prelude.{◌≡◌, [], ◌∷◌, MatchOption};
ghost use Rattle.artery_wire.specs.Record.{field_of};
ghost use Rattle.artery_control.specs.Picking.{fields_in};

use artery_wire::{Cursor, Field};
use std::marker::Model;

/// The fields of a record one after the other, up to its end or its first fault.
#[derive(Drop)]
pub(crate) struct Fields<'a> {
    cursor: Cursor<'a>,
}

impl<'a> Model for Fields<'a> {
    ghost use Rattle.std.specs.Prelude.{List};
    ghost use Rattle.artery_wire.specs.Record.{FieldOf};
    ghost use Rattle.artery_wire.specs.Reader.{fields_left};

    ghost Value = { List FieldOf };

    ghost view = { λ f. (fields_left f.cursor).0 };
}

impl<'a> Fields<'a> {
    pub(crate) fn new(bytes: &'a [u8]) -> Fields<'a>
        ensures { result ≡ fields_in bytes.now }
    {
        Fields {
            cursor: Cursor::new(bytes),
        }
    }

    /// The next field; `None` at the end and at the first fault.
    pub(crate) fn next(&mut self) -> Option<Field<'a>>
        ensures { MatchOption result (self.old ≡ []) (λ f. self.old ≡ field_of f ∷ self.new) }
    {
        match self.cursor.next_field() {
            Ok(next) => next,
            Err(_) => None,
        }
    }
}
