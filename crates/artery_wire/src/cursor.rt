ghost use Rattle.std.specs.Prelude.{◌≡◌, ◌≤◌, length, None};
ghost use Rattle.artery_wire.specs.Fault.{fault_at};
ghost use Rattle.artery_wire.specs.Record.{field_of};
ghost use Rattle.artery_wire.specs.Reading.{fields_of, numbers_of};
ghost use Rattle.artery_wire.specs.Reader.{reader_of, fields_left, numbers_left, IsNext, moved_to, stopped_by};

use crate::fault::{FaultKind, WireFault};
use crate::field::{Field, field_front};
use crate::varint::varint_front;
use std::marker::Model;

/// A place in the bytes of a record, from which its fields are read one after the other,
/// or the numbers of a packed field. Reading borrows from the bytes and takes no memory.
#[derive(Drop)]
pub struct Cursor<'a> {
    rest: &'a [u8],
    place: usize,
    told: Option<WireFault>,
}

impl<'a> Model for Cursor<'a> {
    ghost use Rattle.std.specs.Prelude.{◌+◌, ◌<◌, ◌^◌, length};
    ghost use Rattle.artery_wire.specs.Reading.{fields_of, numbers_of};
    ghost use Rattle.artery_wire.specs.Reader.{Reader};

    ghost Value = { Reader };

    ghost view = { λ c. record { rest = c.rest.now; place = c.place; told = c.told } };

    ghost invariant = { λ c. c.place + length c.rest.now < 2 ^ 64 };
}

impl<'a> Cursor<'a> {
    /// A cursor at the first of the bytes.
    #[tactic(auto, unfolding(crate::specs::Reader::fields_left, crate::specs::Reader::numbers_left))]
    pub fn new(bytes: &'a [u8]) -> Cursor<'a>
        ensures start { result ≡ reader_of bytes.now }
        ensures fields { fields_left result ≡ fields_of bytes.now }
        ensures numbers { numbers_left result ≡ numbers_of bytes.now }
    {
        Cursor {
            rest: bytes,
            place: 0,
            told: None,
        }
    }

    /// The next field; `None` exactly at the end of the bytes. After a fault each call answers it again.
    #[tactic(auto, using(crate::proofs::Steps::field_steps))]
    pub fn next_field(&mut self) -> Result<Option<Field<'a>>, WireFault>
        ensures { IsNext field_of result (fields_left self.old) (fields_left self.new) }
    {
        if let Some(fault) = self.told {
            return Err(fault);
        }
        if self.rest.is_empty() {
            return Ok(None);
        }
        match field_front(self.rest) {
            Ok((field, rest)) => {
                self.move_to(rest);
                Ok(Some(field))
            }
            Err(kind) => Err(self.stop(kind)),
        }
    }

    /// The next varint of a packed field; `None` exactly at the end of the bytes. After a fault each call
    /// answers it again.
    #[tactic(auto, using(crate::proofs::Steps::number_steps))]
    pub fn next_packed(&mut self) -> Result<Option<u64>, WireFault>
        ensures { IsNext (λ n. n) result (numbers_left self.old) (numbers_left self.new) }
    {
        if let Some(fault) = self.told {
            return Err(fault);
        }
        if self.rest.is_empty() {
            return Ok(None);
        }
        match varint_front(self.rest) {
            Ok((number, rest)) => {
                self.move_to(rest);
                Ok(Some(number))
            }
            Err(kind) => Err(self.stop(kind)),
        }
    }

    fn move_to(&mut self, rest: &'a [u8])
        requires { length rest.now ≤ length self.old.rest }
        ensures { self.new ≡ moved_to rest.now self.old }
    {
        self.place += self.rest.len() - rest.len();
        self.rest = rest;
    }

    fn stop(&mut self, kind: FaultKind) -> WireFault
        ensures fault { result ≡ fault_at kind self.old.place }
        ensures stopped { self.new ≡ stopped_by result self.old }
    {
        let fault = kind.at(self.place);
        self.told = Some(fault);
        fault
    }
}
