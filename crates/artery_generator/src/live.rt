ghost use Rattle.std.specs.Prelude.{◌≡◌};
ghost use Rattle.artery_generator.specs.Places.{first_live, uid_at, with_uid};

use crate::place::Place;

/// The UIDs of the incarnations that live at the three places.
#[derive(Clone, Copy, Debug, PartialEq, Eq)]
pub struct Live {
    pub a: u64,
    pub b: u64,
    pub c: u64,
}

impl Live {
    /// The UIDs that start first.
    pub(crate) fn first() -> Live
        ensures { result ≡ first_live }
    {
        Live { a: 1, b: 2, c: 3 }
    }

    /// The UID that lives at a place.
    pub(crate) fn at(&self, place: Place) -> u64
        ensures { result ≡ uid_at place self.now }
    {
        match place {
            Place::A => self.a,
            Place::B => self.b,
            Place::C => self.c,
        }
    }

    /// Another incarnation lives at a place.
    pub(crate) fn set(&mut self, place: Place, uid: u64)
        ensures { self.new ≡ with_uid place uid self.old }
    {
        match place {
            Place::A => self.a = uid,
            Place::B => self.b = uid,
            Place::C => self.c = uid,
        }
    }
}
