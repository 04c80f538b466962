//! What the judge's tables are asked by.
ghost use Rattle.std.specs.Prelude.{◌++◌};
ghost use Rattle.std.specs.Cmp.Rules.{hashing};
ghost use Rattle.std.specs.Hash as fed;
ghost use Rattle.std.proofs.Common.{rules};
ghost use Rattle.artery_judge.specs.Keys.{hashed_of};

use artery_base::UniqueAddress;
use std::hash::{Hash, Hasher};

/// Two incarnations: the one whose line it is, and the other.
#[derive(Clone, Copy, PartialEq, Eq)]
pub struct Pair<'a> {
    pub of: &'a UniqueAddress,
    pub other: &'a UniqueAddress,
}

/// Two incarnations, and the number of a connection of the first to the second.
#[derive(Clone, Copy, PartialEq, Eq)]
pub struct Link<'a> {
    pub of: &'a UniqueAddress,
    pub other: &'a UniqueAddress,
    pub dial: u64,
}

/// An incarnation and the id of one of its watches.
#[derive(Clone, Copy, PartialEq, Eq)]
pub struct Watch<'a> {
    pub of: &'a UniqueAddress,
    pub id: u64,
}

/// An incarnation.
#[derive(Clone, Copy, PartialEq, Eq)]
pub struct Incarnation<'a> {
    pub of: &'a UniqueAddress,
}

// Of an incarnation the UID and the host are fed: hashing the other parts of its address would take longer and tell hardly any two apart.

impl<'a> Hash for Pair<'a> {
    ghost hash_input = { λ key. hashed_of key.of.now ++ hashed_of key.other.now };

    ghost respects_eq = { Prim.search (hashing, rules) };

    fn hash<H: Hasher>(&self, state: &mut H) {
        self.of.uid.hash(state);
        self.of.address.host.hash(state);
        self.other.uid.hash(state);
        self.other.address.host.hash(state);
    }
}

impl<'a> Hash for Link<'a> {
    ghost hash_input = { λ key. (hashed_of key.of.now ++ hashed_of key.other.now) ++ fed.u64 key.dial };

    ghost respects_eq = { Prim.search (hashing, rules) };

    fn hash<H: Hasher>(&self, state: &mut H) {
        self.of.uid.hash(state);
        self.of.address.host.hash(state);
        self.other.uid.hash(state);
        self.other.address.host.hash(state);
        self.dial.hash(state);
    }
}

impl<'a> Hash for Watch<'a> {
    ghost hash_input = { λ key. hashed_of key.of.now ++ fed.u64 key.id };

    ghost respects_eq = { Prim.search (hashing, rules) };

    fn hash<H: Hasher>(&self, state: &mut H) {
        self.of.uid.hash(state);
        self.of.address.host.hash(state);
        self.id.hash(state);
    }
}

impl<'a> Hash for Incarnation<'a> {
    ghost hash_input = { λ key. hashed_of key.of.now };

    ghost respects_eq = { Prim.search (hashing, rules) };

    fn hash<H: Hasher>(&self, state: &mut H) {
        self.of.uid.hash(state);
        self.of.address.host.hash(state);
    }
}
