//! Names as keys of a map.
ghost use Rattle.std.specs.Prelude.{◌≡◌, ℕ, List, [], ◌∷◌, nat_eq, IfOk};
ghost use Rattle.std.specs.Cmp.Lexicographic.{pointwise, bytes_decides, lists_equiv, nat_list_eq_equiv};
ghost use Rattle.std.specs.Cmp.Rules.{comparing};
ghost use Rattle.std.proofs.Common.{rules, ap};

use artery_base::{NoMemory, Text};
use indexmap::Equivalent;
use std::hash::{Hash, Hasher};
use std::marker::Model;

/// A text of its own.
pub(crate) fn copy_of(name: &Text) -> Result<Text, NoMemory>
    ensures { IfOk result (λ copy. copy ≡ name.now) }
{
    Ok(name.clone()?)
}

/// A name that is kept as a key. Its bytes are hashed in one piece.
#[derive(Drop)]
pub(crate) struct Key {
    text: Text,
}

impl Model for Key {
    ghost Value = { List ℕ };

    ghost view = { λ k. k.text };
}

impl Key {
    pub(crate) fn new(text: Text) -> Key
        ensures { result ≡ text }
    {
        Key { text }
    }

    /// The name, borrowed.
    pub(crate) fn text(&self) -> &Text
        ensures { result.now ≡ self.now }
    {
        &self.text
    }
}

impl PartialEq for Key {
    ghost eq = { pointwise nat_eq };

    ghost laws = { Prim.search (comparing, rules) };

    fn eq(&self, other: &Key) -> bool {
        self.text == other.text
    }
}

impl Eq for Key {
    ghost laws = { Prim.search (comparing, rules) };
}

impl Hash for Key {
    ghost hash_input = { λ k. k ∷ [] };

    ghost respects_eq = { λ x y h. ap (λ bytes. bytes ∷ []) ((bytes_decides x y).0 h) };

    fn hash<H: Hasher>(&self, state: &mut H) {
        state.write(self.text.as_slice());
    }
}

/// A name that is looked up among keys, so that no text is made for it.
#[derive(Clone, Copy)]
pub(crate) struct Name<'a>(pub(crate) &'a [u8]);

impl<'a> Hash for Name<'a> {
    ghost hash_input = { λ n. n.0.now ∷ [] };

    ghost respects_eq = { λ x y h. ap (λ bytes. bytes ∷ []) ((bytes_decides x.0.now y.0.now).0 h) };

    fn hash<H: Hasher>(&self, state: &mut H) {
        state.write(self.0);
    }
}

impl<'a> PartialEq for Name<'a> {
    ghost eq = { λ x y. pointwise nat_eq x.0.now y.0.now };

    ghost laws = { Prim.search (comparing, rules) };

    fn eq(&self, other: &Name<'a>) -> bool {
        self.0 == other.0
    }
}

impl<'a> Eq for Name<'a> {
    ghost laws = { Prim.search (comparing, rules) };
}

impl<'a> Equivalent<Key> for Name<'a> {
    ghost equivalent = { λ n key. pointwise nat_eq n.0.now key };

    ghost respects_hash = { λ n key h. ap (λ bytes. bytes ∷ []) ((bytes_decides n.0.now key).0 h) };

    ghost respects_eq = { λ n x y. nat_list_eq_equiv.congr n.0.now x y };

    fn equivalent(&self, key: &Key) -> bool {
        self.0 == key.text.as_slice()
    }
}
