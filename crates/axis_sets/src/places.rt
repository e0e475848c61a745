//! Sets of small numbers.
ghost use Rattle.std.specs.Prelude.{◌≡◌, ℕ, ◌<◌, ◌≤◌, ◌==◌, ◌||◌, ◌&&◌, ◌↔◌, not, false, length, IsTrue, IfSome};
ghost use Rattle.axis_sets.specs.Sets.{has, IsEmpty, GivesLowest};
ghost use Rattle.axis_sets.specs.declared.limits.TheConstants.{WORD_BITS};

use std::marker::Model;

/// A set of numbers below `N`, a bit for each. A contract sees for each of them whether it is a member.
#[derive(Clone, Copy)]
pub(crate) struct Places<const N: usize> {
    word: u64,
}

impl<const N: usize> Model for Places<N> {
    ghost use Rattle.std.specs.Prelude.{Bool, List, ℕ, ◌<◌, ◌≤◌, ◌^◌};
    ghost use Rattle.axis_sets.specs.Words.{bits_of, word_of, word_of-bits_of};
    ghost use Rattle.axis_sets.specs.declared.limits.TheConstants.{WORD_BITS};

    ghost Value = { List Bool };

    ghost view = { λ s. bits_of N s.word };

    ghost invariant = { λ s. (s.word < 2 ^ N) × (N ≤ WORD_BITS) };

    ghost inverse = { λ set. record { word = word_of set } };

    ghost inverse_ok = { λ s h i. record { word = word_of-bits_of N s.word h.0 i } };
}

impl<const N: usize> PartialEq for Places<N> {
    ghost use Rattle.std.proofs.Math.Bool.{beq};
    ghost use Rattle.std.specs.Cmp.{bool_eq_equiv, partial_equiv_from_equiv};
    ghost use Rattle.std.specs.Cmp.Lexicographic.{pointwise, lists_per};

    ghost eq = { pointwise beq };

    ghost laws = { lists_per (partial_equiv_from_equiv bool_eq_equiv) };

    fn eq(&self, other: &Places<N>) -> bool {
        self.word == other.word
    }
}

impl<const N: usize> Eq for Places<N> {
    ghost use Rattle.std.specs.Cmp.{bool_eq_equiv};
    ghost use Rattle.std.specs.Cmp.Lexicographic.{lists_equiv};

    ghost laws = { lists_equiv bool_eq_equiv };
}

impl<const N: usize> Places<N> {
    pub(crate) fn empty() -> Places<N>
        requires { N ≤ WORD_BITS }
        ensures members { IsEmpty result }
        ensures size { length result ≡ N }
    {
        Places { word: 0 }
    }

    pub(crate) fn contains(&self, place: usize) -> bool
        ensures member { result ≡ has self.now place }
        ensures size { length self.now ≡ N }
    {
        place < N && self.word >> place & 1 == 1
    }

    pub(crate) fn with(self, place: usize) -> Places<N>
        requires { place < N }
        ensures members { (m : ℕ) → has result m ≡ ((m == place) || has self.entry m) }
        ensures size { length result ≡ N }
    {
        Places {
            word: self.word | 1 << place,
        }
    }

    pub(crate) fn without(self, place: usize) -> Places<N>
        ensures members { (m : ℕ) → has result m ≡ (has self.entry m && not (m == place)) }
        ensures size { length result ≡ N }
    {
        if place < N {
            Places {
                word: self.word & !(1 << place),
            }
        } else {
            self
        }
    }

    pub(crate) fn union(self, other: Places<N>) -> Places<N>
        ensures members { (m : ℕ) → has result m ≡ (has self.entry m || has other.entry m) }
        ensures size { length result ≡ N }
    {
        Places {
            word: self.word | other.word,
        }
    }

    pub(crate) fn minus(self, other: Places<N>) -> Places<N>
        ensures members { (m : ℕ) → has result m ≡ (has self.entry m && not (has other.entry m)) }
        ensures size { length result ≡ N }
    {
        Places {
            word: self.word & !other.word,
        }
    }

    pub(crate) fn is_empty(&self) -> bool
        ensures empty { IsTrue result ↔ IsEmpty self.now }
        ensures size { length self.now ≡ N }
    {
        self.word == 0
    }

    pub(crate) fn lowest(&self) -> Option<usize>
        ensures lowest { GivesLowest self.now result }
        ensures below { IfSome result (λ place. place < N) }
        ensures size { length self.now ≡ N }
    {
        if self.word == 0 {
            None
        } else {
            Some(self.word.trailing_zeros() as usize)
        }
    }
}
