//! Sets of marks, of which there are more than a word has places.
ghost use Rattle.std.specs.Prelude.{◌≡◌, ℕ, ◌<◌, ◌==◌, ◌||◌, ◌&&◌, ◌↔◌, not, length, IsTrue};
ghost use Rattle.axis_sets.specs.Sets.{has, IsEmpty, GivesLowest};
ghost use Rattle.axis_sets.specs.declared.limits.TheConstants.{MARK_LIMIT};

use crate::limits::{MARK_HALF, MARK_LIMIT};
use crate::places::Places;
use std::marker::Model;

/// A set of marks, which are numbers below `MARK_LIMIT`. A contract sees for each of these numbers whether it is a member.
#[derive(Clone, Copy)]
pub struct MarkSet {
    low: Places<MARK_HALF>,
    high: Places<MARK_HALF>,
}

impl Model for MarkSet {
    ghost use Rattle.std.specs.Prelude.{Bool, List, length, ◌≡◌, ◌++◌, take, drop};
    ghost use Rattle.axis_sets.specs.Halves.{back_half, front_half};
    ghost use Rattle.axis_sets.specs.declared.limits.TheConstants.{MARK_HALF};

    ghost Value = { List Bool };

    ghost view = { λ s. s.low ++ s.high };

    ghost invariant = { λ s. (length s.low ≡ MARK_HALF) × (length s.high ≡ MARK_HALF) };

    ghost inverse = { λ set. record { low = take MARK_HALF set; high = drop MARK_HALF set } };

    ghost inverse_ok = { λ s h i. record {
      low = front_half MARK_HALF s.low s.high h.0 i;
      high = back_half MARK_HALF s.low s.high h.0 i;
    } };
}

impl PartialEq for MarkSet {
    ghost use Rattle.std.proofs.Math.Bool.{beq};
    ghost use Rattle.std.specs.Cmp.{bool_eq_equiv, partial_equiv_from_equiv};
    ghost use Rattle.std.specs.Cmp.Lexicographic.{pointwise, lists_per};

    ghost eq = { pointwise beq };

    ghost laws = { lists_per (partial_equiv_from_equiv bool_eq_equiv) };

    fn eq(&self, other: &MarkSet) -> bool {
        self.low == other.low && self.high == other.high
    }
}

impl Eq for MarkSet {
    ghost use Rattle.std.specs.Cmp.{bool_eq_equiv};
    ghost use Rattle.std.specs.Cmp.Lexicographic.{lists_equiv};

    ghost laws = { lists_equiv bool_eq_equiv };
}

impl Default for MarkSet {
    ghost use Rattle.std.specs.Prelude.{◌≡◌, length};
    ghost use Rattle.axis_sets.specs.Sets.{IsEmpty};
    ghost use Rattle.axis_sets.specs.declared.limits.TheConstants.{MARK_LIMIT};

    ghost is_default = { λ set. IsEmpty set × (length set ≡ MARK_LIMIT) };

    fn default() -> MarkSet {
        MarkSet::empty()
    }
}

impl MarkSet {
    /// The set with no member.
    pub fn empty() -> MarkSet
        ensures members { IsEmpty result }
        ensures size { length result ≡ MARK_LIMIT }
    {
        MarkSet {
            low: Places::empty(),
            high: Places::empty(),
        }
    }

    /// Whether this mark is a member.
    pub fn contains(&self, mark: u8) -> bool
        ensures member { result ≡ has self.now mark }
        ensures size { length self.now ≡ MARK_LIMIT }
    {
        let place = usize::from(mark);
        if place < MARK_HALF {
            self.low.contains(place)
        } else {
            self.high.contains(place - MARK_HALF)
        }
    }

    /// The set with this mark too.
    pub fn with(self, mark: u8) -> MarkSet
        requires { mark < MARK_LIMIT }
        ensures members { (m : ℕ) → has result m ≡ ((m == mark) || has self m) }
        ensures size { length result ≡ MARK_LIMIT }
    {
        let place = usize::from(mark);
        if place < MARK_HALF {
            MarkSet {
                low: self.low.with(place),
                high: self.high,
            }
        } else {
            MarkSet {
                low: self.low,
                high: self.high.with(place - MARK_HALF),
            }
        }
    }

    /// The set without this mark.
    pub fn without(self, mark: u8) -> MarkSet
        ensures members { (m : ℕ) → has result m ≡ (has self m && not (m == mark)) }
        ensures size { length result ≡ MARK_LIMIT }
    {
        let place = usize::from(mark);
        if place < MARK_HALF {
            MarkSet {
                low: self.low.without(place),
                high: self.high,
            }
        } else {
            MarkSet {
                low: self.low,
                high: self.high.without(place - MARK_HALF),
            }
        }
    }

    /// The marks of either set.
    pub fn union(self, other: MarkSet) -> MarkSet
        ensures members { (m : ℕ) → has result m ≡ (has self m || has other m) }
        ensures size { length result ≡ MARK_LIMIT }
    {
        MarkSet {
            low: self.low.union(other.low),
            high: self.high.union(other.high),
        }
    }

    /// The marks that the other set does not have.
    pub fn minus(self, other: MarkSet) -> MarkSet
        ensures members { (m : ℕ) → has result m ≡ (has self m && not (has other m)) }
        ensures size { length result ≡ MARK_LIMIT }
    {
        MarkSet {
            low: self.low.minus(other.low),
            high: self.high.minus(other.high),
        }
    }

    /// Whether there is no member.
    pub fn is_empty(&self) -> bool
        ensures empty { IsTrue result ↔ IsEmpty self.now }
        ensures size { length self.now ≡ MARK_LIMIT }
    {
        self.low.is_empty() && self.high.is_empty()
    }

    /// The mark with the lowest number.
    pub fn lowest(&self) -> Option<u8>
        ensures lowest { GivesLowest self.now result }
        ensures size { length self.now ≡ MARK_LIMIT }
    {
        match self.low.lowest() {
            Some(place) => Some(place as u8),
            None => match self.high.lowest() {
                Some(place) => Some((MARK_HALF + place) as u8),
                None => None,
            },
        }
    }
}
