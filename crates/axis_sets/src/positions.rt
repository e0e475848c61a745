//! Where axes stand.
ghost use Rattle.std.specs.Prelude.{◌≡◌, ℕ, ◌==◌, if◌then◌else◌, length};
ghost use Rattle.axis_sets.specs.Positions.{position_of};

use crate::places::Places;
use crate::{AXIS_LIMIT, AxisId};
use micro_units::Um;
use std::marker::Model;

/// Positions of some axes in micrometres. A contract sees for each axis by its number its position, or none.
#[derive(Clone, Copy)]
pub struct Positions {
    known: Places<AXIS_LIMIT>,
    at: [Um; AXIS_LIMIT],
}

impl Model for Positions {
    ghost use Rattle.std.specs.Prelude.{ℤ, List, Option};
    ghost use Rattle.axis_sets.specs.Kept.{where_known, known_in, numbers_in, known_in-where_known, numbers_in-where_known, IsKept};

    ghost Value = { List (Option ℤ) };

    ghost view = { λ p. where_known p.known p.at };

    ghost invariant = { λ p. IsKept p.known p.at };

    ghost inverse = { λ positions. record { known = known_in positions; at = numbers_in positions } };

    ghost inverse_ok = { λ p h i. record {
      known = known_in-where_known p.known p.at h.size i;
      at = numbers_in-where_known p.known p.at h.size h.zero_elsewhere i;
    } };
}

impl PartialEq for Positions {
    ghost use Rattle.std.specs.Cmp.{int_eq_equiv, partial_equiv_from_equiv};
    ghost use Rattle.std.specs.Cmp.Lexicographic.{pointwise, lists_per, options_equiv};
    ghost use Rattle.std.specs.Option.{option_eq};
    ghost use Rattle.std.specs.Ordering.{int_eq};

    ghost eq = { pointwise (option_eq int_eq) };

    ghost laws = { lists_per (partial_equiv_from_equiv (options_equiv int_eq_equiv)) };

    fn eq(&self, other: &Positions) -> bool {
        self.known == other.known && self.at == other.at
    }
}

impl Eq for Positions {
    ghost use Rattle.std.specs.Cmp.{int_eq_equiv};
    ghost use Rattle.std.specs.Cmp.Lexicographic.{lists_equiv, options_equiv};

    ghost laws = { lists_equiv (options_equiv int_eq_equiv) };
}

impl Default for Positions {
    ghost use Rattle.std.specs.Prelude.{◌≡◌, ℕ, None, length};
    ghost use Rattle.axis_sets.specs.Positions.{position_of};
    ghost use Rattle.axis_sets.specs.declared.limits.TheConstants.{AXIS_LIMIT};

    ghost is_default = { λ p. ((axis : ℕ) → position_of p axis ≡ None) × (length p ≡ AXIS_LIMIT) };

    fn default() -> Positions {
        Positions::empty()
    }
}

impl Positions {
    /// The positions of no axis.
    pub fn empty() -> Positions
        ensures none { (axis : ℕ) → position_of result axis ≡ None }
        ensures size { length result ≡ AXIS_LIMIT }
    {
        Positions {
            known: Places::empty(),
            at: [Um { micrometres: 0 }; AXIS_LIMIT],
        }
    }

    /// The position of an axis, or `None` where it has none.
    pub fn get(&self, axis: AxisId) -> Option<Um>
        ensures position { result ≡ position_of self.now axis }
        ensures size { length self.now ≡ AXIS_LIMIT }
    {
        let place = usize::from(axis.index);
        if self.known.contains(place) {
            Some(self.at[place])
        } else {
            None
        }
    }

    /// Puts an axis at a position, whether or not it had one.
    pub fn set(&mut self, axis: AxisId, at: Um)
        ensures positions { (a : ℕ) → position_of self.new a ≡ (if a == axis then Some at else position_of self.old a) }
        ensures size { length self.new ≡ AXIS_LIMIT }
    {
        let place = usize::from(axis.index);
        self.known = self.known.with(place);
        self.at[place] = at;
    }

    /// Takes the position of an axis away, if it had one.
    pub fn remove(&mut self, axis: AxisId)
        ensures positions { (a : ℕ) → position_of self.new a ≡ (if a == axis then None else position_of self.old a) }
        ensures size { length self.new ≡ AXIS_LIMIT }
    {
        let place = usize::from(axis.index);
        self.known = self.known.without(place);
        self.at[place] = Um { micrometres: 0 };
    }
}
