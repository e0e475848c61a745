//! Laws of whole numbers and of fractions, which proofs in other crates import. No code runs here.
//!
//! A fraction is a whole number over a natural number above 0. The public functions do nothing: their contracts are the laws.
#![tactic(auto)]

ghost use Rattle.std.specs.Prelude.{ℤ, ◌<◌, ◌⊎◌, ◌≤ℤ◌};
ghost use Rattle.number_laws.specs.Floors.{floor_div, ceil_div};
ghost use Rattle.number_laws.specs.Fractions.{Fraction, IsAtMost, IsIn, IsSame, whole};

/// Rounding down gives the greatest whole number that is at most the fraction, and rounding up the least that is at least it.
pub fn rounding_is_tight()
    ensures floor_at_most { (p : Fraction) → 0 < p.under → IsAtMost (whole (floor_div p.top p.under)) p }
    ensures floor_greatest { (n : ℤ) (p : Fraction) → 0 < p.under → IsAtMost (whole n) p
        → n ≤ℤ floor_div p.top p.under }
    ensures ceil_at_least { (p : Fraction) → 0 < p.under → IsAtMost p (whole (ceil_div p.top p.under)) }
    ensures ceil_least { (n : ℤ) (p : Fraction) → 0 < p.under → IsAtMost p (whole n)
        → ceil_div p.top p.under ≤ℤ n }
{}

/// Fractions are in one order, whatever the numbers under them are.
pub fn fractions_are_ordered()
    ensures reflexive { (p : Fraction) → IsAtMost p p }
    ensures transitive { (p q r : Fraction) → 0 < q.under → IsAtMost p q → IsAtMost q r → IsAtMost p r }
    ensures antisymmetric { (p q : Fraction) → IsAtMost p q → IsAtMost q p → IsSame p q }
    ensures total { (p q : Fraction) → IsAtMost p q ⊎ IsAtMost q p }
{}

/// Whole bounds hold a fraction however it is written, and whole bounds that a row of fractions leads between are in order.
pub fn whole_bounds_hold_fractions()
    ensures same { (low high : ℤ) (p q : Fraction) → 0 < p.under → IsSame p q → IsIn low high p.top p.under
        → IsIn low high q.top q.under }
    ensures through { (low high : ℤ) (p q : Fraction) → 0 < p.under → 0 < q.under
        → IsAtMost (whole low) p → IsAtMost p q → IsAtMost q (whole high) → low ≤ℤ high }
{}
