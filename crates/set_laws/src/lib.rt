//! Laws of sets: what passes a test that all members pass, or all but one. It runs no code.
#![tactic(auto)]

ghost use Rattle.std.specs.Prelude.{◌≡◌, ℕ, ◌==◌, Bool, true, false, List};
ghost use Rattle.std.specs.List.{list_all};
ghost use Rattle.axis_sets.specs.Sets.{has, members_of};
ghost use Rattle.set_laws.specs.Others.{others_than};

/// A law: where all members of a set pass a test, each passes it; and where all but one pass it, each other does.
pub fn members_pass_each()
    ensures all { (s : List Bool) (test : ℕ → Bool) (m : ℕ) → list_all test (members_of s) ≡ true
        → has s m ≡ true → test m ≡ true }
    ensures others { (s : List Bool) (test : ℕ → Bool) (one m : ℕ)
        → list_all test (others_than one (members_of s)) ≡ true
        → has s m ≡ true → (m == one) ≡ false → test m ≡ true }
{}
