//! What is true of every set.
ghost use Rattle.std.specs.Prelude.{◌≡◌, ℕ, ◌==◌, Bool, List, length};
ghost use Rattle.std.specs.List.{list_any};
ghost use Rattle.std.specs.List.Sorted.{IsStrictlyIncreasing};
ghost use Rattle.axis_sets.specs.Sets.{has, members_of};

/// A law: two sets of one kind with the same members are one set, and the list of the members of a set
/// has each of them once, ascending.
pub fn sets_are_known_by_their_members()
    ensures same { (s t : List Bool) → length s ≡ length t → ((m : ℕ) → has s m ≡ has t m) → s ≡ t }
    ensures listed { (s : List Bool) (m : ℕ) → list_any (λ x. x == m) (members_of s) ≡ has s m }
    ensures ascending { (s : List Bool) → IsStrictlyIncreasing (members_of s) }
{}
