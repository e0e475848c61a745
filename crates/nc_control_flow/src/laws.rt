//! A law of structures. The function does nothing: its contract is the law.

ghost use Rattle.std.specs.Prelude.{◌≡◌, ℕ, List, IsSome};
ghost use Rattle.nc_blocks.specs.Statement.{BlockView};
ghost use Rattle.nc_control_flow.specs.declared.parts.Part.TheVariants.{Opens, Branches, Closes};
ghost use Rattle.nc_control_flow.specs.declared.parts.Sought.TheVariants.{End, Branch, Opener};
ghost use Rattle.nc_control_flow.specs.Parts.{part_of, parts, statement_at};
ghost use Rattle.nc_control_flow.specs.Places.{those_after, those_before};
ghost use Rattle.nc_control_flow.specs.Matching.{matching};
ghost use Rattle.nc_control_flow.specs.Nested.{IsNested, blocks_of};

/// A law: in a program whose structures match, each one that begins has its end, and what a branch of
/// it searches for; each ELSE has its end; and each one that ends has its beginning. So no search of
/// such a program comes back without a place.
pub fn structures_are_found()
    ensures ends { (lines : List (ℕ × BlockView)) (pc : ℕ) → IsNested lines
        → part_of (statement_at pc (blocks_of lines)) ≡ Opens
        → IsSome (matching End 0 (those_after pc (parts (blocks_of lines)))) }
    ensures branches { (lines : List (ℕ × BlockView)) (pc : ℕ) → IsNested lines
        → part_of (statement_at pc (blocks_of lines)) ≡ Opens
        → IsSome (matching Branch 0 (those_after pc (parts (blocks_of lines)))) }
    ensures after_else { (lines : List (ℕ × BlockView)) (pc : ℕ) → IsNested lines
        → part_of (statement_at pc (blocks_of lines)) ≡ Branches
        → IsSome (matching End 0 (those_after pc (parts (blocks_of lines)))) }
    ensures openers { (lines : List (ℕ × BlockView)) (pc : ℕ) → IsNested lines
        → part_of (statement_at pc (blocks_of lines)) ≡ Closes
        → IsSome (matching Opener 0 (those_before pc (parts (blocks_of lines)))) }
{}
