//! Laws of chains of maps. The functions do nothing: their contracts are the laws.

ghost use Rattle.std.specs.Prelude.{◌≢◌, ℕ, ◌<◌, ℤ, pos, negsuc, List, [], ◌∷◌, map};
ghost use Rattle.frames.specs.declared.Plane.{Plane};
ghost use Rattle.frames.specs.Maps.{Map, Point, mapped_point, shifting, mirroring, turning, IsSamePoint, total};
ghost use Rattle.frames.specs.Images.{image_of, IsSent};

/// A law: a chain sends each axis to the slot of its image, as shift + sign · factor · value; and two
/// axes never go to one slot.
pub fn image_is_of_the_chain()
    ensures sends { (chain : List Map) (axis : ℕ) (p : Point)
        → IsSent (image_of chain axis) (p.top axis) p.under (mapped_point chain p) }
    ensures slots { (chain : List Map) (axis : ℕ) → axis < 3 → (image_of chain axis).slot < 3 }
    ensures slots_apart { (chain : List Map) (axis other : ℕ) → axis ≢ other
        → (image_of chain axis).slot ≢ (image_of chain other).slot }
{}

/// A law: shifts of one axis, one after the other, are the shift by their sum.
pub fn shifts_add_up()
    ensures { (axis : ℕ) (values : List ℤ) (p : Point)
        → IsSamePoint (mapped_point (map (shifting axis) values) p)
        (mapped_point (shifting axis (total values) ∷ []) p) }
{}

/// A law: four turns of 90 degrees are none, a turn of -90 undoes one of 90, and a mirror undoes
/// itself.
pub fn turns_and_mirrors_end()
    ensures four_turns { (plane : Plane) (p : Point) → let turn = turning plane (pos 90000000) in
        IsSamePoint (mapped_point (turn ∷ turn ∷ turn ∷ turn ∷ []) p) p }
    ensures turn_back { (plane : Plane) (p : Point)
        → IsSamePoint (mapped_point (turning plane (negsuc 89999999) ∷ turning plane (pos 90000000) ∷ []) p) p }
    ensures two_mirrors { (axis : ℕ) (p : Point)
        → IsSamePoint (mapped_point (mirroring axis ∷ mirroring axis ∷ []) p) p }
{}
