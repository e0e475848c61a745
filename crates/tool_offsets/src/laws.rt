//! Laws of shifted motions. The functions do nothing: their contracts are the laws.
ghost use Rattle.std.specs.Prelude.{◌≡◌, ◌↔◌, ℕ, ℤ, List};
ghost use Rattle.path_geometry.specs.Arcs.{arc_about};
ghost use Rattle.path_geometry.specs.Ends.{EndsView};
ghost use Rattle.path_geometry.specs.Motions.{HavePlane, IsSound};
ghost use Rattle.path_geometry.specs.Path.{Point, IsOnPath};
ghost use Rattle.path_geometry.specs.declared.motion.Motion.{Motion};
ghost use Rattle.tool_offsets.specs.Shifts as model;

/// A law: the path of a shifted motion is the path of the motion with each of its points shifted.
pub fn shifted_paths_are_paths_shifted()
    ensures { (by : List (ℕ × ℤ)) (motion : Motion) (point : Point) → IsSound motion
        → IsOnPath (model.shifted by motion) point ↔ model.IsOnShiftedPath by motion point }
{}

/// A law: the arc about a shifted centre, between shifted ends, is the shifted arc.
pub fn arcs_about_shifted_centres_are_shifted()
    ensures { (by : List (ℕ × ℤ)) (ends : EndsView) (first second : ℕ) (centre : ℤ × ℤ) → HavePlane ends first second
        → arc_about (model.shifted_ends by ends) first second (model.shifted_centre by first second centre)
        ≡ model.shifted_if_made by (arc_about ends first second centre) }
{}
