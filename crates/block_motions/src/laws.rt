//! Laws of the motion of a block. The functions do nothing: their contracts are the laws.

ghost use Rattle.std.specs.Prelude.{◌≡◌, ℕ, ℤ, Bool, true, false, List, Option, Some, Ok, Err};
ghost use Rattle.fault_codes.specs.Codes.{IsAlarmCode};
ghost use Rattle.path_geometry.specs.Motions.{IsSound};
ghost use Rattle.path_geometry.specs.declared.motion.Motion.{Motion};
ghost use Rattle.block_motions.specs.Arcs.{arc_motion};
ghost use Rattle.block_motions.specs.Goals.{ConditionsView, goal_through, is_change, slot_of};
ghost use Rattle.block_motions.specs.Lengths.{IsLonger, without_tool};
ghost use Rattle.block_motions.specs.Motions.{IsMotionOf, straight_motion};
ghost use Rattle.block_motions.specs.declared.goals.Programmed.{Programmed};
ghost use Rattle.block_motions.specs.declared.goals.Targets.{Targets};
ghost use Rattle.block_motions.specs.declared.words.ArcWords.{ArcWords};

/// A law: the motion of a block by a line or as a rapid is one of axes that the channel owns, each
/// once, from where it stands to an end in range. It is sound where the axes stand in range.
pub fn motions_begin_where_axes_stand()
    ensures { (slots : List (Option ℕ)) (owned : List Bool) (h : ConditionsView) (at : ℕ → ℤ)
        (targets : Targets) (motion : Motion)
        → straight_motion slots owned h at targets ≡ Ok (Some motion)
        → IsMotionOf owned at motion }
{}

/// A law: the motion of a block with an arc is one of axes that the channel owns, each once, from
/// where it stands to an end in range, and it is sound.
pub fn arcs_begin_where_axes_stand()
    ensures begins { (slots : List (Option ℕ)) (owned : List Bool) (h : ConditionsView) (at : ℕ → ℤ)
        (targets : Targets) (words : ArcWords) (motion : Motion)
        → arc_motion slots owned h at targets words ≡ Ok (Some motion)
        → IsMotionOf owned at motion }
    ensures sound { (slots : List (Option ℕ)) (owned : List Bool) (h : ConditionsView) (at : ℕ → ℤ)
        (targets : Targets) (words : ArcWords) (motion : Motion)
        → arc_motion slots owned h at targets words ≡ Ok (Some motion)
        → IsSound motion }
{}

/// A law: an absolute end of X, Y or Z, and a centre that is given as one, is the end that the frame and the offset give, and
/// the length of the tool in its slot; it is too far exactly where one of the two is no position. A change has no length.
pub fn absolute_ends_have_the_length_of_their_slot()
    ensures ends { (h : ConditionsView) (axis : ℕ) (p : Programmed) → is_change h p.measure ≡ false
        → IsLonger (h.length (slot_of h axis)) (goal_through (without_tool h) axis p) (goal_through h axis p) }
    ensures changes { (h : ConditionsView) (axis : ℕ) (p : Programmed) → is_change h p.measure ≡ true
        → goal_through h axis p ≡ goal_through (without_tool h) axis p }
{}

/// A law: the alarm of a block's motion is in the table of alarms.
pub fn alarms_are_listed()
    ensures straight { (slots : List (Option ℕ)) (owned : List Bool) (h : ConditionsView) (at : ℕ → ℤ)
        (targets : Targets) (code : ℕ)
        → straight_motion slots owned h at targets ≡ Err code
        → IsAlarmCode code }
    ensures arc { (slots : List (Option ℕ)) (owned : List Bool) (h : ConditionsView) (at : ℕ → ℤ)
        (targets : Targets) (words : ArcWords) (code : ℕ)
        → arc_motion slots owned h at targets words ≡ Err code
        → IsAlarmCode code }
{}
