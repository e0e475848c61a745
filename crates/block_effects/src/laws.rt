//! Laws of blocks. The functions do nothing: their contracts are the laws.

ghost use Rattle.std.specs.Prelude.{◌≡◌, ℕ, Option, Some, Ok, Err};
ghost use Rattle.block_motions.specs.Motions.{IsMotionOf};
ghost use Rattle.path_geometry.specs.declared.motion.Motion.{Motion};
ghost use Rattle.nc_blocks.specs.Statement.{Statement};
ghost use Rattle.fault_codes.specs.Codes.{IsAlarmCode};
ghost use Rattle.sync_types.specs.declared.Item.{Item};
ghost use Rattle.sync_types.specs.Items.{motion_of};
ghost use Rattle.block_effects.specs.Effects.{Effect, SituationView, effect_of};
ghost use Rattle.block_effects.specs.Words.{SetupView};

/// A law: the motion of a block is one of axes that the channel owns, each once, from where it stands
/// to an end in range. It is sound where the axes stand in range.
pub fn motions_begin_where_axes_stand()
    ensures { (equipment : SetupView) (found : SituationView) (line : ℕ) (opener statement : Statement)
        (effect : Effect) (item : Item) (motion : Motion)
        → effect_of equipment found line opener statement ≡ Ok effect
        → effect.item ≡ Some item
        → motion_of item ≡ Some motion
        → IsMotionOf equipment.owned found.at motion }
{}

/// A law: the alarm of a block is in the table of alarms.
pub fn alarms_are_listed()
    ensures { (equipment : SetupView) (found : SituationView) (line : ℕ) (opener statement : Statement) (code : ℕ)
        → effect_of equipment found line opener statement ≡ Err code
        → IsAlarmCode code }
{}
