//! Laws of segments.

ghost use Rattle.std.specs.Prelude.{◌≡◌, ◌≢◌, ◌≤◌, ◌+◌, ◌-◌, ℕ, All, IfSome, List, Some, length, slice_get, take, unwrap_or};
ghost use Rattle.axis_sets.specs.Positions.{position_of};
ghost use Rattle.path_geometry.specs.Motions.{IsSound};
ghost use Rattle.path_geometry.specs.declared.motion.Motion.{Motion};
ghost use Rattle.sync_types.specs.Items.{left_at, motion_of};
ghost use Rattle.sync_types.specs.declared.Grant.{Grant};
ghost use Rattle.block_motions.specs.Motions.{IsMotionOf};
ghost use Rattle.sync_types.specs.declared.Item.{Item};
ghost use Rattle.sync_types.specs.declared.Action.TheVariants.{Alarm};
ghost use Rattle.fault_codes.specs.declared.alarms.TheConstants.{NO_PROGRAM_END};
ghost use Rattle.job_types.specs.Job.{JobView};
ghost use Rattle.channel_machine.specs.CallLevels.{IsAlarmedThere};
ghost use Rattle.channel_machine.specs.Scripts.{segment_after};
ghost use Rattle.channel_machine.specs.Run.{SurroundingsView, Channel, blocks_of, channel_after_grant, grant_after, segment_of, stands_after, IsListedAction};
ghost use Rattle.micro_units.specs.Position.{IsPosition};
ghost use Rattle.channel_machine.specs.declared.limits.TheConstants.{BLOCK_LIMIT};

/// A law: each motion of a segment is one of axes that the channel owns by its last grant, each once, from where the motions
/// of the segment before it left it to an end in range. It is sound where they left the axes in range.
pub fn motions_follow_one_another()
    ensures { (s : SurroundingsView) (c : Channel) (place : ℕ) (item : Item) (motion : Motion)
        → slice_get (segment_of s c).items place ≡ Some item → motion_of item ≡ Some motion
        → IsMotionOf (grant_after s c.past).axes
        (left_at (take place (segment_of s c).items) (stands_after s c.past)) motion }
{}

/// A law: the motions of a segment are sound, where the axes stand in range at its beginning.
pub fn motions_are_sound()
    ensures { (s : SurroundingsView) (c : Channel)
        → ((axis : ℕ) → IsPosition (stands_after s c.past axis))
        → All (λ item. IfSome (motion_of item) IsSound) (segment_of s c).items }
{}

/// A law: a segment does at most as many things as its channel may still execute blocks.
pub fn motions_are_few()
    ensures { (s : SurroundingsView) (c : Channel)
        → length (segment_of s c).items ≤ BLOCK_LIMIT - length (blocks_of c.past) }
{}

/// A law: an alarm that ends a segment is in the table of alarms.
pub fn alarms_are_listed()
    ensures { (s : SurroundingsView) (c : Channel) → IsListedAction (segment_of s c).step.action }
{}

/// A law: after a segment the axes stand where its motions left them, in range where they were, and its channel has the
/// grant that it had; it has executed a block at least for each thing that it did, and in all no more than it may. After a
/// grant each axis stands where the grant has it, or where it stood, and the channel has this grant.
pub fn segments_join()
    ensures stand { (s : SurroundingsView) (c : Channel) (axis : ℕ)
        → stands_after s (segment_of s c).after.past axis
        ≡ left_at (segment_of s c).items (stands_after s c.past) axis }
    ensures range { (s : SurroundingsView) (c : Channel) → ((axis : ℕ) → IsPosition (stands_after s c.past axis))
        → (axis : ℕ) → IsPosition (stands_after s (segment_of s c).after.past axis) }
    ensures owned { (s : SurroundingsView) (c : Channel)
        → grant_after s (segment_of s c).after.past ≡ grant_after s c.past }
    ensures counted { (s : SurroundingsView) (c : Channel) → length (blocks_of c.past) + length (segment_of s c).items
        ≤ length (blocks_of (segment_of s c).after.past) }
    ensures few { (s : SurroundingsView) (c : Channel) → length (blocks_of c.past) ≤ BLOCK_LIMIT
        → length (blocks_of (segment_of s c).after.past) ≤ BLOCK_LIMIT }
    ensures placed { (s : SurroundingsView) (c : Channel) (grant : Grant) (axis : ℕ)
        → stands_after s (channel_after_grant c grant).past axis
        ≡ unwrap_or (position_of grant.at axis) (stands_after s c.past axis) }
    ensures granted { (s : SurroundingsView) (c : Channel) (grant : Grant)
        → grant_after s (channel_after_grant c grant).past ≡ grant }
{}

/// A law: where an alarm ends a segment of a channel that is not alarm 9, control is on the levels that are told of it, at a
/// block on the line of the alarm.
pub fn alarms_come_on_levels()
    ensures { (job : JobView) (c : ℕ) (grants : List Grant) (code : ℕ)
        → (segment_after job c grants).step.action ≡ Alarm code → code ≢ NO_PROGRAM_END → IsAlarmedThere job c grants }
{}
