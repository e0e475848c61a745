//! Who owns each axis.
ghost use Rattle.std.specs.Prelude.{◌≡◌, ℕ, ◌<◌, ◌==◌, None, find, if◌then◌else◌, length, slice_index_or};
ghost use Rattle.std.specs.Option.{option_map_or};
ghost use Rattle.axis_sets.specs.Sets.{has};
ghost use Rattle.axis_sets.specs.declared.limits.TheConstants.{AXIS_LIMIT};
ghost use Rattle.sync_types.specs.Starts.{first_owner};

use axis_sets::{AXIS_LIMIT, AxisId, AxisSet, ChannelId};
use micro_units::Um;
use sync_types::StartState;

/// The owner of each axis, by its number; none where it is free.
pub(crate) type Owners = [Option<ChannelId>; AXIS_LIMIT];

/// The owner of an axis in the first line that has it.
fn owner_in(lines: &[(AxisId, Option<ChannelId>, Um)], axis: AxisId) -> Option<ChannelId>
    ensures { result ≡ option_map_or (λ line. line.1) (find (λ line. line.0 == axis) lines.now) None }
{
    for line in lines {
        if line.0 == axis {
            return line.1;
        }
    }
    None
}

/// The owner of an axis at the start.
fn owner_at_first(start: &StartState, axis: AxisId) -> Option<ChannelId>
    ensures { result ≡ first_owner start.now axis }
{
    owner_in(start.axes.as_slice(), axis)
}

/// The owners of all axes at the start.
pub(crate) fn first_owners(start: &StartState) -> Owners
    ensures { (x : ℕ) → x < AXIS_LIMIT → slice_index_or result x None ≡ first_owner start.now x }
{
    let mut owners = [None; AXIS_LIMIT];
    for index in 0..AXIS_LIMIT {
        owners[index] = owner_at_first(start, AxisId { index: index as u8 });
    }
    owners
}

/// Gives these axes to a channel, or to nobody.
pub(crate) fn give(owners: &mut Owners, axes: &AxisSet, owner: &Option<ChannelId>)
    ensures { (x : ℕ) → x < AXIS_LIMIT → slice_index_or owners.new x None
        ≡ (if has axes.now x then owner.now else slice_index_or owners.old x None) }
{
    for index in 0..AXIS_LIMIT {
        if axes.contains(AxisId { index: index as u8 }) {
            owners[index] = *owner;
        }
    }
}
