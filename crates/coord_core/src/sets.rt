//! Sets of channels and of axes.
ghost use Rattle.std.specs.Prelude.{◌≡◌, ◌≤◌, ◌<◌, false, not, length};
ghost use Rattle.std.specs.List.{list_all};
ghost use Rattle.axis_sets.specs.Sets.{has, members_of};

use axis_sets::{AXIS_LIMIT, AxisSet, CHANNEL_PLACES, ChannelId, ChannelSet};

// The same channels. No set has 0, and all are of one size.
pub(crate) fn known(named: ChannelSet) -> ChannelSet
    ensures same { result ≡ named }
    ensures none { has named 0 ≡ false }
    ensures size { length named ≡ CHANNEL_PLACES }
{
    named
}

// The place of a channel among all; none has the place 0.
pub(crate) fn place_of(channel: ChannelId) -> usize
    ensures number { result ≡ channel }
    ensures some { 1 ≤ result }
    ensures within { result < CHANNEL_PLACES }
{
    usize::from(channel.number)
}

// The same axes. All sets of axes are of one size.
pub(crate) fn all_axes(axes: AxisSet) -> AxisSet
    ensures same { result ≡ axes }
    ensures size { length axes ≡ AXIS_LIMIT }
{
    axes
}

// Whether all these channels are in the set.
pub(crate) fn is_within(named: ChannelSet, set: ChannelSet) -> bool
    ensures within { result ≡ list_all (has set) (members_of named) }
    ensures none { has named 0 ≡ false }
    ensures size { length named ≡ CHANNEL_PLACES }
{
    named.minus(set).is_empty()
}

// Whether all these axes are in the set.
pub(crate) fn are_within(axes: AxisSet, set: AxisSet) -> bool
    ensures { result ≡ list_all (has set) (members_of axes) }
{
    axes.minus(set).is_empty()
}

// Whether none of these axes is in the set.
pub(crate) fn has_none(set: AxisSet, axes: AxisSet) -> bool
    ensures { result ≡ list_all (λ x. not (has set x)) (members_of axes) }
{
    axes.minus(axes.minus(set)).is_empty()
}
