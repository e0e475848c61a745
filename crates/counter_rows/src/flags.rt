//! For each number whether it is a member of a set.
ghost use Rattle.std.specs.Prelude.{◌≡◌, ℕ, length};
ghost use Rattle.axis_sets.specs.declared.limits.TheConstants.{AXIS_LIMIT, CHANNEL_PLACES};

use axis_sets::{
    AXIS_LIMIT, AxisId, AxisSet, CHANNEL_PLACES, ChannelId, ChannelSet,
    sets_are_known_by_their_members,
};

/// For each axis whether it is a member.
pub fn axis_flags(set: &AxisSet) -> [bool; AXIS_LIMIT]
    ensures members { result ≡ set.now }
    ensures size { length result ≡ AXIS_LIMIT }
{
    sets_are_known_by_their_members();
    let mut flags = [false; AXIS_LIMIT];
    if set.is_empty() {
        return flags;
    }
    for index in 0..AXIS_LIMIT as u8 {
        flags[usize::from(index)] = set.contains(AxisId { index });
    }
    flags
}

/// For each channel whether it is a member.
pub fn channel_flags(set: &ChannelSet) -> [bool; CHANNEL_PLACES]
    ensures members { result ≡ set.now }
    ensures size { length result ≡ CHANNEL_PLACES }
{
    sets_are_known_by_their_members();
    let mut flags = [false; CHANNEL_PLACES];
    if set.is_empty() {
        return flags;
    }
    for number in 1..CHANNEL_PLACES as u8 {
        flags[usize::from(number)] = set.contains(ChannelId { number });
    }
    flags
}
