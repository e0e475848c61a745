//! What a coordination block finds in its job and in its channel.

use axis_sets::{AxisId, AxisSet, ChannelId, ZoneId};
use nc_blocks::NameText;

/// What a coordination block finds in its job and in its channel.
pub trait Setting {
    ghost use Rattle.std.specs.Prelude.{◌≡◌, ◌<◌, ◌≤◌, None, length, slice_index_or};
    ghost use Rattle.axis_sets.specs.declared.limits.TheConstants.{MARK_LIMIT};
    ghost use Rattle.coordination_words.specs.Programs.{number_of};
    ghost use Rattle.coordination_words.specs.Settings.{SettingView};

    /// All of it, as plain lists and look-ups.
    ghost setting: { Self → SettingView };

    /// How many marks there are.
    fn mark_count(&self) -> usize
        ensures count { result ≡ (setting self.now).marks }
        ensures few { result ≤ MARK_LIMIT };

    /// The channel.
    fn channel(&self) -> ChannelId
        ensures { result ≡ (setting self.now).channel };

    /// Whether the job has a channel.
    fn has_channel(&self, channel: ChannelId) -> bool
        ensures { result ≡ (setting self.now).has_channel channel };

    /// The number of the program of this name, the first where several have it, or `None` where there is none.
    fn number_of(&self, name: &NameText) -> Option<u16>
        ensures { result ≡ number_of (setting self.now).names name.now };

    /// The axis in a slot of the channel, 0, 1 and 2 for X, Y and Z, whoever owns it.
    fn slot_axis(&self, slot: u8) -> Option<AxisId>
        requires { slot < 3 }
        ensures { result ≡ slice_index_or (setting self.now).slots slot None };

    /// The axis with this name, in upper case, or `None` where the job has none.
    fn axis_named(&self, name: &[u8]) -> Option<AxisId>
        ensures { result ≡ (setting self.now).axis_named name.now };

    /// The axes that the channel owns.
    fn owned(&self) -> AxisSet
        ensures { result ≡ (setting self.now).owned };

    /// How many zones the job has.
    fn zone_count(&self) -> usize
        ensures { result ≡ length (setting self.now).zones };

    /// The axes that carry a zone, by its place among the zones of the job.
    fn zone_axes(&self, place: usize) -> AxisSet
        requires { place < length (setting self.now).zones }
        ensures { result ≡ slice_index_or (setting self.now).zones place result };

    /// Whether the channel holds a zone.
    fn holds(&self, zone: ZoneId) -> bool
        ensures { result ≡ (setting self.now).holds zone };
}
