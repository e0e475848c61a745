//! What a block of coordination finds in the job and in its channel.

ghost use Rattle.std.specs.Prelude.{◌≡◌, ◌≤◌, ◌<◌, None, length, slice_index_or};
ghost use Rattle.block_effects.specs.Words.{values_in};
ghost use Rattle.channel_machine.specs.Coordination as model;
ghost use Rattle.job_types.specs.Axes.{is_of};
ghost use Rattle.nc_blocks.specs.Indices.{FitsValues};
ghost use Rattle.nc_blocks.specs.Statement.{statement_view};
ghost use Rattle.job_lines.specs.declared.limits.TheConstants.{PROGRAM_LIMIT};

use axis_sets::{AxisId, AxisSet, ChannelId, ZoneId};
use block_effects::{ChannelAxes, Parameters};
use coordination_words::{Request, Setting, request_of};
use job_lines::Extent;
use job_types::{Job, ZoneLine, axis_named};
use nc_blocks::{NameText, Stmt};

/// The job and the channel, as a block of coordination sees them.
#[derive(Drop)]
pub(crate) struct Coordination<'a> {
    /// The job.
    pub(crate) job: &'a Job,
    /// The channel.
    pub(crate) channel: ChannelId,
    /// The axes in its slots, and those that it owns.
    pub(crate) axes: ChannelAxes,
    ghost few: { length job.now.programs ≤ PROGRAM_LIMIT },
}

/// Whether an axis carries one of the zone's directions.
#[tactic(auto, unfolding(crate::specs::Coordination::is_carried))]
fn is_carried(zone: &ZoneLine) -> bool
    ensures { result ≡ model.is_carried zone.now }
{
    zone.sides.iter().any(|side| side.carrier.is_some())
}

/// Whether a direction stands still, or one of these axes carries it.
fn is_side_of(axes: AxisSet, carrier: Option<(AxisId, bool)>) -> bool
    ensures { result ≡ model.is_side_of axes carrier }
{
    match carrier {
        Some((axis, _)) => axes.contains(axis),
        None => true,
    }
}

/// Whether all axes of a zone are among these.
#[tactic(auto, unfolding(crate::specs::Coordination::has_all_of))]
pub(crate) fn has_all_of(axes: AxisSet, zone: &ZoneLine) -> bool
    ensures { result ≡ model.has_all_of axes zone.now }
{
    zone.sides.iter().all(|side| is_side_of(axes, side.carrier))
}

/// The axis in a slot.
fn slot_axis(axes: &ChannelAxes, slot: u8) -> Option<AxisId>
    requires { slot < 3 }
    ensures { result ≡ slice_index_or axes.now.slots slot None }
{
    axes.slots[usize::from(slot)]
}

/// Whether this is the channel.
fn is_of(channel: ChannelId, owner: Option<ChannelId>) -> bool
    ensures { result ≡ is_of channel owner }
{
    match owner {
        Some(owner) => owner == channel,
        None => false,
    }
}

/// Whether a channel that owns these axes holds the zone.
#[tactic(auto, unfolding(crate::specs::Coordination::is_held))]
fn is_held(channel: ChannelId, axes: AxisSet, zone: &ZoneLine) -> bool
    ensures { result ≡ model.is_held channel axes zone.now }
{
    if is_carried(zone) {
        has_all_of(axes, zone)
    } else {
        is_of(channel, zone.holder)
    }
}

/// Whether it holds the zone of this number.
#[tactic(auto, unfolding(crate::specs::Coordination::holds_zone))]
fn holds_zone(channel: ChannelId, zones: &[ZoneLine], axes: AxisSet, number: ZoneId) -> bool
    ensures { result ≡ model.holds_zone channel zones.now axes number }
{
    zones
        .iter()
        .any(|zone| zone.zone == number && is_held(channel, axes, zone))
}

impl<'a> Setting for Coordination<'a> {
    ghost setting = { λ c. model.setting_in c.job.now c.channel c.axes.slots c.axes.owned };

    fn mark_count(&self) -> usize {
        let job = self.job;
        Extent::of(job.version).marks
    }

    fn channel(&self) -> ChannelId {
        self.channel
    }

    fn has_channel(&self, channel: ChannelId) -> bool {
        let job = self.job;
        job.has_channel(channel)
    }

    fn number_of(&self, name: &NameText) -> Option<u16> {
        let job = self.job;
        match job.programs.get_index_of(name) {
            Some(number) => Some(number as u16),
            None => None,
        }
    }

    fn slot_axis(&self, slot: u8) -> Option<AxisId> {
        slot_axis(&self.axes, slot)
    }

    fn axis_named(&self, name: &[u8]) -> Option<AxisId> {
        let job = self.job;
        axis_named(job.axes.as_slice(), name)
    }

    fn owned(&self) -> AxisSet {
        self.axes.owned
    }

    fn zone_count(&self) -> usize {
        let job = self.job;
        job.zones.len()
    }

    fn zone_axes(&self, place: usize) -> AxisSet {
        let job = self.job;
        job.zones[place].carriers()
    }

    fn holds(&self, zone: ZoneId) -> bool {
        let job = self.job;
        holds_zone(self.channel, job.zones.as_slice(), self.axes.owned, zone)
    }
}

/// What a block asks for, where it is one of coordination.
///
/// The alarms are those of its arguments.
#[tactic(auto, unfolding(crate::specs::Coordination::request_in))]
pub(crate) fn request_in(
    job: &Job,
    channel: ChannelId,
    axes: &ChannelAxes,
    parameters: &Parameters,
    stmt: &Stmt,
) -> Result<Option<Request>, u16>
    requires programs { length job.now.programs ≤ PROGRAM_LIMIT }
    requires fits { FitsValues (values_in parameters.now) (statement_view stmt.now) }
    ensures { result ≡ model.request_in (model.setting_in job.now channel axes.now.slots axes.now.owned)
        (values_in parameters.now) (statement_view stmt.now) }
{
    match stmt {
        Stmt::Coord(word, operands) => {
            let axes = *axes;
            let setting = Coordination { job, channel, axes };
            let request = request_of(*word, operands.as_slice(), &setting, parameters)?;
            Ok(Some(request))
        }
        _ => Ok(None),
    }
}
