//! Where a job starts.
ghost use Rattle.std.specs.Prelude.{◌≡◌, ◌<◌, ◌≤◌, length, option_copied, slice_get};
ghost use Rattle.channel_machine.specs.StartStates as model;
ghost use Rattle.job_lines.specs.declared.limits.TheConstants.{PROGRAM_LIMIT};
ghost use Rattle.job_types.specs.SoundJob.{IsSoundJob};
ghost use Rattle.sync_types.specs.Starts.{IsSound};

use arrayvec::ArrayVec;
use axis_sets::{AXIS_LIMIT, AxisId, AxisSet, CHANNEL_LIMIT, ChannelId, ZONE_LIMIT, ZoneId};
use job_types::{AxisLine, ChannelLine, Job, ZoneLine};
use micro_units::Um;
use nc_blocks::NameText;
use sync_types::StartState;

/// The CHANNEL line of a channel.
fn line_of_channel(job: &Job, number: u8) -> Option<&ChannelLine>
    ensures { option_copied result ≡ model.line_of_channel job.now number }
{
    job.channels.iter().find(|line| {
        let line: &ChannelLine = line;
        line.channel.number == number
    })
}

/// The place of the program of this name among the programs of the job.
fn place_of_name(job: &Job, name: &NameText) -> Option<u16>
    requires { length job.now.programs ≤ PROGRAM_LIMIT }
    ensures { result ≡ model.place_of_name job.now name.now }
{
    match job.programs.get_index_of(name) {
        Some(place) => Some(place as u16),
        None => None,
    }
}

/// The place of the program that a CHANNEL line selects, or none where it selects none.
fn selected_place(job: &Job, line: &ChannelLine) -> Option<u16>
    requires { length job.now.programs ≤ PROGRAM_LIMIT }
    ensures { result ≡ model.selected_place job.now line.now }
{
    match &line.program {
        Some(name) => place_of_name(job, name),
        None => None,
    }
}

/// A channel, the place of its program, and whether it starts.
fn first_channel(job: &Job, line: &ChannelLine) -> (ChannelId, Option<u16>, bool)
    requires { length job.now.programs ≤ PROGRAM_LIMIT }
    ensures { result ≡ model.first_channel job.now line.now }
{
    (line.channel, selected_place(job, line), line.starts)
}

/// What stands of a channel, if the job has it.
fn channel_entry(job: &Job, number: u8) -> Option<(ChannelId, Option<u16>, bool)>
    requires { length job.now.programs ≤ PROGRAM_LIMIT }
    ensures { result ≡ model.channel_entry job.now number }
{
    match line_of_channel(job, number) {
        Some(line) => Some(first_channel(job, line)),
        None => None,
    }
}

/// The channels, in the order of their numbers.
#[tactic(auto, unfolding(crate::specs::StartStates::first_channels))]
fn first_channels(job: &Job) -> ArrayVec<(ChannelId, Option<u16>, bool), CHANNEL_LIMIT>
    requires { length job.now.programs ≤ PROGRAM_LIMIT }
    ensures { result.items ≡ model.first_channels job.now }
{
    let mut channels = ArrayVec::new();
    for index in 0..CHANNEL_LIMIT as u8 {
        if let Some(channel) = channel_entry(job, index + 1) {
            channels.push(channel);
        }
    }
    channels
}

/// The AXIS line at a place.
fn line_of_axis(job: &Job, index: u8) -> Option<AxisLine>
    ensures { result ≡ slice_get job.now.axes index }
{
    job.axes.get(usize::from(index)).copied()
}

/// What stands of an axis, if the job has it.
fn axis_entry(job: &Job, index: u8) -> Option<(AxisId, Option<ChannelId>, Um)>
    requires { index < AXIS_LIMIT }
    ensures { result ≡ model.axis_entry job.now index }
{
    match line_of_axis(job, index) {
        Some(line) => Some((AxisId { index }, line.owner, line.at)),
        None => None,
    }
}

/// The axes, in the order of their lines.
#[tactic(auto, unfolding(crate::specs::StartStates::first_axes))]
fn first_axes(job: &Job) -> ArrayVec<(AxisId, Option<ChannelId>, Um), AXIS_LIMIT>
    ensures { result.items ≡ model.first_axes job.now }
{
    let mut axes = ArrayVec::new();
    for index in 0..AXIS_LIMIT as u8 {
        if let Some(axis) = axis_entry(job, index) {
            axes.push(axis);
        }
    }
    axes
}

/// A zone, the axes that carry it, its holder, and whether it is on.
fn first_zone(zone: &ZoneLine) -> (ZoneId, AxisSet, Option<ChannelId>, bool)
    ensures { result ≡ model.first_zone zone.now }
{
    (zone.zone, zone.carriers(), zone.holder, zone.on)
}

/// What stands of a zone, if the job has it.
fn zone_entry(job: &Job, zone: ZoneId) -> Option<(ZoneId, AxisSet, Option<ChannelId>, bool)>
    ensures { result ≡ model.zone_entry job.now zone }
{
    match job.zone_line(zone) {
        Some(line) => Some(first_zone(&line)),
        None => None,
    }
}

/// The zones, in the order of their numbers.
#[tactic(auto, unfolding(crate::specs::StartStates::first_zones))]
fn first_zones(job: &Job) -> ArrayVec<(ZoneId, AxisSet, Option<ChannelId>, bool), ZONE_LIMIT>
    ensures { result.items ≡ model.first_zones job.now }
{
    let mut zones = ArrayVec::new();
    for index in 0..ZONE_LIMIT as u8 {
        if let Some(zone) = zone_entry(job, ZoneId { number: index + 1 }) {
            zones.push(zone);
        }
    }
    zones
}

/// Where a job starts: its channels, its axes and its zones, each in the order of their numbers. That of an accepted job is sound.
#[tactic(auto, unfolding(crate::specs::StartStates::start_of))]
pub fn start_state(job: &Job) -> StartState
    requires { length job.now.programs ≤ PROGRAM_LIMIT }
    ensures exact { result ≡ model.start_of job.now }
    ensures sound { IsSoundJob job.now → IsSound result }
{
    StartState {
        channels: first_channels(job),
        axes: first_axes(job),
        zones: first_zones(job),
    }
}
