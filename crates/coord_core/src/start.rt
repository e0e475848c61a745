//! The state of a board before the first step.
ghost use Rattle.std.specs.Prelude.{◌≡◌, ℕ, ◌<◌, ◌≤◌, ◌==◌, List, map, find, length, pos, false, true, is_some, None, slice_index_or};
ghost use Rattle.std.specs.Option.{option_map_or};
ghost use Rattle.axis_exchange.specs.Owners.{axis_state};
ghost use Rattle.std.specs.List.{list_any};
ghost use Rattle.axis_sets.specs.Sets.{has};
ghost use Rattle.axis_sets.specs.declared.limits.TheConstants.{AXIS_LIMIT, CHANNEL_PLACES};
ghost use Rattle.sync_types.specs.Boards.{board_at_rest, first_board, ownership_of};
ghost use Rattle.sync_types.specs.Starts.{first_owner, first_position, first_program, IsSound};
ghost use Rattle.coord_core.specs.Tables.{board_in, state_in, activity_at, ownership_in, zone_at_start, IsTable};
ghost use Rattle.coord_core.specs.declared.activities.Activity.{Activity};

use crate::activities::{Activities, Activity, running, set_activity};
use crate::alarms::{ChannelLine, ZoneLine, axes_of, channels_of};
use crate::state::State;
use crate::table::{AxisLine, LastPositions, Table, first_position};
use crate::zones::{ZoneState, Zones};
use arrayvec::ArrayVec;
use axis_exchange::Owners;
use axis_sets::{AXIS_LIMIT, AxisId, CHANNEL_PLACES, ChannelId, ChannelSet, ZONE_LIMIT};
use mark_board::Marks;
use micro_units::Um;
use sync_types::StartState;

// The channel that owns an axis at the start, or none where it is free.
fn first_owner(lines: &[AxisLine], axis: AxisId) -> Option<ChannelId>
    ensures { result ≡ option_map_or (λ line. line.1) (find (λ line. line.0 == axis) lines.now) None }
{
    for line in lines {
        if line.0 == axis {
            return line.1;
        }
    }
    None
}

// The program of a channel at the start.
fn first_program(lines: &[ChannelLine], channel: ChannelId) -> Option<u16>
    ensures { result ≡ option_map_or (λ line. line.1) (find (λ line. line.0 == channel) lines.now) None }
{
    for line in lines {
        if line.0 == channel {
            return line.1;
        }
    }
    None
}

// Whether a channel runs at the start.
fn runs_at_first(lines: &[ChannelLine], channel: ChannelId) -> bool
    ensures { result ≡ option_map_or (λ line. line.2) (find (λ line. line.0 == channel) lines.now) false }
{
    for line in lines {
        if line.0 == channel {
            return line.2;
        }
    }
    false
}

// The same lines.
fn copies<T: Copy + Default, const N: usize>(lines: &[T]) -> ArrayVec<T, N>
    requires { length lines.now ≤ N }
    ensures { result.items ≡ lines.now }
{
    let mut kept = ArrayVec::new();
    for line in lines {
        kept.push(*line);
    }
    kept
}

// The owners of all axes; one that the job has not is free at 0.
fn first_owners(lines: &[AxisLine]) -> Owners
    ensures owners { (x : ℕ) → ownership_in (axis_state result x) ≡ ownership_of
        (option_map_or (λ line. line.1) (find (λ line. line.0 == x) lines.now) None)
        (option_map_or (λ line. line.2) (find (λ line. line.0 == x) lines.now) (pos 0)) }
    ensures all { (x : ℕ) → x < AXIS_LIMIT → is_some (axis_state result x) ≡ true }
{
    let _known = axes_of(lines);
    let mut all = [(AxisId { index: 0 }, None, Um { micrometres: 0 }); AXIS_LIMIT];
    for index in 0..AXIS_LIMIT {
        let axis = AxisId { index: index as u8 };
        all[index] = (axis, first_owner(lines, axis), first_position(lines, axis));
    }
    Owners::new(&all)
}

// The program of each channel.
fn first_programs(lines: &[ChannelLine]) -> [Option<u16>; CHANNEL_PLACES]
    ensures { (c : ℕ) → slice_index_or result c None
        ≡ option_map_or (λ line. line.1) (find (λ line. line.0 == c) lines.now) None }
{
    let _known = channels_of(lines);
    let mut programs = [None; CHANNEL_PLACES];
    for number in 1..CHANNEL_PLACES {
        let channel = ChannelId {
            number: number as u8,
        };
        programs[number] = first_program(lines, channel);
    }
    programs
}

// The zones.
fn first_zones(lines: &[ZoneLine]) -> Zones
    requires { length lines.now ≤ ZONE_LIMIT }
    ensures { result.items ≡ map zone_at_start lines.now }
{
    let mut zones = ArrayVec::new();
    for (zone, axes, holder, on) in lines {
        zones.push(ZoneState {
            zone: *zone,
            axes: *axes,
            holder: *holder,
            on: *on,
        });
    }
    zones
}

// What each channel does.
fn first_activities(table: &Table, lines: &[ChannelLine]) -> Activities
    requires kept { IsTable table.now }
    requires lines { table.now.start.channels ≡ lines.now }
    requires rest { (channels : List Activity) → board_in table.now channels
        ≡ record (board_at_rest table.now.start) { state = λ c. state_in c (activity_at channels c) } }
    ensures { (c : ℕ) → state_in c (activity_at result c) ≡ (first_board table.now.start).state c }
{
    let _known = channels_of(lines);
    let mut channels = [Activity::Idle; CHANNEL_PLACES];
    for number in 1..CHANNEL_PLACES {
        let channel = ChannelId {
            number: number as u8,
        };
        if runs_at_first(lines, channel) {
            let grant = table.start_grant(channel);
            set_activity(&mut channels, channel, running(&grant));
        }
    }
    channels
}

// The channels of the machine.
fn channels_at_first(start: &StartState) -> ChannelSet
    ensures members { (c : ℕ) → has result c ≡ list_any (λ line. line.0 == c) start.now.channels }
    ensures none { has result 0 ≡ false }
    ensures size { length result ≡ CHANNEL_PLACES }
{
    channels_of(start.channels.as_slice())
}

// No channel has made a step.
fn no_positions() -> LastPositions
    ensures { (c : ℕ) → slice_index_or result c None ≡ None }
{
    [None; CHANNEL_PLACES]
}

// The same start state.
fn copy_of(start: &StartState) -> StartState
    ensures { result ≡ start.now }
{
    StartState {
        channels: copies(start.channels.as_slice()),
        axes: copies(start.axes.as_slice()),
        zones: copies(start.zones.as_slice()),
    }
}

// The owners of all axes at the start.
fn owners_at_first(start: &StartState) -> Owners
    ensures owners { (x : ℕ) → ownership_in (axis_state result x)
        ≡ ownership_of (first_owner start.now x) (first_position start.now x) }
    ensures all { (x : ℕ) → x < AXIS_LIMIT → is_some (axis_state result x) ≡ true }
{
    first_owners(start.axes.as_slice())
}

// The program of each channel at the start.
fn programs_at_first(start: &StartState) -> [Option<u16>; CHANNEL_PLACES]
    ensures { (c : ℕ) → slice_index_or result c None ≡ first_program start.now c }
{
    first_programs(start.channels.as_slice())
}

// The zones at the start.
fn zones_at_first(start: &StartState) -> Zones
    ensures { result.items ≡ map zone_at_start start.now.zones }
{
    first_zones(start.zones.as_slice())
}

impl Table {
    // All but what the channels do.
    fn new(start: &StartState) -> Table
        requires sound { IsSound start.now }
        ensures kept { IsTable result }
        ensures start { result.start ≡ start.now }
        ensures board { (channels : List Activity) → board_in result channels
            ≡ record (board_at_rest start.now) { state = λ c. state_in c (activity_at channels c) } }
    {
        // For the prover: no channel has a number of 0, or one from CHANNEL_PLACES on.
        let _known = channels_at_first(start);
        Table {
            start: copy_of(start),
            marks: Marks::new(),
            owners: owners_at_first(start),
            programs: programs_at_first(start),
            last_positions: no_positions(),
            zones: zones_at_first(start),
        }
    }
}

impl State {
    // The state before the first step.
    pub(crate) fn new(start: &StartState) -> State
        requires sound { IsSound start.now }
        ensures kept { IsTable result.table }
        ensures start { result.table.start ≡ start.now }
        ensures board { board_in result.table result.channels ≡ first_board start.now }
    {
        let table = Table::new(start);
        let channels = first_activities(&table, start.channels.as_slice());
        State { table, channels }
    }
}
