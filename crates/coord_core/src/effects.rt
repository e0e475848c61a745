//! What an action changes on the board, before anybody goes on.
ghost use Rattle.std.specs.Prelude.{◌≡◌, ℕ, ◌==◌, false, None, Some, if◌then◌else◌, length, slice_index_or};
ghost use Rattle.axis_sets.specs.Positions.{position_of};
ghost use Rattle.axis_sets.specs.Sets.{has};
ghost use Rattle.mark_board.specs.Marks.{has_mark};
ghost use Rattle.sync_types.specs.BoardActions.{after_effects, marks_after, program_after, position_or_zero};
ghost use Rattle.sync_types.specs.BoardAlarms.{alarm_of, names_no_mark};
ghost use Rattle.coord_core.specs.Tables.{board_in, IsTable};

use crate::state::State;
use crate::table::{note_positions, position_or_zero};
use crate::zones::{hand_over, note_on};
use axis_sets::{AXIS_LIMIT, AxisId, AxisSet, CHANNEL_PLACES, ChannelId, MarkSet, Positions};
use mark_board::Marks;
use sync_types::{Action, Step};

// The own marks after an action.
fn change_marks(marks: &mut Marks, channel: ChannelId, action: &Action)
    requires { names_no_mark action.now ≡ false }
    ensures { (c m : ℕ) → has_mark marks.new c m
        ≡ (if c == channel then marks_after (has_mark marks.old channel) action.now m else has_mark marks.old c m) }
{
    match action {
        Action::WaitM(mark, _) => marks.raise(channel, MarkSet::empty().with(*mark)),
        Action::SetM(named) => marks.raise(channel, *named),
        Action::ClearM(named) => {
            if named.is_empty() {
                marks.clear_all(channel);
            } else {
                marks.clear(channel, *named);
            }
        }
        _ => {}
    }
}

// INIT selects a program.
fn select_program(programs: &mut [Option<u16>; CHANNEL_PLACES], action: &Action)
    ensures { (c : ℕ) → slice_index_or programs.new c None
        ≡ program_after action.now c (slice_index_or programs.old c None) }
{
    if let Action::Init(channel, program) = action {
        programs[usize::from(channel.number)] = Some(*program);
    }
}

// A position for each of these axes; one that is not told is 0.
fn full_positions(axes: AxisSet, at: &Positions) -> Positions
    ensures { (x : ℕ) → position_of result x ≡ (if has axes x
        then Some (position_or_zero (position_of at.now x)) else None) }
{
    let mut positions = Positions::empty();
    for index in 0..AXIS_LIMIT {
        let axis = AxisId { index: index as u8 };
        if axes.contains(axis) {
            positions.set(axis, position_or_zero(at.get(axis)));
        }
    }
    positions
}

impl State {
    // Marks, programs, axes and zones after an action that does not alarm.
    pub(crate) fn apply(&mut self, channel: ChannelId, step: &Step)
        requires kept { IsTable self.old.table }
        requires no_alarm { alarm_of (board_in self.old.table self.old.channels) channel step.now.action ≡ None }
        ensures kept { IsTable self.new.table }
        ensures channels { self.new.channels ≡ self.old.channels }
        ensures board { board_in self.new.table self.new.channels
            ≡ after_effects (board_in self.old.table self.old.channels) channel step.now }
    {
        change_marks(&mut self.table.marks, channel, &step.action);
        select_program(&mut self.table.programs, &step.action);
        note_on(&mut self.table.zones, channel, &step.on);
        note_positions(&mut self.table.last_positions, channel, &step.at);
        if let Action::Release(axes) = step.action {
            let at = full_positions(axes, &step.at);
            self.table.owners.release(channel, axes, &at);
            hand_over(&mut self.table.zones, axes, &None);
        }
    }
}
