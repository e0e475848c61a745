//! The state of a channel that an alarm stops, said.
ghost use Rattle.std.specs.Prelude.{◌≡◌, ◌++◌};
ghost use Rattle.std.specs.List.{flat_map};
ghost use Rattle.explain_alarms.specs.Texts as model;

use crate::calls::Call;
use crate::state::AlarmState;
use explain_places::{Told, say_block};
use explain_readings::{Reading, say_readings};
use growing_text::Text;

/// Says what a block reads; nothing where it reads no parameter.
#[tactic(auto, unfolding(crate::specs::Texts::reads_text))]
fn say_reads(text: &mut Text, readings: &[Reading])
    ensures { text.new ≡ text.old ++ model.reads_text readings.now }
{
    if !readings.is_empty() {
        text.say("  It reads ");
        say_readings(text, readings);
        text.say("\n");
    }
}

/// Says the block of a call, in a line of its own.
#[tactic(auto, unfolding(crate::specs::Texts::call_text))]
fn say_call(text: &mut Text, told: &Told, call: &Call)
    ensures { text.new ≡ text.old ++ model.call_text told.now.lines.now told.now.job.now call.now }
{
    text.say("  Called in ");
    say_block(text, told, call.line);
    text.say("\n");
}

/// Says the blocks of calls, one after another.
fn say_calls(text: &mut Text, told: &Told, calls: &[Call])
    ensures { text.new ≡ text.old ++ flat_map (model.call_text told.now.lines.now told.now.job.now) calls.now }
{
    for call in calls {
        say_call(text, told, call);
    }
}

/// Says what the alarmed block reads, as `  It reads R1 = 0, R4 = 12.5` in a line of its own; nothing where it reads no parameter.
/// Then the calls that lead to it, that of the main program first, each as `  Called in line 12 (N50) of MAIN: N50 L10 P2`.
pub fn say_state(text: &mut Text, told: &Told, state: &AlarmState)
    ensures { text.new ≡ text.old ++ model.state_text told.now.lines.now told.now.job.now state.now }
{
    say_reads(text, state.readings.as_slice());
    say_calls(text, told, state.calls.as_slice());
}
