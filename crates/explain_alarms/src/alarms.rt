//! In which line an alarm stops a channel.
ghost use Rattle.std.specs.Prelude.{◌≡◌};
ghost use Rattle.explain_alarms.specs.Alarms as model;

use axis_sets::ChannelId;
use fault_codes::alarms::NO_PROGRAM_END;
use sync_types::{Action, Entry, Run};

/// The line of an alarm of a block.
fn line_of_code(line: u32, code: u16) -> Option<u32>
    ensures { result ≡ model.line_of_code line code }
{
    if code == NO_PROGRAM_END {
        None
    } else {
        Some(line)
    }
}

/// The line of a step that is an alarm of a block.
fn line_of_action(line: u32, action: &Action) -> Option<u32>
    ensures { result ≡ model.line_of_action line action.now }
{
    match action {
        Action::Alarm(code) => line_of_code(line, *code),
        Action::WaitM(_, _)
        | Action::SetM(_)
        | Action::ClearM(_)
        | Action::Init(_, _)
        | Action::Start(_)
        | Action::WaitE(_)
        | Action::Release(_)
        | Action::Get(_)
        | Action::End => None,
    }
}

/// The line of an entry, where an alarm of a block of this channel is its step.
fn line_of_alarm(entry: &Entry, channel: ChannelId) -> Option<u32>
    ensures { result ≡ model.line_of_alarm channel entry.now }
{
    if entry.channel == channel {
        line_of_action(entry.step.line, &entry.step.action)
    } else {
        None
    }
}

/// The line of the first of these entries that has one.
fn first_line(entries: &[Entry], channel: ChannelId) -> Option<u32>
    ensures { result ≡ model.alarm_line channel entries.now }
{
    for entry in entries {
        if let Some(line) = line_of_alarm(entry, channel) {
            return Some(line);
        }
    }
    None
}

/// The line in which an alarm of a block stops a channel.
pub(crate) fn alarm_line(run: &Run, channel: ChannelId) -> Option<u32>
    ensures { result ≡ model.alarm_line channel run.now.entries }
{
    first_line(run.entries.as_slice(), channel)
}
