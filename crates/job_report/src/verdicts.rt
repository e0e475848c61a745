//! The verdict line.
ghost use Rattle.std.specs.Prelude.{◌≡◌, ◌+◌, ◌≤◌, ◌++◌, length, unwrap_or};
ghost use Rattle.job_report.specs.Verdicts as model;

use crate::page::{LINE_ROOM, PAGE_ROOM, Page};
use axis_sets::ChannelId;
use fault_codes::Alarm;
use sync_types::{PlaceName, Race, StretchKind, Verdict};

/// The most bytes of a place as the verdict names it.
const PLACE_ROOM: usize = 60;

/// The name of a kind of stretch.
#[tactic(auto, unfolding(crate::specs::Verdicts::kind_text))]
fn kind_text(kind: StretchKind) -> &'static str
    ensures text { result.now ≡ model.kind_text kind }
    ensures short { length result.now ≤ 4 }
{
    match kind {
        StretchKind::Idle => "IDLE",
        StretchKind::Run => "RUN",
        StretchKind::Hold => "HOLD",
        StretchKind::End => "END",
        StretchKind::Free => "FREE",
    }
}

/// The number of the channel, or 0 for none.
fn channel_number(channel: Option<ChannelId>) -> u8
    ensures { result ≡ unwrap_or channel 0 }
{
    match channel {
        Some(channel) => channel.number,
        None => 0,
    }
}

/// Puts a place as the verdict names it.
#[tactic(auto, unfolding(crate::specs::Verdicts::place_text))]
fn push_place(page: &mut Page, place: &PlaceName)
    requires { length page.old + PLACE_ROOM ≤ PAGE_ROOM }
    ensures text { page.new ≡ page.old ++ model.place_text place.now }
    ensures room { length page.new ≤ length page.old + PLACE_ROOM }
{
    page.push("ZONE ");
    page.push_number(u32::from(place.zone.number));
    page.push(" CHANNEL ");
    page.push_number(u32::from(channel_number(place.channel)));
    page.push(" ");
    page.push(kind_text(place.kind));
    page.push(" ");
    page.push_number(place.line);
}

/// Puts a line of a channel as the verdict names it.
#[tactic(auto, unfolding(crate::specs::Verdicts::channel_place_text))]
fn push_channel_place(page: &mut Page, channel: ChannelId, line: u32)
    requires { length page.old + PLACE_ROOM ≤ PAGE_ROOM }
    ensures text { page.new ≡ page.old ++ model.channel_place_text (channel, line) }
    ensures room { length page.new ≤ length page.old + PLACE_ROOM }
{
    page.push("CHANNEL ");
    page.push_number(u32::from(channel.number));
    page.push(" LINE ");
    page.push_number(line);
}

/// Puts the verdict line of a race.
#[tactic(auto, unfolding(crate::specs::Verdicts::race_line))]
fn push_race_line(page: &mut Page, race: &Race)
    requires { length page.old + LINE_ROOM ≤ PAGE_ROOM }
    ensures { page.new ≡ page.old ++ model.race_line race.now }
{
    page.push("VERDICT RACE ");
    push_channel_place(page, race.first.0, race.first.1);
    page.push(" ");
    push_channel_place(page, race.second.0, race.second.1);
    page.push("\n");
}

/// Puts the verdict line of a channel that waits for good.
#[tactic(auto, unfolding(crate::specs::Verdicts::stuck_line))]
fn push_stuck_line(page: &mut Page, channel: ChannelId, line: u32)
    requires { length page.old + LINE_ROOM ≤ PAGE_ROOM }
    ensures { page.new ≡ page.old ++ model.stuck_line channel line }
{
    page.push("VERDICT STUCK ");
    push_channel_place(page, channel, line);
    page.push("\n");
}

/// Puts the verdict line of two boxes that meet.
#[tactic(auto, unfolding(crate::specs::Verdicts::meeting_line))]
fn push_meeting_line(page: &mut Page, place: &PlaceName, other: &PlaceName)
    requires { length page.old + LINE_ROOM ≤ PAGE_ROOM }
    ensures { page.new ≡ page.old ++ model.meeting_line place.now other.now }
{
    page.push("VERDICT NO ");
    push_place(page, place);
    page.push(" ");
    push_place(page, other);
    page.push("\n");
}

/// Puts the verdict line of more pairs than may be compared.
#[tactic(auto, unfolding(crate::specs::Verdicts::undecided_line))]
fn push_undecided_line(page: &mut Page, count: u64, budget: u32)
    requires { length page.old + LINE_ROOM ≤ PAGE_ROOM }
    ensures { page.new ≡ page.old ++ model.undecided_line count budget }
{
    page.push("VERDICT UNDECIDED COUNT ");
    page.push_count(count);
    page.push(" BUDGET ");
    page.push_number(budget);
    page.push("\n");
}

/// Puts the verdict line of an alarm.
#[tactic(auto, unfolding(crate::specs::Verdicts::alarm_line))]
fn push_alarm_line(page: &mut Page, channel: ChannelId, alarm: &Alarm)
    requires { length page.old + LINE_ROOM ≤ PAGE_ROOM }
    ensures { page.new ≡ page.old ++ model.alarm_line channel alarm.now }
{
    page.push("VERDICT ALARM ");
    push_channel_place(page, channel, alarm.line);
    page.push(" CODE ");
    page.push_number(u32::from(alarm.code));
    page.push("\n");
}

/// Puts the verdict line.
#[tactic(auto, unfolding(crate::specs::Verdicts::verdict_line))]
pub(crate) fn push_verdict_line(page: &mut Page, verdict: &Verdict)
    requires { length page.old + LINE_ROOM ≤ PAGE_ROOM }
    ensures { page.new ≡ page.old ++ model.verdict_line verdict.now }
{
    match verdict {
        Verdict::Yes => page.push("VERDICT YES\n"),
        Verdict::Race(race) => push_race_line(page, race),
        Verdict::Stuck(channel, line) => push_stuck_line(page, *channel, *line),
        Verdict::No(place, other) => push_meeting_line(page, place, other),
        Verdict::Undecided { count, budget } => push_undecided_line(page, *count, *budget),
        Verdict::Alarm(channel, alarm) => push_alarm_line(page, *channel, alarm),
    }
}
