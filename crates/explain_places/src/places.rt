//! What a channel does during a box of a zone.
ghost use Rattle.std.specs.Prelude.{◌≡◌, ◌++◌};
ghost use Rattle.explain_places.specs.Places as model;

use crate::executions::execution_at;
use crate::place::{Place, motion_of};
use crate::told::{Told, say_block, say_channel};
use crate::ways::say_motion;
use axis_sets::{ChannelId, ZoneId};
use growing_text::Text;
use path_geometry::Motion;
use sync_types::StretchKind;

/// Says who holds a zone.
#[tactic(auto, unfolding(crate::specs::Places::held_text))]
fn say_held(text: &mut Text, channel: Option<ChannelId>)
    ensures { text.new ≡ text.old ++ model.held_text channel }
{
    match channel {
        Some(channel) => {
            text.say(" of ");
            say_channel(text, channel);
        }
        None => text.say(" held by nobody"),
    }
}

/// Says a zone, and who holds it.
#[tactic(auto, unfolding(crate::specs::Places::zone_text))]
pub fn say_zone(text: &mut Text, place: &Place)
    ensures { text.new ≡ text.old ++ model.zone_text place.now }
{
    text.say("zone ");
    text.number(u64::from(place.name.zone.number));
    say_held(text, place.name.channel);
}

/// Says the channel that holds a zone, if one does.
#[tactic(auto, unfolding(crate::specs::Places::holder_text))]
fn say_holder(text: &mut Text, place: &Place)
    ensures { text.new ≡ text.old ++ model.holder_text place.now }
{
    if let Some(channel) = place.name.channel {
        say_channel(text, channel);
    }
}

/// Says which execution of its block a motion is.
#[tactic(auto, unfolding(crate::specs::Places::execution_text))]
fn say_execution(text: &mut Text, told: &Told, place: &Place)
    ensures { text.new ≡ text.old ++ model.execution_text told.now.run.now place.now }
{
    if let Some(execution) = execution_at(told.run, place) {
        text.say("execution ");
        text.number(execution.which);
        text.say(" of ");
        text.number(execution.of);
        text.say(": ");
    }
}

/// Says the block that moves a zone, and its motion in a line of its own.
#[tactic(auto, unfolding(crate::specs::Places::moving_text))]
fn say_moving(text: &mut Text, told: &Told, place: &Place, motion: &Motion)
    ensures { text.new ≡ text.old ++ model.moving_text told.now.lines.now told.now.job.now
        told.now.run.now place.now motion.now }
{
    text.say(" moves in ");
    say_block(text, told, place.name.line);
    text.say("\n    ");
    say_execution(text, told, place);
    say_motion(text, told.job, motion);
    text.say("\n");
}

/// Says where a zone is declared.
#[tactic(auto, unfolding(crate::specs::Places::declared_text))]
fn say_declared(text: &mut Text, told: &Told, zone: ZoneId)
    ensures { text.new ≡ text.old ++ model.declared_text told.now.lines.now told.now.job.now zone }
{
    if let Some(line) = told.job.zone_line(zone) {
        say_block(text, told, line.line);
    }
}

/// The words that a zone stands still, by what its channel does; from the start on, where this is true.
#[tactic(auto, unfolding(crate::specs::Places::still_words))]
fn still_words(kind: StretchKind, is_first: bool) -> &'static str
    ensures { result.now ≡ model.still_words kind is_first }
{
    match (kind, is_first) {
        (StretchKind::Idle, _) => " stands still, since ",
        (StretchKind::Run, true) => " stands still from the start of ",
        (StretchKind::Run, false) => " stands still after ",
        (StretchKind::Hold, _) => " stands still while ",
        (StretchKind::End, _) => " stands still after the end of ",
        (StretchKind::Free, true) => {
            " stands still, and nobody holds it from the start on; it is declared in "
        }
        (StretchKind::Free, false) => " stands still since it was let go in ",
    }
}

/// Says from whose start on a zone stands still, or after which block.
#[tactic(auto, unfolding(crate::specs::Places::running_text))]
fn say_running(text: &mut Text, told: &Told, place: &Place)
    ensures { text.new ≡ text.old ++ model.running_text told.now.lines.now told.now.job.now place.now }
{
    if place.name.line == 0 {
        say_holder(text, place);
        text.say(" on");
    } else {
        say_block(text, told, place.name.line);
    }
}

/// Says where a zone is declared that nobody holds, or which block let it go.
#[tactic(auto, unfolding(crate::specs::Places::free_text))]
fn say_free(text: &mut Text, told: &Told, place: &Place)
    ensures { text.new ≡ text.old ++ model.free_text told.now.lines.now told.now.job.now place.now }
{
    if place.name.line == 0 {
        say_declared(text, told, place.name.zone);
    } else {
        say_block(text, told, place.name.line);
    }
}

/// Says whose channel has not started.
fn say_idle(text: &mut Text, place: &Place)
    ensures { text.new ≡ text.old ++ model.idle_text place.now }
{
    say_holder(text, place);
    text.say(" has not started");
}

/// Says which channel waits, and in which block.
#[tactic(auto, unfolding(crate::specs::Places::waiting_text))]
fn say_waiting(text: &mut Text, told: &Told, place: &Place)
    ensures { text.new ≡ text.old ++ model.waiting_text told.now.lines.now told.now.job.now place.now }
{
    say_holder(text, place);
    text.say(" waits in ");
    say_block(text, told, place.name.line);
}

/// Says which channel has ended, and in which block.
#[tactic(auto, unfolding(crate::specs::Places::ended_text))]
fn say_ended(text: &mut Text, told: &Told, place: &Place)
    ensures { text.new ≡ text.old ++ model.ended_text told.now.lines.now told.now.job.now place.now }
{
    say_holder(text, place);
    text.say(" in ");
    say_block(text, told, place.name.line);
}

/// Says the channel and the block of the reason why a zone stands still.
#[tactic(auto, unfolding(crate::specs::Places::reason_text))]
fn say_reason(text: &mut Text, told: &Told, place: &Place)
    ensures { text.new ≡ text.old ++ model.reason_text told.now.lines.now told.now.job.now
        place.now place.now.name.kind }
{
    match place.name.kind {
        StretchKind::Idle => say_idle(text, place),
        StretchKind::Run => say_running(text, told, place),
        StretchKind::Hold => say_waiting(text, told, place),
        StretchKind::End => say_ended(text, told, place),
        StretchKind::Free => say_free(text, told, place),
    }
}

/// Says why a zone stands still, in a line of its own.
#[tactic(auto, unfolding(crate::specs::Places::standing_text))]
fn say_standing(text: &mut Text, told: &Told, place: &Place)
    ensures { text.new ≡ text.old ++ model.standing_text told.now.lines.now told.now.job.now place.now }
{
    text.say(still_words(place.name.kind, place.name.line == 0));
    say_reason(text, told, place);
    text.say("\n");
}

/// Says the motion of a block, or why the zone stands still.
#[tactic(auto, unfolding(crate::specs::Places::doing_text))]
fn say_doing(text: &mut Text, told: &Told, place: &Place)
    ensures { text.new ≡ text.old ++ model.doing_text told.now.lines.now told.now.job.now told.now.run.now place.now
        (model.place_motion told.now.run.now place.now) }
{
    match motion_of(told.run, place) {
        Some(motion) => say_moving(text, told, place, motion),
        None => say_standing(text, told, place),
    }
}

/// Says what happens during a box: the motion of a block, or why the zone stands still. It ends with a line feed.
#[tactic(auto, unfolding(crate::specs::Places::place_text))]
pub fn say_place(text: &mut Text, told: &Told, place: &Place)
    ensures { text.new ≡ text.old ++ model.place_text told.now.lines.now told.now.job.now told.now.run.now place.now }
{
    text.say("Zone ");
    text.number(u64::from(place.name.zone.number));
    say_doing(text, told, place);
}
