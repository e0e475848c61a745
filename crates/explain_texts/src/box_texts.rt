//! Two boxes that meet, said: where and when they do, and by what they would be apart.
ghost use Rattle.std.specs.Prelude.{◌≡◌, ◌++◌};
ghost use Rattle.explain_texts.specs.BoxTexts as model;

use axis_sets::ChannelId;
use explain_places::{Meeting, Place, Told, say_box, say_direction, say_place, say_span};
use explain_reach::Way;
use growing_text::Text;
use micro_units::Um;
use swept_boxes::Box3;
use sync_types::StretchKind;

/// Says in which blocks of a job that is told the two zones of a meeting can meet, and that both can be in this common box: in three to
/// five lines.
#[tactic(auto, unfolding(crate::specs::BoxTexts::head_text))]
pub fn say_head(text: &mut Text, told: &Told, met: &Meeting, common: &Box3)
    ensures { text.new ≡ text.old ++ model.head_text told.now.lines.now told.now.job.now
        told.now.run.now met.now common.now }
{
    say_place(text, told, &met.left);
    say_place(text, told, &met.right);
    text.say("Both can be in ");
    say_box(text, common);
    text.say(".\n");
}

/// Says the box of a zone.
#[tactic(auto, unfolding(crate::specs::BoxTexts::own_text))]
fn say_own(text: &mut Text, place: &Place)
    ensures { text.new ≡ text.old ++ model.own_text place.now }
{
    text.say("  Zone ");
    text.number(u64::from(place.name.zone.number));
    text.say(": ");
    say_box(text, &place.cover);
    text.say("\n");
}

/// Says the boxes of both zones of a meeting.
#[tactic(auto, unfolding(crate::specs::BoxTexts::boxes_text))]
pub fn say_boxes(text: &mut Text, met: &Meeting)
    ensures { text.new ≡ text.old ++ model.boxes_text met.now }
{
    text.say("\nThe boxes that they sweep\n");
    say_own(text, &met.left);
    say_own(text, &met.right);
}

/// Says from when to when in the run that is told both zones of a meeting are there.
#[tactic(auto, unfolding(crate::specs::BoxTexts::times_text))]
pub fn say_times(text: &mut Text, told: &Told, met: &Meeting)
    ensures { text.new ≡ text.old ++ model.times_text told.now.lines.now told.now.job.now told.now.run.now met.now }
{
    text.say("When\n");
    say_span(text, told, &met.left);
    say_span(text, told, &met.right);
}

/// Says how much more room two boxes need that would be apart by this way.
#[tactic(auto, unfolding(crate::specs::BoxTexts::shift_text))]
pub fn say_shift(text: &mut Text, way: &Way)
    ensures { text.new ≡ text.old ++ model.shift_text way.now }
{
    text.say("What would keep them apart\n  ");
    text.millimetres(way.shift.saturating_add(1));
    text.say(" mm more between them in ");
    say_direction(text, way.direction);
    text.say("\n");
}

/// Says that this smaller margin parts two boxes.
#[tactic(auto, unfolding(crate::specs::BoxTexts::smaller_text))]
fn say_smaller(text: &mut Text, margin: i64, less: i64)
    ensures { text.new ≡ text.old ++ model.smaller_text margin less }
{
    text.say("  MARGIN ");
    text.millimetres(less);
    text.say(" or less; it is ");
    text.millimetres(margin);
    text.say("\n");
}

/// Says which smaller margin parts two boxes, if one does.
#[tactic(auto, unfolding(crate::specs::BoxTexts::less_text))]
fn say_less(text: &mut Text, margin: i64, less: Option<i64>)
    ensures { text.new ≡ text.old ++ model.less_text margin less }
{
    match less {
        Some(less) => say_smaller(text, margin, less),
        None => text.say("  no smaller MARGIN: they meet with MARGIN 0 too\n"),
    }
}

/// Says that the margin `less` parts two boxes, or none where there is no such one; nothing where the job has no `margin`.
#[tactic(auto, unfolding(crate::specs::BoxTexts::margin_text))]
pub fn say_margin(text: &mut Text, margin: Um, less: Option<i64>)
    ensures { text.new ≡ text.old ++ model.margin_text margin less }
{
    if margin.micrometres != 0 {
        say_less(text, i64::from(margin.micrometres), less);
    }
}

/// Says that the depth `more` parts two boxes, in place of this `depth` of the job; or that none does where there is no such one.
#[tactic(auto, unfolding(crate::specs::BoxTexts::depth_text))]
pub fn say_depth(text: &mut Text, depth: u8, more: Option<u8>)
    ensures { text.new ≡ text.old ++ model.depth_text depth more }
{
    match more {
        Some(more) => {
            text.say("  DEPTH ");
            text.number(u64::from(more));
            text.say("; it is ");
            text.number(u64::from(depth));
            text.say("\n");
        }
        None => text.say("  no greater DEPTH\n"),
    }
}

/// Says that both zones are of this channel.
#[tactic(auto, unfolding(crate::specs::BoxTexts::one_channel_text))]
fn say_one_channel(text: &mut Text, channel: ChannelId)
    ensures { text.new ≡ text.old ++ model.one_channel_text channel }
{
    text.say("  one group for both, if they may touch: both are of channel ");
    text.number(u64::from(channel.number));
    text.say("\n");
}

/// Says that one channel holds two zones, where `one` and `other`, who hold them, are the same channel.
#[tactic(auto, unfolding(crate::specs::BoxTexts::holders_text))]
pub fn say_holders(text: &mut Text, one: Option<ChannelId>, other: Option<ChannelId>)
    ensures { text.new ≡ text.old ++ model.holders_text one other }
{
    if let (Some(one), Some(other)) = (one, other) {
        if one == other {
            say_one_channel(text, one);
        }
    }
}

/// Says that a zone only stands where its channel has left it, where this kind of its time is that after the end of the channel.
#[tactic(auto, unfolding(crate::specs::BoxTexts::stays_text))]
pub fn say_stays(text: &mut Text, kind: StretchKind)
    ensures { text.new ≡ text.old ++ model.stays_text kind }
{
    match kind {
        StretchKind::End => text.say(" (stands there until the end)"),
        StretchKind::Idle | StretchKind::Run | StretchKind::Hold | StretchKind::Free => {}
    }
}
