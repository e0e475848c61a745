//! The first line of an explanation: the verdict.
ghost use Rattle.std.specs.Prelude.{◌≡◌, ◌++◌};
ghost use Rattle.explain_texts.specs.Headlines as model;

use axis_sets::ChannelId;
use explain_pairs::{ZonePair, is_none_compared, say_none_compared};
use growing_text::Text;
use sync_types::{PlaceName, Verdict};

/// Says who holds a zone.
#[tactic(auto, unfolding(crate::specs::Headlines::holder_text))]
fn say_holder(text: &mut Text, holder: Option<ChannelId>)
    ensures { text.new ≡ text.old ++ model.holder_text holder }
{
    match holder {
        Some(channel) => {
            text.say(" of channel ");
            text.number(u64::from(channel.number));
        }
        None => text.say(" held by nobody"),
    }
}

/// Says a zone and who holds it.
#[tactic(auto, unfolding(crate::specs::Headlines::name_text))]
fn say_name(text: &mut Text, name: &PlaceName)
    ensures { text.new ≡ text.old ++ model.name_text name.now }
{
    text.say("zone ");
    text.number(u64::from(name.zone.number));
    say_holder(text, name.channel);
}

/// Says that two zones can meet.
#[tactic(auto, unfolding(crate::specs::Headlines::pair_text))]
fn say_pair(text: &mut Text, left: &PlaceName, right: &PlaceName)
    ensures { text.new ≡ text.old ++ model.pair_text left.now right.now }
{
    text.say("NO: ");
    say_name(text, left);
    text.say(" and ");
    say_name(text, right);
    text.say(" can meet.\n");
}

/// Says that so many pairs are more than the budget.
#[tactic(auto, unfolding(crate::specs::Headlines::count_text))]
fn say_count(text: &mut Text, count: u64, budget: u32)
    ensures { text.new ≡ text.old ++ model.count_text count budget }
{
    text.say("UNDECIDED: ");
    text.number(count);
    text.say(" pairs of boxes are to be compared, and the budget is ");
    text.number(u64::from(budget));
    text.say(".\n");
}

/// Says that something stops a channel.
#[tactic(auto, unfolding(crate::specs::Headlines::stop_text))]
fn say_stop(text: &mut Text, front: &str, channel: ChannelId, back: &str)
    ensures { text.new ≡ text.old ++ model.stop_text front.now channel back.now }
{
    text.say(front);
    text.number(u64::from(channel.number));
    text.say(back);
}

/// Says this verdict in one line.
#[tactic(auto, unfolding(crate::specs::Headlines::headline))]
pub fn say_headline(text: &mut Text, verdict: &Verdict)
    ensures { text.new ≡ text.old ++ model.headline verdict.now }
{
    match verdict {
        Verdict::Race(_) => text.say(
            "RACE: nothing says which of two places comes first, and what follows may depend on it.\n",
        ),
        Verdict::Alarm(channel, _) => say_stop(
            text,
            "ALARM: the control would stop channel ",
            *channel,
            ", and so no boxes are compared.\n",
        ),
        Verdict::Stuck(channel, _) => say_stop(
            text,
            "STUCK: channel ",
            *channel,
            " waits for good, and so no boxes are compared.\n",
        ),
        Verdict::Undecided { count, budget } => say_count(text, *count, *budget),
        Verdict::No(left, right) => say_pair(text, left, right),
        Verdict::Yes => text.say(
            "YES: no two zones of different groups can meet, at whatever speed each channel runs.\n",
        ),
    }
}

/// Says the verdict YES in one line, where this is told of each two zones. Where no boxes of any two `zones` were compared, it says so,
/// and why.
#[tactic(auto, unfolding(crate::specs::Headlines::yes_line))]
pub fn say_yes_line(text: &mut Text, zones: &[ZonePair])
    ensures { text.new ≡ text.old ++ model.yes_line zones.now }
{
    if is_none_compared(zones) {
        say_none_compared(text, zones);
    } else {
        say_headline(text, &Verdict::Yes);
    }
}
