//! The head of a drawing: the verdict, and what it names.
ghost use Rattle.std.specs.Prelude.{◌≡◌, ◌++◌};
ghost use Rattle.explain_drawing.specs.Titles as model;

use crate::words::{put_block, put_name};
use axis_sets::ChannelId;
use explain_places::Told;
use explain_views::{put_place, put_shown};
use growing_text::Text;
use sync_types::{PlaceName, Verdict};

/// Writes a block of a channel.
#[tactic(auto, unfolding(crate::specs::Titles::channel_words))]
fn put_channel(text: &mut Text, told: &Told, place: (ChannelId, u32))
    ensures { text.new ≡ text.old ++ model.channel_words told.now.lines.now told.now.job.now place }
{
    text.say("channel ");
    text.number(u64::from(place.0.number));
    text.say(", ");
    put_block(text, told, place.1);
}

/// Writes a zone, and the block of its box.
#[tactic(auto, unfolding(crate::specs::Titles::place_words))]
fn put_place_name(text: &mut Text, told: &Told, name: &PlaceName)
    ensures { text.new ≡ text.old ++ model.place_words told.now.lines.now told.now.job.now name.now }
{
    text.say("zone ");
    text.number(u64::from(name.zone.number));
    text.say(", ");
    put_name(text, told, name);
}

/// Writes what a verdict names first.
#[tactic(auto, unfolding(crate::specs::Titles::first_words))]
fn put_first(text: &mut Text, told: &Told, verdict: &Verdict)
    ensures { text.new ≡ text.old ++ model.first_words told.now.lines.now told.now.job.now verdict.now }
{
    match verdict {
        Verdict::Race(race) => put_channel(text, told, race.first),
        Verdict::Alarm(channel, alarm) => put_channel(text, told, (*channel, alarm.line)),
        Verdict::Stuck(channel, line) => put_channel(text, told, (*channel, *line)),
        Verdict::No(left, _) => put_place_name(text, told, left),
        Verdict::Undecided { .. } | Verdict::Yes => {}
    }
}

/// Writes what a verdict names second.
#[tactic(auto, unfolding(crate::specs::Titles::second_words))]
fn put_second(text: &mut Text, told: &Told, verdict: &Verdict)
    ensures { text.new ≡ text.old ++ model.second_words told.now.lines.now told.now.job.now verdict.now }
{
    match verdict {
        Verdict::Race(race) => put_channel(text, told, race.second),
        Verdict::No(_, right) => put_place_name(text, told, right),
        Verdict::Alarm(_, _) | Verdict::Stuck(_, _) | Verdict::Undecided { .. } | Verdict::Yes => {}
    }
}

/// A place one letter from the left edge, and so many from the upper one.
fn head_place(letter: i64, letters: i64) -> (i64, i64)
    ensures { result ≡ model.head_place letter letters }
{
    (letter, letter.saturating_mul(letters))
}

/// Writes the verdict in large letters.
#[tactic(auto, unfolding(crate::specs::Titles::verdict_text))]
fn put_verdict(text: &mut Text, title: &[u8], letter: i64)
    ensures { text.new ≡ text.old ++ model.verdict_text title.now letter }
{
    text.say("<text class=\"title\"");
    put_place(text, head_place(letter, 2));
    put_shown(text, title);
    text.say("</text>\n");
}

/// Writes what the verdict names first, in a line of its own.
#[tactic(auto, unfolding(crate::specs::Titles::first_note))]
fn put_first_note(text: &mut Text, told: &Told, verdict: &Verdict, letter: i64)
    ensures { text.new ≡ text.old
        ++ model.first_note told.now.lines.now told.now.job.now verdict.now letter }
{
    text.say("<text class=\"note\"");
    put_place(text, head_place(letter, 4));
    put_first(text, told, verdict);
    text.say("</text>\n");
}

/// Writes what it names second, in a line of its own.
#[tactic(auto, unfolding(crate::specs::Titles::second_note))]
fn put_second_note(text: &mut Text, told: &Told, verdict: &Verdict, letter: i64)
    ensures { text.new ≡ text.old
        ++ model.second_note told.now.lines.now told.now.job.now verdict.now letter }
{
    text.say("<text class=\"note\"");
    put_place(text, head_place(letter, 5));
    put_second(text, told, verdict);
    text.say("</text>\n");
}

/// Writes the head: the verdict in these words, and what it names.
#[tactic(auto, unfolding(crate::specs::Titles::title_text))]
pub(crate) fn put_title(text: &mut Text, told: &Told, title: &[u8], verdict: &Verdict, letter: i64)
    ensures { text.new ≡ text.old
        ++ model.title_text told.now.lines.now told.now.job.now title.now verdict.now letter }
{
    put_verdict(text, title, letter);
    put_first_note(text, told, verdict, letter);
    put_second_note(text, told, verdict, letter);
}
