//! The verdict RACE, said.
ghost use Rattle.std.specs.Prelude.{◌≡◌, ◌++◌};
ghost use Rattle.explain_stops.specs.RaceTexts as model;

use crate::races::{race_prize, race_remedy};
use axis_sets::ChannelId;
use explain_places::{Told, say_block, say_channel};
use growing_text::Text;
use sync_types::Race;

/// Says a place of a race.
#[tactic(auto, unfolding(crate::specs::RaceTexts::place_text))]
fn say_one(text: &mut Text, told: &Told, name: &str, place: (ChannelId, u32))
    ensures { text.new ≡ text.old ++ model.place_text told.now.lines.now told.now.job.now name.now place }
{
    text.say(name);
    say_channel(text, place.0);
    text.say(", ");
    say_block(text, told, place.1);
    text.say("\n");
}

/// Says what was raced for, and what would close the race.
#[tactic(auto, unfolding(crate::specs::RaceTexts::advice_text))]
fn say_advice(text: &mut Text, prize: &str, remedy: &str)
    ensures { text.new ≡ text.old ++ model.advice_text prize.now remedy.now }
{
    text.say("What was raced for: ");
    text.say(prize);
    text.say("\nWhat to do: ");
    text.say(remedy);
    text.say("\n");
}

/// Says the verdict RACE: both places, what was raced for, and what would settle it.
#[tactic(auto, unfolding(crate::specs::RaceTexts::race_text))]
pub fn say_race(text: &mut Text, told: &Told, race: &Race)
    ensures { text.new ≡ text.old ++ model.race_text told.now.lines.now told.now.job.now race.now }
{
    text.say(
        "RACE: nothing says which of two places comes first, and what follows may depend on it.\n",
    );
    say_one(text, told, "First place:  ", race.first);
    say_one(text, told, "Second place: ", race.second);
    say_advice(text, race_prize(race.case), race_remedy(race.case));
}
