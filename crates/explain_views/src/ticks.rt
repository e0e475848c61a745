//! Lines over a view at whole millimetres, each with its number.
ghost use Rattle.std.specs.Prelude.{◌≡◌, ◌++◌};
ghost use Rattle.explain_views.specs.Ticks as model;

use crate::extents::Extent;
use crate::marks::{put_ends, put_number, put_place};
use crate::views::View;
use growing_text::Text;

/// The most lines on each side of 0. A view is fifty letters long at most, and a step four at least.
const TICK_LIMIT: u32 = 16;

/// The most lines in all.
const TICK_COUNT: u32 = 33;

/// A power of ten millimetres that is some ten letters long.
#[tactic(auto, unfolding(crate::specs::Ticks::decade_of))]
fn decade_of(letter: i64) -> i64
    ensures { result ≡ model.decade_of letter }
{
    if letter < 800 {
        1_000
    } else if letter < 8_000 {
        10_000
    } else if letter < 80_000 {
        100_000
    } else if letter < 800_000 {
        1_000_000
    } else if letter < 8_000_000 {
        10_000_000
    } else {
        100_000_000
    }
}

/// How far it is from one line to the next: the half of that, itself, its double or five times of it, the least that leaves a number
/// four letters of room.
#[tactic(auto, unfolding(crate::specs::Ticks::step_of))]
fn step_of(letter: i64) -> i64
    ensures { result ≡ model.step_of letter }
{
    let decade = decade_of(letter);
    let room = letter.saturating_mul(4);
    if room <= decade / 2 {
        decade / 2
    } else if room <= decade {
        decade
    } else if room <= decade.saturating_mul(2) {
        decade.saturating_mul(2)
    } else {
        decade.saturating_mul(5)
    }
}

/// Whether an extent has a place.
fn is_within(extent: Extent, place: i64) -> bool
    ensures { result ≡ model.is_within extent place }
{
    extent.low <= place && place <= extent.high
}

/// Writes a place in millimetres, and ends the text.
#[tactic(auto, unfolding(crate::specs::Ticks::millimetres_text))]
fn put_millimetres(text: &mut Text, place: i64)
    ensures { text.new ≡ text.old ++ model.millimetres_text place }
{
    put_number(text, place / 1000);
    text.say("</text>\n");
}

/// Writes a line over a view.
#[tactic(auto, unfolding(crate::specs::Ticks::grid_text))]
fn put_grid(text: &mut Text, from: (i64, i64), to: (i64, i64))
    ensures { text.new ≡ text.old ++ model.grid_text from to }
{
    text.say("<line class=\"grid\"");
    put_ends(text, from, to);
}

impl View {
    /// The place of a line, counted from the farthest below 0.
    #[tactic(auto, unfolding(crate::specs::Ticks::tick_at))]
    fn tick_at(&self, number: u32) -> i64
        ensures { result ≡ model.tick_at self.now number }
    {
        step_of(self.letter).saturating_mul(i64::from(number).saturating_sub(i64::from(TICK_LIMIT)))
    }

    /// Where the number of an upright line stands.
    fn below_place(&self, place: i64) -> (i64, i64)
        ensures { result ≡ model.below_place self.now place }
    {
        (self.x(place), self.bottom().saturating_add(self.letter))
    }

    /// Where an upright line begins.
    fn upright_top(&self, place: i64) -> (i64, i64)
        ensures { result ≡ model.upright_top self.now place }
    {
        (self.x(place), self.top)
    }

    /// Where it ends.
    fn upright_foot(&self, place: i64) -> (i64, i64)
        ensures { result ≡ model.upright_foot self.now place }
    {
        (self.x(place), self.bottom())
    }

    /// Writes the number of an upright line below the view.
    #[tactic(auto, unfolding(crate::specs::Ticks::across_number))]
    fn put_across_number(&self, text: &mut Text, place: i64)
        ensures { text.new ≡ text.old ++ model.across_number self.now place }
    {
        text.say("<text class=\"tick mid\"");
        put_place(text, self.below_place(place));
        put_millimetres(text, place);
    }

    /// Writes an upright line with its number.
    #[tactic(auto, unfolding(crate::specs::Ticks::across_tick))]
    fn put_across_tick(&self, text: &mut Text, place: i64)
        ensures { text.new ≡ text.old ++ model.across_tick self.now place }
    {
        put_grid(text, self.upright_top(place), self.upright_foot(place));
        self.put_across_number(text, place);
    }

    /// Where a level line begins.
    fn level_left(&self, place: i64) -> (i64, i64)
        ensures { result ≡ model.level_left self.now place }
    {
        (self.left, self.y(place))
    }

    /// Where it ends.
    fn level_right(&self, place: i64) -> (i64, i64)
        ensures { result ≡ model.level_right self.now place }
    {
        (self.right(), self.y(place))
    }

    /// Where the number of a level line stands.
    fn beside_place(&self, place: i64) -> (i64, i64)
        ensures { result ≡ model.beside_place self.now place }
    {
        (
            self.left.saturating_sub(self.letter / 3),
            self.y(place).saturating_add(self.letter / 4),
        )
    }

    /// Writes the number of a level line beside the view.
    #[tactic(auto, unfolding(crate::specs::Ticks::up_number))]
    fn put_up_number(&self, text: &mut Text, place: i64)
        ensures { text.new ≡ text.old ++ model.up_number self.now place }
    {
        text.say("<text class=\"tick end\"");
        put_place(text, self.beside_place(place));
        put_millimetres(text, place);
    }

    /// Writes a level line with its number.
    #[tactic(auto, unfolding(crate::specs::Ticks::up_tick))]
    fn put_up_tick(&self, text: &mut Text, place: i64)
        ensures { text.new ≡ text.old ++ model.up_tick self.now place }
    {
        put_grid(text, self.level_left(place), self.level_right(place));
        self.put_up_number(text, place);
    }

    /// Writes the upright line of this number, where the view shows its place.
    #[tactic(auto, unfolding(crate::specs::Ticks::across_part))]
    fn put_across_part(&self, text: &mut Text, number: u32)
        ensures { text.new ≡ text.old ++ model.across_part self.now number }
    {
        let place = self.tick_at(number);
        if is_within(self.wide, place) {
            self.put_across_tick(text, place);
        }
    }

    /// Writes the level line of this number, where the view shows its place.
    #[tactic(auto, unfolding(crate::specs::Ticks::up_part))]
    fn put_up_part(&self, text: &mut Text, number: u32)
        ensures { text.new ≡ text.old ++ model.up_part self.now number }
    {
        let place = self.tick_at(number);
        if is_within(self.tall, place) {
            self.put_up_tick(text, place);
        }
    }

    /// Writes the upright lines.
    #[tactic(auto, unfolding(crate::specs::Ticks::across_ticks))]
    fn put_across_ticks(&self, text: &mut Text)
        ensures { text.new ≡ text.old ++ model.across_ticks self.now }
    {
        for number in 0..TICK_COUNT {
            self.put_across_part(text, number);
        }
    }

    /// Writes the level lines.
    #[tactic(auto, unfolding(crate::specs::Ticks::up_ticks))]
    fn put_up_ticks(&self, text: &mut Text)
        ensures { text.new ≡ text.old ++ model.up_ticks self.now }
    {
        for number in 0..TICK_COUNT {
            self.put_up_part(text, number);
        }
    }

    /// Writes the lines at whole millimetres with their numbers, in both directions.
    #[tactic(auto, unfolding(crate::specs::Ticks::ticks_text))]
    pub fn put_ticks(&self, text: &mut Text)
        ensures { text.new ≡ text.old ++ model.ticks_text self.now }
    {
        self.put_across_ticks(text);
        self.put_up_ticks(text);
    }
}
