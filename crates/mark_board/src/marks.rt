//! Which marks stand.
ghost use Rattle.std.specs.Prelude.{◌≡◌, ℕ, ◌<◌, ◌==◌, ◌||◌, ◌&&◌, not, false, if◌then◌else◌, length, IsTrue};
ghost use Rattle.std.specs.List.{list_any};
ghost use Rattle.axis_sets.specs.Sets.{has};
ghost use Rattle.mark_board.specs.Marks.{has_mark, others_have_mark};

use axis_sets::{CHANNEL_PLACES, ChannelId, ChannelSet, MARK_LIMIT, MarkSet};
use std::marker::Model;

/// The marks of all channels. A contract sees for each channel by its number the set of its marks that stand.
#[derive(Clone, Copy, PartialEq, Eq)]
pub struct Marks {
    own: [MarkSet; CHANNEL_PLACES],
}

impl Model for Marks {
    ghost use Rattle.std.specs.Prelude.{Bool, List};

    ghost Value = { List (List Bool) };

    ghost view = { λ m. m.own };

    ghost inverse = { λ marks. record { own = marks } };
}

impl Default for Marks {
    ghost use Rattle.std.specs.Prelude.{◌≡◌, ℕ, false};
    ghost use Rattle.mark_board.specs.Marks.{has_mark};

    ghost is_default = { λ marks. (c m : ℕ) → has_mark marks c m ≡ false };

    fn default() -> Marks {
        Marks::new()
    }
}

impl Marks {
    /// No mark stands.
    pub fn new() -> Marks
        ensures none { (c m : ℕ) → has_mark result c m ≡ false }
    {
        Marks {
            own: [MarkSet::empty(); CHANNEL_PLACES],
        }
    }

    /// The channel raises these marks of its own, whether or not they stood.
    pub fn raise(&mut self, channel: ChannelId, marks: MarkSet)
        ensures marks { (c m : ℕ) → has_mark self.new c m
            ≡ (if c == channel then has marks m || has_mark self.old c m else has_mark self.old c m) }
    {
        let place = usize::from(channel.number);
        self.own[place] = self.own[place].union(marks);
    }

    /// The channel lowers these marks of its own; with no mark, none.
    pub fn clear(&mut self, channel: ChannelId, marks: MarkSet)
        ensures marks { (c m : ℕ) → has_mark self.new c m
            ≡ (if c == channel then has_mark self.old c m && not (has marks m) else has_mark self.old c m) }
    {
        let place = usize::from(channel.number);
        self.own[place] = self.own[place].minus(marks);
    }

    /// The channel lowers all marks of its own.
    pub fn clear_all(&mut self, channel: ChannelId)
        ensures marks { (c m : ℕ) → has_mark self.new c m ≡ (if c == channel then false else has_mark self.old c m) }
    {
        self.own[usize::from(channel.number)] = MarkSet::empty();
    }

    /// Whether the mark of this number of the channel stands; false for a number that is no mark.
    pub fn stands(&self, channel: ChannelId, mark: u8) -> bool
        ensures stands { result ≡ has_mark self.now channel mark }
        ensures is_mark { IsTrue result → mark < MARK_LIMIT }
    {
        self.own[usize::from(channel.number)].contains(mark)
    }

    /// The channels that go on, of those that wait: each wait is a channel, the number of a mark, and the
    /// channels that it names. It goes on once all other channels that it names have raised that mark.
    pub fn goers(&self, waits: &[(ChannelId, u8, ChannelSet)]) -> ChannelSet
        ensures goers { (c : ℕ) → has result c
            ≡ list_any (λ wait. (wait.0 == c) && others_have_mark self.now wait.0 wait.1 wait.2) waits.now }
        ensures size { length result ≡ CHANNEL_PLACES }
    {
        let mut goers = ChannelSet::empty();
        for (channel, mark, named) in waits {
            if self.others_have(*channel, *mark, *named) {
                goers = goers.with(*channel);
            }
        }
        goers
    }

    // Whether all named channels but the channel itself have raised this mark.
    fn others_have(&self, channel: ChannelId, mark: u8, named: ChannelSet) -> bool
        ensures { result ≡ others_have_mark self.now channel mark named }
    {
        let others = named.without(channel);
        for number in 1..CHANNEL_PLACES {
            let other = ChannelId {
                number: number as u8,
            };
            if others.contains(other) && !self.stands(other, mark) {
                return false;
            }
        }
        true
    }
}
