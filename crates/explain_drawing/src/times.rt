//! The time of the channels: a lane for each, downwards, with its steps in the order of the run.
ghost use Rattle.std.specs.Prelude.{◌≡◌, ◌++◌, flat_map};
ghost use Rattle.explain_drawing.specs.Times as model;

use explain_views::{Deed, Moment, Picture, put_box, put_ends, put_place, put_round};
use growing_text::Text;

/// Where the lanes stand.
#[derive(Clone, Copy)]
pub(crate) struct Lanes {
    /// Their upper edge.
    pub(crate) top: i64,
    /// The size of a letter.
    pub(crate) letter: i64,
    /// How many steps there are.
    pub(crate) steps: u32,
    /// The lane of zones that nobody holds.
    pub(crate) free: u8,
}

/// Up to how many steps blocks are written.
const LABEL_LIMIT: u32 = 300;

/// How many steps a run has, by its moments.
#[tactic(auto, unfolding(crate::specs::Times::steps_in))]
fn steps_in(moments: &[Moment]) -> u32
    ensures { result ≡ model.steps_in moments.now }
{
    match moments.last() {
        Some(moment) => moment.step.saturating_add(1),
        None => 0,
    }
}

/// The lane of zones that nobody holds: that after the last channel.
#[tactic(auto, unfolding(crate::specs::Times::free_lane))]
fn free_lane(channels: &[u8]) -> u8
    ensures { result ≡ model.free_lane channels.now }
{
    match channels.last() {
        Some(channel) => (*channel).min(8) + 1,
        None => 1,
    }
}

/// Whether a channel begins to wait.
pub(crate) fn is_wait(deed: Deed) -> bool
    ensures { result ≡ model.is_wait deed }
{
    match deed {
        Deed::Waits => true,
        Deed::Acts | Deed::GoesOn | Deed::Ends => false,
    }
}

impl Lanes {
    /// The lanes of a picture at a place of the drawing.
    #[tactic(auto, unfolding(crate::specs::Times::lanes_of))]
    pub(crate) fn of(picture: &Picture, top: i64, letter: i64) -> Lanes
        ensures { result ≡ model.lanes_of picture.now top letter }
    {
        Lanes {
            top,
            letter,
            steps: steps_in(picture.moments.as_slice()),
            free: free_lane(picture.channels.as_slice()),
        }
    }

    /// Whether lanes have room for whole blocks, since there are few channels.
    pub(crate) fn has_room(&self) -> bool
        ensures { result ≡ model.has_room self.now }
    {
        self.free <= 4
    }

    /// How many letters it is from one lane to the next.
    fn spacing(&self) -> i64
        ensures { result ≡ model.spacing_of self.now }
    {
        if self.has_room() { 12 } else { 6 }
    }

    /// Whether blocks are written.
    pub(crate) fn is_labelled(&self) -> bool
        ensures { result ≡ model.is_labelled self.now }
    {
        self.steps <= LABEL_LIMIT
    }

    /// How far it is from one step to the next.
    #[tactic(auto, unfolding(crate::specs::Times::row_of))]
    fn row(&self) -> i64
        ensures { result ≡ model.row_of self.now }
    {
        if self.is_labelled() {
            self.letter.saturating_mul(3) / 2
        } else {
            self.letter / 2
        }
    }

    /// Where a step stands downwards.
    #[tactic(auto, unfolding(crate::specs::Times::y_of))]
    pub(crate) fn y(&self, step: u32) -> i64
        ensures { result ≡ model.y_of self.now step }
    {
        self.top
            .saturating_add(self.letter.saturating_mul(2))
            .saturating_add(self.row().saturating_mul(i64::from(step)))
    }

    /// Where the lanes end.
    pub(crate) fn bottom(&self) -> i64
        ensures { result ≡ model.bottom_of self.now }
    {
        self.y(self.steps)
    }

    /// Where a lane stands across: the first one four letters from the left edge.
    #[tactic(auto, unfolding(crate::specs::Times::x_of))]
    pub(crate) fn x(&self, lane: u8) -> i64
        ensures { result ≡ model.x_of self.now lane }
    {
        let letters = self
            .spacing()
            .saturating_mul(i64::from(lane.saturating_sub(1)))
            .saturating_add(4);
        self.letter.saturating_mul(letters)
    }

    /// Where a moment stands.
    pub(crate) fn place_of(&self, moment: &Moment) -> (i64, i64)
        ensures { result ≡ model.place_of self.now moment.now }
    {
        (self.x(moment.channel), self.y(moment.step))
    }

    /// Where the name of a channel stands.
    fn name_place(&self, channel: u8) -> (i64, i64)
        ensures { result ≡ model.name_place self.now channel }
    {
        (self.x(channel), self.top)
    }

    /// Where the lane of a channel begins.
    fn lane_start(&self, channel: u8) -> (i64, i64)
        ensures { result ≡ model.lane_start self.now channel }
    {
        (self.x(channel), self.top.saturating_add(self.letter / 2))
    }

    /// Where the lane of a channel ends.
    fn lane_end(&self, channel: u8) -> (i64, i64)
        ensures { result ≡ model.lane_end self.now channel }
    {
        (self.x(channel), self.bottom())
    }

    /// Writes the name of a channel over its lane.
    #[tactic(auto, unfolding(crate::specs::Times::name_text))]
    fn put_name(&self, text: &mut Text, channel: u8)
        ensures { text.new ≡ text.old ++ model.name_text self.now channel }
    {
        text.say("<text class=\"name c");
        text.number(u64::from(channel));
        text.say("\"");
        put_place(text, self.name_place(channel));
    }

    /// Writes a lane.
    #[tactic(auto, unfolding(crate::specs::Times::line_text))]
    fn put_line(&self, text: &mut Text, channel: u8)
        ensures { text.new ≡ text.old ++ model.line_text self.now channel }
    {
        text.say("</text>\n<line class=\"lane\"");
        put_ends(text, self.lane_start(channel), self.lane_end(channel));
    }

    /// Writes the lane of a channel with its name.
    #[tactic(auto, unfolding(crate::specs::Times::lane_text))]
    fn put_lane(&self, text: &mut Text, channel: u8)
        ensures { text.new ≡ text.old ++ model.lane_text self.now channel }
    {
        self.put_name(text, channel);
        text.say("channel ");
        text.number(u64::from(channel));
        self.put_line(text, channel);
    }

    /// Writes the lanes.
    pub(crate) fn put_lanes(&self, text: &mut Text, channels: &[u8])
        ensures { text.new ≡ text.old ++ flat_map (model.lane_text self.now) channels.now }
    {
        for channel in channels {
            self.put_lane(text, *channel);
        }
    }

    /// The radius of a point.
    fn radius(&self) -> i64
        ensures { result ≡ model.radius_of self.now }
    {
        self.letter / 3
    }

    /// Writes where a point stands and how large it is.
    #[tactic(auto, unfolding(crate::specs::Times::disc_text))]
    fn put_disc(&self, text: &mut Text, at: (i64, i64))
        ensures { text.new ≡ text.old ++ model.disc_text self.now at }
    {
        put_round(text, at, self.radius());
    }

    /// Writes a point.
    #[tactic(auto, unfolding(crate::specs::Times::dot_text))]
    fn put_dot(&self, text: &mut Text, class: &str, at: (i64, i64))
        ensures { text.new ≡ text.old ++ model.dot_text self.now class.now at }
    {
        text.say("<circle class=\"");
        text.say(class);
        text.say("\"");
        self.put_disc(text, at);
    }

    /// The upper left corner of a square around a place.
    #[tactic(auto, unfolding(crate::specs::Times::square_corner))]
    fn square_corner(&self, at: (i64, i64)) -> (i64, i64)
        ensures { result ≡ model.square_corner self.now at }
    {
        (
            at.0.saturating_sub(self.letter / 3),
            at.1.saturating_sub(self.letter / 3),
        )
    }

    /// The size of a square.
    #[tactic(auto, unfolding(crate::specs::Times::square_size))]
    fn square_size(&self) -> (i64, i64)
        ensures { result ≡ model.square_size self.now }
    {
        let size = (self.letter / 3).saturating_mul(2);
        (size, size)
    }

    /// Writes a square.
    #[tactic(auto, unfolding(crate::specs::Times::square_text))]
    fn put_square(&self, text: &mut Text, at: (i64, i64))
        ensures { text.new ≡ text.old ++ model.square_text self.now at }
    {
        text.say("<rect class=\"act\"");
        put_box(text, self.square_corner(at), self.square_size());
    }

    /// Writes what a channel does: a filled point where it acts, an empty one where it begins to wait, a green one where it goes
    /// on, a square at its end.
    #[tactic(auto, unfolding(crate::specs::Times::deed_text))]
    pub(crate) fn put_deed(&self, text: &mut Text, deed: Deed, at: (i64, i64))
        ensures { text.new ≡ text.old ++ model.deed_text self.now deed at }
    {
        match deed {
            Deed::Acts => self.put_dot(text, "act", at),
            Deed::Waits => self.put_dot(text, "wait", at),
            Deed::GoesOn => self.put_dot(text, "go", at),
            Deed::Ends => self.put_square(text, at),
        }
    }

    /// Where the channel stands whose block makes the step of a moment.
    fn actor_place(&self, moment: &Moment) -> (i64, i64)
        ensures { result ≡ model.actor_place self.now moment.now }
    {
        (self.x(moment.actor), self.y(moment.step))
    }

    /// Writes the line from the channel whose block makes a step to one that goes on in it.
    #[tactic(auto, unfolding(crate::specs::Times::link_text))]
    fn put_link(&self, text: &mut Text, moment: &Moment)
        ensures { text.new ≡ text.old ++ model.link_text self.now moment.now }
    {
        text.say("<line class=\"join\"");
        put_ends(text, self.actor_place(moment), self.place_of(moment));
    }

    /// Writes that line where another channel goes on.
    #[tactic(auto, unfolding(crate::specs::Times::join_text))]
    pub(crate) fn put_join(&self, text: &mut Text, moment: &Moment)
        ensures { text.new ≡ text.old ++ model.join_text self.now moment.now }
    {
        if moment.actor != moment.channel {
            self.put_link(text, moment);
        }
    }

    /// Where the block of a moment stands: to the right of its point, and a little over it.
    #[tactic(auto, unfolding(crate::specs::Times::label_place))]
    pub(crate) fn label_place(&self, moment: &Moment) -> (i64, i64)
        ensures { result ≡ model.label_place self.now moment.now }
    {
        let at = self.place_of(moment);
        (
            at.0.saturating_add(self.letter),
            at.1.saturating_sub(self.letter / 6),
        )
    }
}
