//! A view of a picture: one direction of space upwards over another across.
ghost use Rattle.std.specs.Prelude.{◌≡◌, ◌++◌, option_copied};
ghost use Rattle.explain_views.specs.Views.{first_track_of, large_flag, sweep_flag, up_name, way_class, way_colour};

use crate::extents::{Extent, along, bounds_of, extent_of};
use crate::marks::{
    length_of, pale_class, put_box, put_ends, put_look, put_number, put_place, put_point_class,
    put_round,
};
use crate::shapes::{Look, Picture, Tile, Track, Turn};
use crate::turns::{is_clockwise, is_in_plane, is_large, opposite};
use growing_text::Text;

/// A view: its two directions, what it shows of them, and where it stands in the drawing.
#[derive(Clone, Copy)]
pub struct View {
    /// The direction that goes across, to the right.
    pub across: usize,
    /// The direction that goes upwards.
    pub up: usize,
    /// How far it shows the first.
    pub wide: Extent,
    /// How far it shows the second.
    pub tall: Extent,
    /// Where its left edge stands.
    pub left: i64,
    /// Where its upper edge stands.
    pub top: i64,
    /// The size of a letter.
    pub letter: i64,
}

impl View {
    ghost use Rattle.explain_views.specs.Views as model;

    /// The view of a picture over Z whose left edge is four letters from that of the drawing.
    #[tactic(auto, unfolding(crate::specs::Views::view_of))]
    pub fn of(picture: &Picture, up: usize, top: i64, letter: i64) -> View
        ensures { result ≡ model.view_of picture.now up top letter }
    {
        View {
            across: 2,
            up,
            wide: extent_of(picture, 2),
            tall: extent_of(picture, up),
            left: letter.saturating_mul(4),
            top,
            letter,
        }
    }

    /// Where its right edge stands.
    pub(crate) fn right(&self) -> i64
        ensures { result ≡ model.right_of self.now }
    {
        self.left.saturating_add(self.wide.length())
    }

    /// Where its lower edge stands.
    pub fn bottom(&self) -> i64
        ensures { result ≡ model.bottom_of self.now }
    {
        self.top.saturating_add(self.tall.length())
    }

    /// The place of the drawing across.
    #[tactic(auto, unfolding(crate::specs::Views::x_of))]
    pub(crate) fn x(&self, place: i64) -> i64
        ensures { result ≡ model.x_of self.now place }
    {
        self.left
            .saturating_add(place.saturating_sub(self.wide.low))
    }

    /// The place of the drawing downwards.
    #[tactic(auto, unfolding(crate::specs::Views::y_of))]
    pub(crate) fn y(&self, place: i64) -> i64
        ensures { result ≡ model.y_of self.now place }
    {
        self.top
            .saturating_add(self.tall.high.saturating_sub(place))
    }

    /// Writes the point of a place in space.
    #[tactic(auto, unfolding(crate::specs::Views::point_text))]
    fn put_point(&self, text: &mut Text, at: &[i64; 3])
        ensures { text.new ≡ text.old ++ model.point_text self.now at.now }
    {
        put_number(text, self.x(along(at, self.across)));
        text.say(" ");
        put_number(text, self.y(along(at, self.up)));
    }

    /// The upper left corner of a box.
    #[tactic(auto, unfolding(crate::specs::Views::corner_of))]
    fn corner_of(&self, tile: &Tile) -> (i64, i64)
        ensures { result ≡ model.corner_of self.now tile.now }
    {
        let (left, _) = bounds_of(tile, self.across);
        let (_, high) = bounds_of(tile, self.up);
        (self.x(left), self.y(high))
    }

    /// How far a box reaches.
    #[tactic(auto, unfolding(crate::specs::Views::size_of))]
    fn size_of(&self, tile: &Tile) -> (i64, i64)
        ensures { result ≡ model.size_of self.now tile.now }
    {
        let (left, right) = bounds_of(tile, self.across);
        let (low, high) = bounds_of(tile, self.up);
        (length_of(left, right), length_of(low, high))
    }

    /// Writes a box from its upper left corner on, as far as it reaches.
    #[tactic(auto, unfolding(crate::specs::Views::tile_text))]
    pub fn put_tile(&self, text: &mut Text, tile: &Tile)
        ensures { text.new ≡ text.old ++ model.tile_text self.now tile.now }
    {
        text.say("<rect class=\"");
        text.say(pale_class(tile.is_pale));
        put_look(text, tile.look);
        text.say("\"");
        put_box(text, self.corner_of(tile), self.size_of(tile));
    }

    /// How far below the upper edge of a box its name stands.
    #[tactic(auto, unfolding(crate::specs::Views::label_depth))]
    fn label_depth(&self, tile: &Tile) -> i64
        ensures { result ≡ model.label_depth self.now tile.now }
    {
        match tile.look {
            Look::Held(_) | Look::Free | Look::First => self.letter,
            Look::Second => self.size_of(tile).1.saturating_sub(self.letter / 3),
        }
    }

    /// Where the name of a box stands.
    #[tactic(auto, unfolding(crate::specs::Views::label_place))]
    pub fn label_place(&self, tile: &Tile) -> (i64, i64)
        ensures { result ≡ model.label_place self.now tile.now }
    {
        let corner = self.corner_of(tile);
        (
            corner.0.saturating_add(self.letter / 3),
            corner.1.saturating_add(self.label_depth(tile)),
        )
    }

    /// Writes a straight way to a place.
    #[tactic(auto, unfolding(crate::specs::Views::straight_text))]
    fn put_straight(&self, text: &mut Text, to: &[i64; 3])
        ensures { text.new ≡ text.old ++ model.straight_text self.now to.now }
    {
        text.say(" L ");
        self.put_point(text, to);
    }

    /// Writes the two radii of an arc.
    #[tactic(auto, unfolding(crate::specs::Views::radii_text))]
    fn put_radii(&self, text: &mut Text, turn: &Turn)
        ensures { text.new ≡ text.old ++ model.radii_text turn.now }
    {
        text.say(" A ");
        text.number(u64::from(turn.radius));
        text.say(" ");
        text.number(u64::from(turn.radius));
    }

    /// Writes which of the arcs from a place to another is meant.
    #[tactic(auto, unfolding(crate::specs::Views::flags_text))]
    fn put_flags(&self, text: &mut Text, turn: &Turn, large: bool)
        ensures { text.new ≡ text.old ++ model.flags_text self.now turn.now large }
    {
        text.say(large_flag(large));
        text.say(sweep_flag(is_clockwise(turn, self.up)));
    }

    /// Writes an arc to a place.
    #[tactic(auto, unfolding(crate::specs::Views::arc_text))]
    fn put_arc(&self, text: &mut Text, turn: &Turn, large: bool, to: &[i64; 3])
        ensures { text.new ≡ text.old ++ model.arc_text self.now turn.now large to.now }
    {
        self.put_radii(text, turn);
        self.put_flags(text, turn, large);
        self.put_point(text, to);
    }

    /// Writes a turn, a whole one in two halves.
    #[tactic(auto, unfolding(crate::specs::Views::turn_text))]
    fn put_turn(&self, text: &mut Text, turn: &Turn, track: &Track)
        ensures { text.new ≡ text.old ++ model.turn_text self.now turn.now track.now }
    {
        if turn.full {
            self.put_arc(text, turn, false, &opposite(turn, &track.from));
            self.put_arc(text, turn, false, &track.to);
        } else {
            self.put_arc(text, turn, is_large(turn, track), &track.to);
        }
    }

    /// Writes a turn as an arc where the view shows it so.
    #[tactic(auto, unfolding(crate::specs::Views::bent_text))]
    fn put_bent(&self, text: &mut Text, turn: &Turn, track: &Track)
        ensures { text.new ≡ text.old ++ model.bent_text self.now turn.now track.now }
    {
        if is_in_plane(turn, self.across, self.up) {
            self.put_turn(text, turn, track);
        } else {
            self.put_straight(text, &track.to);
        }
    }

    /// Writes how a way goes on from its start.
    #[tactic(auto, unfolding(crate::specs::Views::way_text))]
    fn put_way(&self, text: &mut Text, track: &Track)
        ensures { text.new ≡ text.old ++ model.way_text self.now track.now }
    {
        match &track.turn {
            Some(turn) => self.put_bent(text, turn, track),
            None => self.put_straight(text, &track.to),
        }
    }

    /// Writes where a way starts.
    #[tactic(auto, unfolding(crate::specs::Views::way_start))]
    fn put_way_start(&self, text: &mut Text, track: &Track)
        ensures { text.new ≡ text.old ++ model.way_start self.now track.now }
    {
        put_way_colour(text, track);
        text.say("\" d=\"M ");
        self.put_point(text, &track.from);
    }

    /// Writes a way.
    #[tactic(auto, unfolding(crate::specs::Views::track_text))]
    pub fn put_track(&self, text: &mut Text, track: &Track)
        ensures { text.new ≡ text.old ++ model.track_text self.now track.now }
    {
        self.put_way_start(text, track);
        self.put_way(text, track);
        text.say("\"/>\n");
    }

    /// Where a way begins.
    #[tactic(auto, unfolding(crate::specs::Views::start_of))]
    fn start_of(&self, track: &Track) -> (i64, i64)
        ensures { result ≡ model.start_of self.now track.now }
    {
        (
            self.x(along(&track.from, self.across)),
            self.y(along(&track.from, self.up)),
        )
    }

    /// Writes the place at which a way begins.
    #[tactic(auto, unfolding(crate::specs::Views::start_text))]
    fn put_start(&self, text: &mut Text, track: &Track)
        ensures { text.new ≡ text.old ++ model.start_text self.now track.now }
    {
        put_point_class(text, track.channel);
        put_round(text, self.start_of(track), self.letter / 3);
    }

    /// Writes the place at which the first way of a channel begins.
    #[tactic(auto, unfolding(crate::specs::Views::first_start))]
    fn put_first_start(&self, text: &mut Text, tracks: &[Track], channel: u8)
        ensures { text.new ≡ text.old ++ model.first_start self.now tracks.now channel }
    {
        if let Some(track) = first_track(tracks, channel) {
            self.put_start(text, track);
        }
    }

    /// Writes the first place of each of these channels.
    #[tactic(auto, unfolding(crate::specs::Views::starts_text))]
    pub fn put_starts(&self, text: &mut Text, tracks: &[Track], channels: &[u8])
        ensures { text.new ≡ text.old ++ model.starts_text self.now tracks.now channels.now }
    {
        for channel in channels {
            self.put_first_start(text, tracks, *channel);
        }
    }

    /// Where the line begins on which the direction upwards is 0.
    fn level_start(&self) -> (i64, i64)
        ensures { result ≡ model.level_start self.now }
    {
        (self.left, self.y(0))
    }

    /// Where it ends.
    fn level_end(&self) -> (i64, i64)
        ensures { result ≡ model.level_end self.now }
    {
        (self.right(), self.y(0))
    }

    /// Where the line begins on which the direction across is 0.
    fn upright_start(&self) -> (i64, i64)
        ensures { result ≡ model.upright_start self.now }
    {
        (self.x(0), self.top)
    }

    /// Where it ends.
    fn upright_end(&self) -> (i64, i64)
        ensures { result ≡ model.upright_end self.now }
    {
        (self.x(0), self.bottom())
    }

    /// Writes the line on which the direction upwards is 0.
    #[tactic(auto, unfolding(crate::specs::Views::level_text))]
    fn put_level(&self, text: &mut Text)
        ensures { text.new ≡ text.old ++ model.level_text self.now }
    {
        self.put_rule(text, self.level_start(), self.level_end());
    }

    /// Writes the line on which the direction across is 0.
    #[tactic(auto, unfolding(crate::specs::Views::upright_text))]
    fn put_upright(&self, text: &mut Text)
        ensures { text.new ≡ text.old ++ model.upright_text self.now }
    {
        self.put_rule(text, self.upright_start(), self.upright_end());
    }

    /// Writes the two lines on which one of the directions is 0.
    #[tactic(auto, unfolding(crate::specs::Views::rules_text))]
    fn put_rules(&self, text: &mut Text)
        ensures { text.new ≡ text.old ++ model.rules_text self.now }
    {
        self.put_level(text);
        self.put_upright(text);
    }

    /// Writes a thin line.
    #[tactic(auto, unfolding(crate::specs::Views::rule_text))]
    fn put_rule(&self, text: &mut Text, from: (i64, i64), to: (i64, i64))
        ensures { text.new ≡ text.old ++ model.rule_text from to }
    {
        text.say("<line class=\"axis\"");
        put_ends(text, from, to);
    }

    /// Where the name of the direction across stands.
    #[tactic(auto, unfolding(crate::specs::Views::across_place))]
    fn across_place(&self) -> (i64, i64)
        ensures { result ≡ model.across_place self.now }
    {
        (
            self.right().saturating_add(self.letter / 3),
            self.y(0).saturating_add(self.letter / 3),
        )
    }

    /// Where the name of the direction upwards stands.
    #[tactic(auto, unfolding(crate::specs::Views::up_place))]
    fn up_place(&self) -> (i64, i64)
        ensures { result ≡ model.up_place self.now }
    {
        (self.x(0), self.top.saturating_sub(self.letter / 3))
    }

    /// Writes the names of both directions at the ends of their lines.
    #[tactic(auto, unfolding(crate::specs::Views::names_text))]
    fn put_names(&self, text: &mut Text)
        ensures { text.new ≡ text.old ++ model.names_text self.now }
    {
        text.say("<text");
        put_place(text, self.across_place());
        text.say("Z mm</text>\n<text class=\"mid\"");
        put_place(text, self.up_place());
        text.say(up_name(self.up));
    }

    /// Writes the lines on which the directions are 0, with their names.
    #[tactic(auto, unfolding(crate::specs::Views::axes_text))]
    pub fn put_axes(&self, text: &mut Text)
        ensures { text.new ≡ text.old ++ model.axes_text self.now }
    {
        self.put_rules(text);
        self.put_names(text);
    }
}

/// The first way of a channel; none where it has none.
fn first_track(tracks: &[Track], channel: u8) -> Option<&Track>
    ensures { option_copied result ≡ first_track_of tracks.now channel }
{
    tracks.iter().find(|track| track.channel == channel)
}

/// The class of a way, up to the number of its channel.
fn way_class(rapid: bool) -> &'static str
    ensures { result.now ≡ way_class rapid }
{
    if rapid { "t r d" } else { "t d" }
}

/// Writes the classes of a way, the last of them the colour of its channel.
#[tactic(auto, unfolding(crate::specs::Views::way_colour))]
fn put_way_colour(text: &mut Text, track: &Track)
    ensures { text.new ≡ text.old ++ way_colour track.now }
{
    text.say("<path class=\"");
    text.say(pale_class(track.is_pale));
    text.say(way_class(track.is_rapid));
    text.number(u64::from(track.channel));
}

/// Whether an arc is more than half a circle, as a path says it.
fn large_flag(large: bool) -> &'static str
    ensures { result.now ≡ large_flag large }
{
    if large { " 0 1 " } else { " 0 0 " }
}

/// Whether an arc is clockwise, as a path says it.
fn sweep_flag(clockwise: bool) -> &'static str
    ensures { result.now ≡ sweep_flag clockwise }
{
    if clockwise { "1 " } else { "0 " }
}

/// The name of the direction upwards, with the end of its text.
fn up_name(up: usize) -> &'static str
    ensures { result.now ≡ up_name up }
{
    if up == 1 {
        "Y mm</text>\n"
    } else {
        "X mm</text>\n"
    }
}
