//! What the channels do in their lanes, and the spans that the verdict names.
ghost use Rattle.std.specs.Prelude.{◌≡◌, ◌++◌, flat_map};
ghost use Rattle.explain_drawing.specs.Space.{hover_text};
ghost use Rattle.explain_drawing.specs.Times as model;

use crate::times::{Lanes, is_wait};
use crate::words::{first_semicolon, front, put_block, put_name, put_zone};
use axis_sets::ChannelId;
use explain_lines::Lines;
use explain_places::Told;
use explain_views::{Deed, Moment, Picture, Span, put_ends, put_place, put_round, put_shown};
use growing_text::Text;
use sync_types::Verdict;

/// What stands before the first semicolon of a line.
#[tactic(auto, unfolding(crate::specs::Times::code_of))]
fn code_of(text: &[u8]) -> &[u8]
    ensures { result.now ≡ model.code_of text.now }
{
    match first_semicolon(text) {
        Some(place) => front(text, place),
        None => text,
    }
}

/// What a channel does, in words.
#[tactic(auto, unfolding(crate::specs::Times::deed_words))]
fn deed_words(deed: Deed) -> &'static str
    ensures { result.now ≡ model.deed_words deed }
{
    match deed {
        Deed::Acts => " goes on at once",
        Deed::Waits => " begins to wait",
        Deed::GoesOn => " goes on",
        Deed::Ends => " ends",
    }
}

/// Writes a block, if there is one.
#[tactic(auto, unfolding(crate::specs::Times::at_words))]
fn put_at(text: &mut Text, told: &Told, line: u32)
    ensures { text.new ≡ text.old ++ model.at_words told.now.lines.now told.now.job.now line }
{
    if line != 0 {
        text.say(": ");
        put_block(text, told, line);
    }
}

/// Writes the step of a moment, and its channel.
#[tactic(auto, unfolding(crate::specs::Times::step_words))]
fn put_step(text: &mut Text, moment: &Moment)
    ensures { text.new ≡ text.old ++ model.step_words moment.now }
{
    text.say("step ");
    text.number(u64::from(moment.step));
    text.say(", channel ");
    text.number(u64::from(moment.channel));
}

/// Writes what there is to know of a moment: its step, its channel, what that does, and its block.
#[tactic(auto, unfolding(crate::specs::Times::moment_words))]
fn put_moment_words(text: &mut Text, told: &Told, moment: &Moment)
    ensures { text.new ≡ text.old ++ model.moment_words told.now.lines.now told.now.job.now moment.now }
{
    put_step(text, moment);
    text.say(deed_words(moment.deed));
    put_at(text, told, moment.line);
}

/// Begins a moment with these words.
#[tactic(auto, unfolding(crate::specs::Space::hover_text))]
fn put_moment_hover(text: &mut Text, told: &Told, moment: &Moment)
    ensures { text.new ≡ text.old
        ++ hover_text (model.moment_words told.now.lines.now told.now.job.now moment.now) }
{
    text.say("<g><title>");
    put_moment_words(text, told, moment);
    text.say("</title>\n");
}

/// Whether a place of a race is that of a moment.
fn is_place_of(place: (ChannelId, u32), moment: &Moment) -> bool
    ensures { result ≡ model.is_place_of place moment.now }
{
    place.0.number == moment.channel && place.1 == moment.line
}

/// Whether a moment is one of the two places of a race.
#[tactic(auto, unfolding(crate::specs::Times::is_raced))]
fn is_raced(verdict: &Verdict, moment: &Moment) -> bool
    ensures { result ≡ model.is_raced verdict.now moment.now }
{
    match verdict {
        Verdict::Race(race) => is_place_of(race.first, moment) || is_place_of(race.second, moment),
        Verdict::Alarm(_, _)
        | Verdict::Stuck(_, _)
        | Verdict::Undecided { .. }
        | Verdict::No(_, _)
        | Verdict::Yes => false,
    }
}

/// Whether the verdict says that channels stop before their ends.
fn is_stop(verdict: &Verdict) -> bool
    ensures { result ≡ model.is_stop verdict.now }
{
    match verdict {
        Verdict::Alarm(_, _) | Verdict::Stuck(_, _) => true,
        Verdict::Race(_) | Verdict::Undecided { .. } | Verdict::No(_, _) | Verdict::Yes => false,
    }
}

/// A moment in place of an earlier one, if it is of the channel.
fn later_moment(earlier: Option<Moment>, moment: &Moment, channel: u8) -> Option<Moment>
    ensures { result ≡ model.later_moment channel earlier moment.now }
{
    if moment.channel == channel {
        Some(*moment)
    } else {
        earlier
    }
}

/// The last moment of a channel; none where it has none.
#[tactic(auto, unfolding(crate::specs::Times::last_moment))]
fn last_moment(moments: &[Moment], channel: u8) -> Option<Moment>
    ensures { result ≡ model.last_moment moments.now channel }
{
    let mut last = None;
    for moment in moments {
        last = later_moment(last, moment, channel);
    }
    last
}

/// Writes the zone of a span and its block.
#[tactic(auto, unfolding(crate::specs::Times::span_words))]
fn put_span_words(text: &mut Text, told: &Told, span: &Span)
    ensures { text.new ≡ text.old ++ model.span_words told.now.lines.now told.now.job.now span.now }
{
    put_zone(text, &span.name);
    text.say(", ");
    put_name(text, told, &span.name);
}

/// Begins a span with these words.
#[tactic(auto, unfolding(crate::specs::Space::hover_text))]
fn put_span_hover(text: &mut Text, told: &Told, span: &Span)
    ensures { text.new ≡ text.old ++ hover_text (model.span_words told.now.lines.now told.now.job.now span.now) }
{
    text.say("<g><title>");
    put_span_words(text, told, span);
    text.say("</title>\n");
}

impl Lanes {
    /// How many bytes of a block have room beside its point.
    fn room(&self) -> usize
        ensures { result ≡ model.room_of self.now }
    {
        if self.has_room() { 24 } else { 12 }
    }

    /// A block without its comment, as far as there is room.
    #[tactic(auto, unfolding(crate::specs::Times::block_front))]
    fn block_front<'a>(&self, text: &'a [u8]) -> &'a [u8]
        ensures { result.now ≡ model.block_front self.now text.now }
    {
        front(code_of(text), self.room())
    }

    /// Writes the block of a moment.
    #[tactic(auto, unfolding(crate::specs::Times::block_text))]
    fn put_block(&self, text: &mut Text, lines: &Lines, moment: &Moment)
        ensures { text.new ≡ text.old ++ model.block_text lines.now self.now moment.now }
    {
        text.say("<text class=\"step\"");
        put_place(text, self.label_place(moment));
        put_shown(text, self.block_front(lines.text(moment.line)));
        text.say("</text>\n");
    }

    /// Writes the block of a moment, where it has one and blocks are written.
    #[tactic(auto, unfolding(crate::specs::Times::label_text))]
    fn put_label(&self, text: &mut Text, lines: &Lines, moment: &Moment)
        ensures { text.new ≡ text.old ++ model.label_text lines.now self.now moment.now }
    {
        if self.is_labelled() && moment.line != 0 {
            self.put_block(text, lines, moment);
        }
    }

    /// Writes the point of a moment with its words.
    #[tactic(auto, unfolding(crate::specs::Times::point_part))]
    fn put_point(&self, text: &mut Text, told: &Told, moment: &Moment)
        ensures { text.new ≡ text.old
            ++ model.point_part told.now.lines.now told.now.job.now self.now moment.now }
    {
        put_moment_hover(text, told, moment);
        self.put_deed(text, moment.deed, self.place_of(moment));
        text.say("</g>\n");
    }

    /// The radius of a ring.
    #[tactic(auto, unfolding(crate::specs::Times::ring_radius))]
    fn ring_radius(&self) -> i64
        ensures { result ≡ model.ring_radius self.now }
    {
        (self.letter / 5).saturating_mul(3)
    }

    /// Writes where a ring stands and how large it is.
    #[tactic(auto, unfolding(crate::specs::Times::hoop_text))]
    fn put_hoop(&self, text: &mut Text, at: (i64, i64))
        ensures { text.new ≡ text.old ++ model.hoop_text self.now at }
    {
        put_round(text, at, self.ring_radius());
    }

    /// Writes a red ring around a point.
    #[tactic(auto, unfolding(crate::specs::Times::ring_text))]
    fn put_ring(&self, text: &mut Text, at: (i64, i64))
        ensures { text.new ≡ text.old ++ model.ring_text self.now at }
    {
        text.say("<circle class=\"bad\"");
        self.put_hoop(text, at);
    }

    /// Writes a ring around a place of a race.
    #[tactic(auto, unfolding(crate::specs::Times::raced_text))]
    fn put_raced(&self, text: &mut Text, verdict: &Verdict, moment: &Moment)
        ensures { text.new ≡ text.old ++ model.raced_text verdict.now self.now moment.now }
    {
        if is_raced(verdict, moment) {
            self.put_ring(text, self.place_of(moment));
        }
    }

    /// Writes a moment: the line to the channel by whose step it goes on, its point, and its block.
    #[tactic(auto, unfolding(crate::specs::Times::moment_text))]
    fn put_moment(&self, text: &mut Text, told: &Told, moment: &Moment)
        ensures { text.new ≡ text.old
            ++ model.moment_text told.now.lines.now told.now.job.now self.now moment.now }
    {
        self.put_join(text, moment);
        self.put_point(text, told, moment);
        self.put_label(text, told.lines, moment);
    }

    /// Writes a moment, with a ring where the verdict names it.
    #[tactic(auto, unfolding(crate::specs::Times::moment_part))]
    fn put_ringed(&self, text: &mut Text, told: &Told, verdict: &Verdict, moment: &Moment)
        ensures { text.new ≡ text.old
            ++ model.moment_part told.now.lines.now told.now.job.now verdict.now self.now moment.now }
    {
        self.put_raced(text, verdict, moment);
        self.put_moment(text, told, moment);
    }

    /// Writes what the channels do in each step.
    #[tactic(auto, unfolding(crate::specs::Times::moments_part))]
    fn put_moments(&self, text: &mut Text, told: &Told, verdict: &Verdict, moments: &[Moment])
        ensures { text.new ≡ text.old
            ++ model.moments_part told.now.lines.now told.now.job.now verdict.now self.now moments.now }
    {
        for moment in moments {
            self.put_ringed(text, told, verdict, moment);
        }
    }

    /// Writes a ring around the last moment of a channel where it begins to wait.
    #[tactic(auto, unfolding(crate::specs::Times::last_ring))]
    fn put_last_ring(&self, text: &mut Text, moment: &Moment)
        ensures { text.new ≡ text.old ++ model.last_ring self.now moment.now }
    {
        if is_wait(moment.deed) {
            self.put_ring(text, self.place_of(moment));
        }
    }

    /// Writes a ring where a channel waits for good.
    #[tactic(auto, unfolding(crate::specs::Times::end_part))]
    fn put_end(&self, text: &mut Text, moments: &[Moment], channel: u8)
        ensures { text.new ≡ text.old ++ model.end_part self.now moments.now channel }
    {
        if let Some(moment) = last_moment(moments, channel) {
            self.put_last_ring(text, &moment);
        }
    }

    /// Writes a ring where each of these channels waits for good.
    fn put_each_end(&self, text: &mut Text, moments: &[Moment], channels: &[u8])
        ensures { text.new ≡ text.old ++ flat_map (model.end_part self.now moments.now) channels.now }
    {
        for channel in channels {
            self.put_end(text, moments, *channel);
        }
    }

    /// Writes rings where channels wait for good, where the verdict is of these. The last moments are not known where the picture
    /// is cut.
    #[tactic(auto, unfolding(crate::specs::Times::ends_part))]
    fn put_all_ends(&self, text: &mut Text, verdict: &Verdict, picture: &Picture)
        ensures { text.new ≡ text.old ++ model.ends_part verdict.now self.now picture.now }
    {
        if is_stop(verdict) && !picture.is_cut {
            self.put_each_end(
                text,
                picture.moments.as_slice(),
                picture.channels.as_slice(),
            );
        }
    }

    /// The lane of a span.
    fn lane_of(&self, span: &Span) -> u8
        ensures { result ≡ model.lane_of self.now span.now }
    {
        match span.name.channel {
            Some(channel) => channel.number,
            None => self.free,
        }
    }

    /// Where a span begins: with the job where it begins with no event.
    #[tactic(auto, unfolding(crate::specs::Times::span_start))]
    fn span_start(&self, span: &Span) -> (i64, i64)
        ensures { result ≡ model.span_start self.now span.now }
    {
        let top = match span.first {
            Some(step) => self.y(step),
            None => self.top.saturating_add(self.letter / 2),
        };
        (self.x(self.lane_of(span)), top)
    }

    /// Where it ends: at the end of the lanes where it lasts.
    #[tactic(auto, unfolding(crate::specs::Times::span_end))]
    fn span_end(&self, span: &Span) -> (i64, i64)
        ensures { result ≡ model.span_end self.now span.now }
    {
        let foot = match span.last {
            Some(step) => self.y(step),
            None => self.bottom(),
        };
        (self.x(self.lane_of(span)), foot)
    }

    /// Writes the line of a span.
    #[tactic(auto, unfolding(crate::specs::Times::span_line))]
    fn put_span_line(&self, text: &mut Text, span: &Span)
        ensures { text.new ≡ text.old ++ model.span_line self.now span.now }
    {
        text.say("<line class=\"span\"");
        put_ends(text, self.span_start(span), self.span_end(span));
    }

    /// Writes a span in red with its words.
    #[tactic(auto, unfolding(crate::specs::Times::span_part))]
    fn put_span_part(&self, text: &mut Text, told: &Told, span: &Span)
        ensures { text.new ≡ text.old ++ model.span_part told.now.lines.now told.now.job.now self.now span.now }
    {
        put_span_hover(text, told, span);
        self.put_span_line(text, span);
        text.say("</g>\n");
    }

    /// Where the zone of a span stands: beside its beginning.
    #[tactic(auto, unfolding(crate::specs::Times::span_place))]
    fn span_place(&self, span: &Span) -> (i64, i64)
        ensures { result ≡ model.span_place self.now span.now }
    {
        let start = self.span_start(span);
        (
            start.0.saturating_sub(self.letter / 2),
            start.1.saturating_add(self.letter),
        )
    }

    /// Writes the zone of a span beside it.
    #[tactic(auto, unfolding(crate::specs::Times::span_label))]
    fn put_span_label(&self, text: &mut Text, span: &Span)
        ensures { text.new ≡ text.old ++ model.span_label self.now span.now }
    {
        text.say("<text class=\"step end bad\"");
        put_place(text, self.span_place(span));
        text.say("zone ");
        text.number(u64::from(span.name.zone.number));
        text.say("</text>\n");
    }

    /// Writes a span in red, and its zone beside it.
    #[tactic(auto, unfolding(crate::specs::Times::span_text))]
    fn put_span(&self, text: &mut Text, told: &Told, span: &Span)
        ensures { text.new ≡ text.old ++ model.span_text told.now.lines.now told.now.job.now self.now span.now }
    {
        self.put_span_part(text, told, span);
        self.put_span_label(text, span);
    }

    /// Writes the spans that the verdict names.
    #[tactic(auto, unfolding(crate::specs::Times::spans_part))]
    fn put_spans(&self, text: &mut Text, told: &Told, spans: &[Span])
        ensures { text.new ≡ text.old
            ++ model.spans_part told.now.lines.now told.now.job.now self.now spans.now }
    {
        for span in spans {
            self.put_span(text, told, span);
        }
    }

    /// Writes the lanes, and on them the spans.
    #[tactic(auto, unfolding(crate::specs::Times::lines_text))]
    fn put_lines(&self, text: &mut Text, told: &Told, picture: &Picture)
        ensures { text.new ≡ text.old
            ++ model.lines_text told.now.lines.now told.now.job.now self.now picture.now }
    {
        self.put_lanes(text, picture.channels.as_slice());
        self.put_spans(text, told, picture.spans.as_slice());
    }

    /// Writes the lanes, and on them the spans and what the channels do.
    #[tactic(auto, unfolding(crate::specs::Times::lanes_text))]
    pub(crate) fn put(&self, text: &mut Text, told: &Told, verdict: &Verdict, picture: &Picture)
        ensures { text.new ≡ text.old
            ++ model.lanes_text told.now.lines.now told.now.job.now verdict.now self.now picture.now }
    {
        self.put_lines(text, told, picture);
        self.put_all_ends(text, verdict, picture);
        self.put_moments(text, told, verdict, picture.moments.as_slice());
    }
}
