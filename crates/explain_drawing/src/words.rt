//! The words of a drawing: what a reader of it is told of boxes, ways and blocks.
ghost use Rattle.std.specs.Prelude.{◌≡◌, ◌++◌, take};
ghost use Rattle.std.specs.List.{position};
ghost use Rattle.explain_places.specs.Lines.{number_text, of_text};
ghost use Rattle.explain_drawing.specs.Words as model;

use axis_sets::{ChannelId, ZoneId};
use explain_lines::{Lines, block_number};
use explain_places::{Told, program_name, say_channel};
use explain_views::{Tile, Track, along, put_shown};
use growing_text::Text;
use job_types::ZoneLine;
use sync_types::PlaceName;

/// Up to how many bytes of a line or of a comment are shown at each place, so that a drawing stays small.
const TEXT_LIMIT: usize = 200;

/// Up to how many bytes of a block number.
const NUMBER_LIMIT: usize = 24;

/// The first so many bytes of a text.
pub(crate) fn front(text: &[u8], count: usize) -> &[u8]
    ensures { result.now ≡ take count text.now }
{
    if count < text.len() {
        &text[..count]
    } else {
        text
    }
}

/// Writes a text of the input, as far as it is shown.
#[tactic(auto, unfolding(crate::specs::Words::front_text))]
fn put_front(text: &mut Text, part: &[u8])
    ensures { text.new ≡ text.old ++ model.front_text part.now }
{
    put_shown(text, front(part, TEXT_LIMIT));
}

/// Writes the number of a block, if it has one.
#[tactic(auto, unfolding(explain_places::specs::Lines::number_text))]
fn put_block_number(text: &mut Text, number: &[u8])
    ensures { text.new ≡ text.old ++ number_text number.now }
{
    if !number.is_empty() {
        text.say(" (");
        text.bytes(number);
        text.say(")");
    }
}

/// Writes the name of a program, if there is one.
#[tactic(auto, unfolding(explain_places::specs::Lines::of_text))]
fn put_program(text: &mut Text, name: &[u8])
    ensures { text.new ≡ text.old ++ of_text name.now }
{
    if !name.is_empty() {
        text.say(" of ");
        text.bytes(name);
    }
}

/// Writes the number of a line, and that of its block.
#[tactic(auto, unfolding(crate::specs::Words::number_words))]
fn put_line_number(text: &mut Text, lines: &Lines, line: u32)
    ensures { text.new ≡ text.old ++ model.number_words lines.now line }
{
    text.say("line ");
    text.number(u64::from(line));
    put_block_number(text, front(block_number(lines.text(line)), NUMBER_LIMIT));
}

/// Writes the number of a line, that of its block, and its program.
#[tactic(auto, unfolding(crate::specs::Words::line_words))]
pub(crate) fn put_line(text: &mut Text, told: &Told, line: u32)
    ensures { text.new ≡ text.old ++ model.line_words told.now.lines.now told.now.job.now line }
{
    put_line_number(text, told.lines, line);
    put_program(text, program_name(told.job, line));
}

/// Writes which line is meant, and how it reads.
#[tactic(auto, unfolding(crate::specs::Words::block_words))]
pub(crate) fn put_block(text: &mut Text, told: &Told, line: u32)
    ensures { text.new ≡ text.old ++ model.block_words told.now.lines.now told.now.job.now line }
{
    put_line(text, told, line);
    text.say(": ");
    put_front(text, told.lines.text(line));
}

/// Writes who holds a zone.
#[tactic(auto, unfolding(crate::specs::Words::holder_words))]
fn put_holder(text: &mut Text, holder: Option<ChannelId>)
    ensures { text.new ≡ text.old ++ model.holder_words holder }
{
    match holder {
        Some(channel) => {
            text.say(" of ");
            say_channel(text, channel);
        }
        None => text.say(" held by nobody"),
    }
}

/// Writes a zone, and who holds it.
#[tactic(auto, unfolding(crate::specs::Words::zone_words))]
pub(crate) fn put_zone(text: &mut Text, name: &PlaceName)
    ensures { text.new ≡ text.old ++ model.zone_words name.now }
{
    text.say("zone ");
    text.number(u64::from(name.zone.number));
    put_holder(text, name.channel);
}

/// The words that a zone moves, or that it stands.
fn motion_words(moves: bool) -> &'static str
    ensures { result.now ≡ model.motion_words moves }
{
    if moves { " moves: " } else { " stands: " }
}

/// Writes where a zone is declared.
#[tactic(auto, unfolding(crate::specs::Words::declared_words))]
fn put_declared(text: &mut Text, told: &Told, zone: ZoneId)
    ensures { text.new ≡ text.old ++ model.declared_words told.now.lines.now told.now.job.now zone }
{
    if let Some(line) = told.job.zone_line(zone) {
        put_block(text, told, line.line);
    }
}

/// Writes the block of a box, or the ZONE line of one that has no block.
#[tactic(auto, unfolding(crate::specs::Words::name_words))]
pub(crate) fn put_name(text: &mut Text, told: &Told, name: &PlaceName)
    ensures { text.new ≡ text.old ++ model.name_words told.now.lines.now told.now.job.now name.now }
{
    if name.line == 0 {
        put_declared(text, told, name.zone);
    } else {
        put_block(text, told, name.line);
    }
}

/// Writes what there is to know of a box: its zone with its holder, whether it moves, and its block.
#[tactic(auto, unfolding(crate::specs::Words::tile_words))]
pub(crate) fn put_tile_words(text: &mut Text, told: &Told, tile: &Tile)
    ensures { text.new ≡ text.old ++ model.tile_words told.now.lines.now told.now.job.now tile.now }
{
    put_zone(text, &tile.name);
    text.say(motion_words(tile.moves));
    put_name(text, told, &tile.name);
}

/// Writes a place in millimetres.
#[tactic(auto, unfolding(crate::specs::Words::point_words))]
fn put_point(text: &mut Text, at: &[i64; 3])
    ensures { text.new ≡ text.old ++ model.point_words at.now }
{
    text.say("X ");
    text.millimetres(along(at, 0));
    text.say(" Y ");
    text.millimetres(along(at, 1));
    text.say(" Z ");
    text.millimetres(along(at, 2));
}

/// Writes from where to where a way goes.
#[tactic(auto, unfolding(crate::specs::Words::ends_words))]
fn put_ends_of(text: &mut Text, track: &Track)
    ensures { text.new ≡ text.old ++ model.ends_words track.now }
{
    text.say("\nfrom ");
    put_point(text, &track.from);
    text.say(" to ");
    put_point(text, &track.to);
}

/// Writes the zone of a way.
#[tactic(auto, unfolding(crate::specs::Words::owner_words))]
fn put_owner(text: &mut Text, track: &Track)
    ensures { text.new ≡ text.old ++ model.owner_words track.now }
{
    text.say("zone ");
    text.number(u64::from(track.zone));
    text.say(": ");
}

/// Writes what there is to know of a way: its zone, its block, and its ends.
#[tactic(auto, unfolding(crate::specs::Words::track_words))]
pub(crate) fn put_track_words(text: &mut Text, told: &Told, track: &Track)
    ensures { text.new ≡ text.old ++ model.track_words told.now.lines.now told.now.job.now track.now }
{
    put_owner(text, track);
    put_block(text, told, track.line);
    put_ends_of(text, track);
}

/// The place of the first semicolon.
pub(crate) fn first_semicolon(text: &[u8]) -> Option<usize>
    ensures { result ≡ position model.is_semicolon text.now }
{
    text.iter().position(|byte| *byte == b';')
}

/// What stands after the first semicolon of a line.
#[tactic(auto, unfolding(crate::specs::Words::comment_of))]
fn comment_of(text: &[u8]) -> &[u8]
    ensures { result.now ≡ model.comment_of text.now }
{
    match first_semicolon(text) {
        Some(place) => {
            if place < text.len() {
                &text[place + 1..]
            } else {
                &[]
            }
        }
        None => &[],
    }
}

/// Writes a comment after a name, if there is one.
#[tactic(auto, unfolding(crate::specs::Words::comment_words))]
fn put_comment(text: &mut Text, comment: &[u8])
    ensures { text.new ≡ text.old ++ model.comment_words comment.now }
{
    if !comment.is_empty() {
        text.say(": ");
        put_front(text, comment);
    }
}

/// Writes a zone, and the comment of its ZONE line.
#[tactic(auto, unfolding(crate::specs::Words::zone_label))]
pub(crate) fn put_zone_label(text: &mut Text, lines: &Lines, zone: &ZoneLine)
    ensures { text.new ≡ text.old ++ model.zone_label lines.now zone.now }
{
    text.say("zone ");
    text.number(u64::from(zone.zone.number));
    put_comment(text, comment_of(lines.text(zone.line)));
}

/// Writes the line of a box after its zone, if it has one.
#[tactic(auto, unfolding(crate::specs::Words::after_zone))]
fn put_after_zone(text: &mut Text, lines: &Lines, line: u32)
    ensures { text.new ≡ text.old ++ model.after_zone lines.now line }
{
    if line != 0 {
        text.say(", ");
        put_line_number(text, lines, line);
    }
}

/// Writes the label of a box: its zone, and its line if it has one.
#[tactic(auto, unfolding(crate::specs::Words::tile_label))]
pub(crate) fn put_tile_label(text: &mut Text, lines: &Lines, tile: &Tile)
    ensures { text.new ≡ text.old ++ model.tile_label lines.now tile.now }
{
    text.say("zone ");
    text.number(u64::from(tile.name.zone.number));
    put_after_zone(text, lines, tile.name.line);
}
