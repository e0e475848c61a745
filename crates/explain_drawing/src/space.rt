//! What is drawn in a view of space: the boxes and the ways, each with what there is to know of it.
ghost use Rattle.std.specs.Prelude.{◌≡◌, ◌++◌, flat_map, option_copied};
ghost use Rattle.explain_drawing.specs.Space as model;
ghost use Rattle.explain_drawing.specs.Words.{tile_words, track_words};

use crate::words::{put_tile_label, put_tile_words, put_track_words, put_zone_label};
use explain_lines::Lines;
use explain_places::Told;
use explain_views::{Picture, Tile, Track, View, put_place};
use growing_text::Text;
use job_types::{Job, ZoneLine};

/// Begins a box with the words that a browser shows where the pointer is over it.
#[tactic(auto, unfolding(crate::specs::Space::hover_text))]
fn put_tile_hover(text: &mut Text, told: &Told, tile: &Tile)
    ensures { text.new ≡ text.old ++ model.hover_text (tile_words told.now.lines.now told.now.job.now tile.now) }
{
    text.say("<g><title>");
    put_tile_words(text, told, tile);
    text.say("</title>\n");
}

/// Writes a box with its words.
#[tactic(auto, unfolding(crate::specs::Space::tile_part))]
fn put_tile(text: &mut Text, told: &Told, view: &View, tile: &Tile)
    ensures { text.new ≡ text.old ++ model.tile_part told.now.lines.now told.now.job.now view.now tile.now }
{
    put_tile_hover(text, told, tile);
    view.put_tile(text, tile);
    text.say("</g>\n");
}

/// Begins a way with the words that a browser shows where the pointer is over it.
#[tactic(auto, unfolding(crate::specs::Space::hover_text))]
fn put_track_hover(text: &mut Text, told: &Told, track: &Track)
    ensures { text.new ≡ text.old ++ model.hover_text (track_words told.now.lines.now told.now.job.now track.now) }
{
    text.say("<g><title>");
    put_track_words(text, told, track);
    text.say("</title>\n");
}

/// Writes a way with its words.
#[tactic(auto, unfolding(crate::specs::Space::track_part))]
fn put_track(text: &mut Text, told: &Told, view: &View, track: &Track)
    ensures { text.new ≡ text.old ++ model.track_part told.now.lines.now told.now.job.now view.now track.now }
{
    put_track_hover(text, told, track);
    view.put_track(text, track);
    text.say("</g>\n");
}

/// Writes the label of a box.
#[tactic(auto, unfolding(crate::specs::Space::label_text))]
fn put_label_text(text: &mut Text, lines: &Lines, view: &View, tile: &Tile)
    ensures { text.new ≡ text.old ++ model.label_text lines.now view.now tile.now }
{
    text.say("<text class=\"named\"");
    put_place(text, view.label_place(tile));
    put_tile_label(text, lines, tile);
    text.say("</text>\n");
}

/// Writes the label of a box if it is labelled.
#[tactic(auto, unfolding(crate::specs::Space::label_part))]
fn put_label(text: &mut Text, lines: &Lines, view: &View, tile: &Tile)
    ensures { text.new ≡ text.old ++ model.label_part lines.now view.now tile.now }
{
    if tile.is_labelled {
        put_label_text(text, lines, view, tile);
    }
}

/// The first box of a zone; none where it has none.
fn first_tile(tiles: &[Tile], zone: u8) -> Option<&Tile>
    ensures { option_copied result ≡ model.first_tile_of tiles.now zone }
{
    tiles.iter().find(|tile| tile.name.zone.number == zone)
}

/// Writes a zone with its comment into a box.
#[tactic(auto, unfolding(crate::specs::Space::zone_text))]
fn put_zone_text(text: &mut Text, lines: &Lines, view: &View, zone: &ZoneLine, tile: &Tile)
    ensures { text.new ≡ text.old ++ model.zone_text lines.now view.now zone.now tile.now }
{
    text.say("<text class=\"zone\"");
    put_place(text, view.label_place(tile));
    put_zone_label(text, lines, zone);
    text.say("</text>\n");
}

/// Writes a zone with its comment into its first box.
#[tactic(auto, unfolding(crate::specs::Space::zone_part))]
fn put_zone(text: &mut Text, lines: &Lines, view: &View, tiles: &[Tile], zone: &ZoneLine)
    ensures { text.new ≡ text.old ++ model.zone_part lines.now view.now tiles.now zone.now }
{
    if let Some(tile) = first_tile(tiles, zone.zone.number) {
        put_zone_text(text, lines, view, zone, tile);
    }
}

/// Writes all boxes.
#[tactic(auto, unfolding(crate::specs::Space::tiles_part))]
fn put_tiles(text: &mut Text, told: &Told, view: &View, tiles: &[Tile])
    ensures { text.new ≡ text.old ++ model.tiles_part told.now.lines.now told.now.job.now view.now tiles.now }
{
    for tile in tiles {
        put_tile(text, told, view, tile);
    }
}

/// Writes all ways.
#[tactic(auto, unfolding(crate::specs::Space::tracks_part))]
fn put_tracks(text: &mut Text, told: &Told, view: &View, tracks: &[Track])
    ensures { text.new ≡ text.old ++ model.tracks_part told.now.lines.now told.now.job.now view.now tracks.now }
{
    for track in tracks {
        put_track(text, told, view, track);
    }
}

/// The zones of a job.
fn zones_of(job: &Job) -> &[ZoneLine]
    ensures { result.now ≡ job.now.zones }
{
    job.zones.as_slice()
}

/// Writes these zones.
fn put_each_zone(text: &mut Text, lines: &Lines, view: &View, tiles: &[Tile], zones: &[ZoneLine])
    ensures { text.new ≡ text.old ++ flat_map (model.zone_part lines.now view.now tiles.now) zones.now }
{
    for zone in zones {
        put_zone(text, lines, view, tiles, zone);
    }
}

/// Writes all zones.
#[tactic(auto, unfolding(crate::specs::Space::zones_part))]
fn put_zones(text: &mut Text, told: &Told, view: &View, tiles: &[Tile])
    ensures { text.new ≡ text.old ++ model.zones_part told.now.lines.now told.now.job.now view.now tiles.now }
{
    put_each_zone(text, told.lines, view, tiles, zones_of(told.job));
}

/// Writes all labels.
#[tactic(auto, unfolding(crate::specs::Space::labels_part))]
fn put_labels(text: &mut Text, lines: &Lines, view: &View, tiles: &[Tile])
    ensures { text.new ≡ text.old ++ model.labels_part lines.now view.now tiles.now }
{
    for tile in tiles {
        put_label(text, lines, view, tile);
    }
}

/// Writes the lines at whole millimetres, over them the boxes, and over these the lines on which the directions are 0.
#[tactic(auto, unfolding(crate::specs::Space::ground_text))]
fn put_ground(text: &mut Text, told: &Told, view: &View, picture: &Picture)
    ensures { text.new ≡ text.old
        ++ model.ground_text told.now.lines.now told.now.job.now view.now picture.now }
{
    view.put_ticks(text);
    put_tiles(text, told, view, picture.tiles.as_slice());
    view.put_axes(text);
}

/// Writes the ways with their starts.
#[tactic(auto, unfolding(crate::specs::Space::ways_text))]
fn put_ways(text: &mut Text, told: &Told, view: &View, picture: &Picture)
    ensures { text.new ≡ text.old ++ model.ways_text told.now.lines.now told.now.job.now view.now picture.now }
{
    let tracks = picture.tracks.as_slice();
    put_tracks(text, told, view, tracks);
    view.put_starts(text, tracks, picture.channels.as_slice());
}

/// Writes the names of the zones, and the labels.
#[tactic(auto, unfolding(crate::specs::Space::names_text))]
fn put_names(text: &mut Text, told: &Told, view: &View, picture: &Picture)
    ensures { text.new ≡ text.old
        ++ model.names_text told.now.lines.now told.now.job.now view.now picture.now }
{
    let tiles = picture.tiles.as_slice();
    put_zones(text, told, view, tiles);
    put_labels(text, told.lines, view, tiles);
}

/// Writes what a view shows: the boxes over the lines at whole millimetres, over them the ways, and over all the names.
#[tactic(auto, unfolding(crate::specs::Space::view_text))]
pub(crate) fn put_view(text: &mut Text, told: &Told, view: &View, picture: &Picture)
    ensures { text.new ≡ text.old ++ model.view_text told.now.lines.now told.now.job.now view.now picture.now }
{
    put_ground(text, told, view, picture);
    put_ways(text, told, view, picture);
    put_names(text, told, view, picture);
}
