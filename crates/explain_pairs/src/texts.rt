//! Each two zones, said in a line.
ghost use Rattle.std.specs.Prelude.{◌≡◌, ◌++◌};
ghost use Rattle.std.specs.List.{flat_map};
ghost use Rattle.explain_pairs.specs.PairTexts as model;

use crate::pairs::{Absent, Comparison, PairKind, ZonePair};
use axis_sets::{ChannelId, ZoneId};
use growing_text::Text;

/// By how many micrometres boxes are apart that reach `reach` micrometres into each other.
pub fn apart_of(reach: i64) -> i64
    ensures { result ≡ model.apart_of reach }
{
    (0i64).saturating_sub(reach)
}

/// Says how many pairs are compared.
#[tactic(auto, unfolding(crate::specs::PairTexts::count_text))]
fn say_count(text: &mut Text, count: u64)
    ensures { text.new ≡ text.old ++ model.count_text count }
{
    text.number(count);
    if count == 1 {
        text.say(" pair of boxes is compared");
    } else {
        text.say(" pairs of boxes are compared");
    }
}

/// Says how many pairs are compared, and how near they come.
#[tactic(auto, unfolding(crate::specs::PairTexts::found_text))]
fn say_found(text: &mut Text, found: &Comparison)
    ensures { text.new ≡ text.old ++ model.found_text found.now }
{
    say_count(text, found.count);
    text.say(", as near as ");
    text.millimetres(apart_of(found.reach));
    text.say(" mm");
}

/// Says that a zone is never on.
#[tactic(auto, unfolding(crate::specs::PairTexts::never_text))]
fn say_never(text: &mut Text, zone: ZoneId)
    ensures { text.new ≡ text.old ++ model.never_text zone }
{
    text.say("zone ");
    text.number(u64::from(zone.number));
    text.say(" is never on");
}

/// Says which of two zones are never on.
#[tactic(auto, unfolding(crate::specs::PairTexts::absent_text))]
fn say_absent(text: &mut Text, zones: (ZoneId, ZoneId), absent: Absent)
    ensures { text.new ≡ text.old ++ model.absent_text zones absent }
{
    match absent {
        Absent::First => say_never(text, zones.0),
        Absent::Second => say_never(text, zones.1),
        Absent::Both => text.say("neither is ever on"),
    }
}

/// Says whose blocks keep two zones apart.
#[tactic(auto, unfolding(crate::specs::PairTexts::order_text))]
fn say_order(text: &mut Text, channel: ChannelId)
    ensures { text.new ≡ text.old ++ model.order_text channel }
{
    text.say("kept apart in time by the order of the blocks of channel ");
    text.number(u64::from(channel.number));
}

/// Says what is found of the boxes of two zones, or why none are compared.
#[tactic(auto, unfolding(crate::specs::PairTexts::kind_text))]
fn say_kind(text: &mut Text, zones: (ZoneId, ZoneId), kind: &PairKind)
    ensures { text.new ≡ text.old ++ model.kind_text zones kind.now }
{
    match kind {
        PairKind::OneGroup => text.say("of one group, so they may touch"),
        PairKind::NeverOn(absent) => say_absent(text, zones, *absent),
        PairKind::Compared(found) => say_found(text, found),
        PairKind::OneChannel(channel) => say_order(text, *channel),
        PairKind::Coordinated => text.say("kept apart in time by marks or other coordination"),
    }
}

/// Says two zones in a line.
#[tactic(auto, unfolding(crate::specs::PairTexts::pair_text))]
fn say_pair(text: &mut Text, row: &ZonePair)
    ensures { text.new ≡ text.old ++ model.pair_text row.now }
{
    text.say("  zone ");
    text.number(u64::from(row.zones.0.number));
    text.say(" and zone ");
    text.number(u64::from(row.zones.1.number));
    text.say(": ");
    say_kind(text, row.zones, &row.kind);
    text.say("\n");
}

/// Says each of these in a line.
fn say_each_pair(text: &mut Text, rows: &[ZonePair])
    ensures { text.new ≡ text.old ++ flat_map model.pair_text rows.now }
{
    for row in rows {
        say_pair(text, row);
    }
}

/// Says what stands above them, where there are two.
fn say_heading(text: &mut Text, rows: &[ZonePair])
    ensures { text.new ≡ text.old ++ model.heading_text rows.now }
{
    if !rows.is_empty() {
        text.say("Of each two zones:\n");
    }
}

/// Says of each two zones what is found of their boxes, or why none are compared, in a line for each two; nothing where there are no
/// two.
#[tactic(auto, unfolding(crate::specs::PairTexts::pairs_text))]
pub fn say_zone_pairs(text: &mut Text, rows: &[ZonePair])
    ensures { text.new ≡ text.old ++ model.pairs_text rows.now }
{
    say_heading(text, rows);
    say_each_pair(text, rows);
}
