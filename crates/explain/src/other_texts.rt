//! The verdicts YES and UNDECIDED, said.
ghost use Rattle.std.specs.Prelude.{◌≡◌, ◌++◌, All, IfOk};
ghost use Rattle.std.specs.List.{flat_map};
ghost use Rattle.clash_check.specs.PairNumbers.{numbers_of};
ghost use Rattle.explain.specs.Explained.{IsHeaded};
ghost use Rattle.explain.specs.Numbers as numbers;
ghost use Rattle.explain.specs.Room as room;
ghost use Rattle.job_types.specs.SoundJob.{IsSoundJob};
ghost use Rattle.order_clocks.specs.Tells.{is_before_in};
ghost use Rattle.zone_stretches.specs.Overlaps.{compared_pairs};
ghost use Rattle.zone_stretches.specs.Told.{IsTold};
ghost use Rattle.zone_stretches.specs.ZoneBoxes.{IsFit};

use crate::judged::Judged;
use clash_check::{PairNumber, pair_numbers};
use explain_meetings::{Near, nearest_of};
use explain_pairs::{ZonePair, say_zone_pairs};
use explain_places::{Told, say_place};
use explain_texts::{apart_of, margin_left, say_room, say_two_groups};
use growing_text::Text;
use out_of_memory::NoMemory;
use std::alloc::Global;

/// Says how near two groups come to each other, and where.
#[tactic(auto, unfolding(crate::specs::Room::near_text))]
fn say_near(text: &mut Text, told: &Told, near: &Near)
    ensures { text.new ≡ text.old ++ room.near_text told.now.lines.now told.now.job.now told.now.run.now near.now }
{
    say_two_groups(text, near.groups);
    let apart = apart_of(near.reach);
    say_room(text, apart, margin_left(apart));
    say_place(text, told, &near.left);
    say_place(text, told, &near.right);
}

/// Says how near each two groups come to each other.
fn say_all_near(text: &mut Text, told: &Told, rows: &[Near])
    ensures { text.new ≡ text.old ++ flat_map
        (room.near_text told.now.lines.now told.now.job.now told.now.run.now) rows.now }
{
    for near in rows {
        say_near(text, told, near);
    }
}

/// Says how near each two groups come to each other, and of each two zones whether they were compared.
#[tactic(auto, unfolding(crate::specs::Room::nears_text))]
fn say_nears(text: &mut Text, told: &Told, rows: &[Near], zones: &[ZonePair])
    ensures { text.new ≡ text.old ++ room.nears_text told.now.lines.now told.now.job.now
        told.now.run.now rows.now zones.now }
{
    say_all_near(text, told, rows);
    say_zone_pairs(text, zones);
}

/// A text, and after it what is said of the verdict YES: how near the compared boxes of each two groups come, and of each two zones
/// what is told of them.
pub(crate) fn yes_told(
    alloc: Global,
    judged: &Judged,
    zones: &[ZonePair],
    mut text: Text,
) -> Result<Text, NoMemory>
    requires sound { IsSoundJob judged.now.job.now }
    requires whole { IsTold judged.now.job.now judged.now.run.now judged.now.stretches.now judged.now.clocks.now }
    requires fit { All (All IsFit) judged.now.run.now.items }
    ensures { IfOk result (λ all. IsHeaded text
        (room.IsYesText judged.now.lines.now judged.now.job.now judged.now.run.now zones.now
        (compared_pairs (is_before_in judged.now.clocks.now.rows) judged.now.job.now judged.now.stretches.now)) all) }
{
    let rows = nearest_of(
        alloc,
        judged.job,
        judged.run,
        judged.stretches,
        judged.clocks,
    )?;
    say_nears(&mut text, &judged.told(), rows.as_slice(), zones);
    Ok(text)
}

/// Says how many pairs of two zones are to be compared.
#[tactic(auto, unfolding(crate::specs::Numbers::number_text))]
fn say_number(text: &mut Text, row: &PairNumber)
    ensures { text.new ≡ text.old ++ numbers.number_text row.now }
{
    text.say("  zone ");
    text.number(u64::from(row.zones.0.number));
    text.say(" and zone ");
    text.number(u64::from(row.zones.1.number));
    text.say(": ");
    text.number(row.count);
    text.say("\n");
}

/// Says how many pairs of each two zones are to be compared.
fn say_each_number(text: &mut Text, rows: &[PairNumber])
    ensures { text.new ≡ text.old ++ flat_map numbers.number_text rows.now }
{
    for row in rows {
        say_number(text, row);
    }
}

/// Says how many pairs of each two zones are to be compared, and what to do.
#[tactic(auto, unfolding(crate::specs::Numbers::numbers_text))]
fn say_numbers(text: &mut Text, rows: &[PairNumber])
    ensures { text.new ≡ text.old ++ numbers.numbers_text rows.now }
{
    text.say("Of each two zones, the most first:\n");
    say_each_number(text, rows);
    text.say(
        "What to do: a line BUDGET with this count, up to 100000000; or marks that put the programs in an order, so that fewer blocks can come at one time.\n",
    );
}

/// A text, and after it what is said of the verdict UNDECIDED: how many pairs of each two zones are to be compared, and what to do.
pub(crate) fn undecided_told(
    alloc: Global,
    judged: &Judged,
    mut text: Text,
) -> Result<Text, NoMemory>
    requires whole { IsTold judged.now.job.now judged.now.run.now judged.now.stretches.now judged.now.clocks.now }
    ensures { IfOk result (λ all. IsHeaded text (numbers.IsUndecidedText
        (numbers_of (is_before_in judged.now.clocks.now.rows) judged.now.job.now judged.now.stretches.now)) all) }
{
    let rows = pair_numbers(alloc, judged.job, judged.stretches, judged.clocks)?;
    say_numbers(&mut text, rows.as_slice());
    Ok(text)
}
