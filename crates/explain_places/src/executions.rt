//! How often a block was executed, and which of its executions is meant.
ghost use Rattle.std.specs.Prelude.{◌≡◌, ◌==◌, ◌<◌, ◌≤◌, [], length, slice_index_or, take};
ghost use Rattle.explain_places.specs.Executions as model;
ghost use Rattle.explain_places.specs.Entries.{IsLast};
ghost use Rattle.sync_types.specs.Views.{EntryView};

use crate::place::Place;
use axis_sets::ChannelId;
use sync_types::{Entry, Item, Run};

/// Which execution of a block is meant, counted from 1, and how many there are.
#[derive(Clone, Copy)]
pub struct Execution {
    /// Its number, from 1.
    pub which: u64,
    /// How many there are in the run.
    pub of: u64,
}

/// Whether an item is a motion of a block in this line.
fn moves_at(item: &Item, line: u32) -> bool
    ensures { result ≡ model.moves_at line item.now }
{
    item.line == line && item.is_motion()
}

/// How many of these items are motions of a block in this line.
#[tactic(auto, unfolding(crate::specs::Executions::motions_at))]
fn count_at(items: &[Item], line: u32) -> usize
    ensures value { result ≡ model.motions_at line items.now }
    ensures few { result ≤ length items.now }
{
    let mut count = 0;
    for item in items {
        if moves_at(item, line) {
            count += 1;
        }
    }
    count
}

/// How many motions of a block in this line an entry has, where it is of the channel.
#[tactic(auto, unfolding(crate::specs::Executions::motions_in))]
fn count_in(run: &Run, channel: ChannelId, line: u32, place: usize) -> usize
    ensures { result ≡ model.motions_in run.now channel line place }
{
    match run.entries.get(place) {
        Some(entry) => {
            if entry.is_of(channel) {
                count_at(run.items_at(place), line)
            } else {
                0
            }
        }
        None => 0,
    }
}

/// How many motions of a block in this line a channel makes in the entries before one.
#[tactic(auto, unfolding(crate::specs::Executions::motions_before))]
fn count_before(run: &Run, channel: ChannelId, line: u32, upto: usize) -> u64
    ensures { result ≡ model.capped (model.motions_before run.now channel line upto) }
{
    let mut count: u64 = 0;
    for place in 0..upto {
        count = count.saturating_add(count_in(run, channel, line, place) as u64);
    }
    count
}

/// The first so many items of an entry.
fn front_of(run: &Run, entry: usize, count: usize) -> &[Item]
    ensures { result.now ≡ take count (slice_index_or run.now.items entry []) }
{
    let items = run.items_at(entry);
    if count <= items.len() {
        &items[..count]
    } else {
        items
    }
}

/// Which execution of its block the motion is that comes after so many items of an entry of a channel: one more than there are
/// motions of a block in this line before it.
#[tactic(auto, unfolding(crate::specs::Executions::execution_of))]
pub fn execution_of(
    run: &Run,
    channel: ChannelId,
    line: u32,
    entry: usize,
    items: usize,
) -> Execution
    ensures { result ≡ model.execution_of run.now channel line entry items }
{
    let before = count_before(run, channel, line, entry);
    let here = count_at(front_of(run, entry, items), line) as u64;
    Execution {
        which: before.saturating_add(here).saturating_add(1),
        of: count_before(run, channel, line, run.entries.len()),
    }
}

/// Whether the entry of this place is of a channel.
fn is_at(entries: &[Entry], place: usize, channel: ChannelId) -> bool
    requires { place < length entries.now }
    ensures { (e : EntryView) → result ≡ ((slice_index_or entries.now place e).channel == channel) }
{
    entries[place].is_of(channel)
}

/// The place of the last entry of a channel up to and with this one; none where it has none.
pub fn last_entry(entries: &[Entry], channel: ChannelId, upto: usize) -> Option<usize>
    ensures { IsLast entries.now channel upto result }
{
    let mut place = entries.len().min(upto.saturating_add(1));
    while place > 0 {
        place -= 1;
        if is_at(entries, place, channel) {
            return Some(place);
        }
    }
    None
}

/// Which execution of its block a box is of; none where the box stands or nobody holds its zone.
#[tactic(auto, unfolding(crate::specs::Executions::execution_at))]
pub fn execution_at(run: &Run, place: &Place) -> Option<Execution>
    ensures { result ≡ model.execution_at run.now place.now }
{
    let channel = place.name.channel?;
    let motion = place.motion?;
    let before = (motion as usize).saturating_sub(1);
    Some(execution_of(run, channel, place.name.line, place.entry as usize, before))
}
