//! Who moves an axis first.
ghost use Rattle.std.specs.Prelude.{◌≡◌, ◌==◌, find, is_some, slice_index_or, IfOk, None};
ghost use Rattle.path_geometry.specs.Motions.{axis_end};
ghost use Rattle.explain_assumptions.specs.Rows as model;

use axis_sets::{AXIS_LIMIT, AxisId, ChannelId};
use micro_units::Um;
use path_geometry::Motion;
use std::alloc::{AllocError, Global};
use sync_types::{Item, Run};

/// Who moves an axis, and in which line.
#[derive(Clone, Copy)]
pub(crate) struct Mover {
    /// The channel.
    pub channel: ChannelId,
    /// The line.
    pub line: u32,
}

/// What a motion does to an axis, if it has it.
fn end_of(ends: &[(AxisId, Um, Um)], axis: AxisId) -> Option<(AxisId, Um, Um)>
    ensures { result ≡ find (λ e. e.0 == axis) ends.now }
{
    ends.iter().copied().find(|end| end.0 == axis)
}

/// Whether a motion has an axis.
#[tactic(auto, unfolding(path_geometry::specs::Motions::axis_end))]
fn has_axis(motion: &Motion, axis: AxisId) -> bool
    ensures { result ≡ is_some (axis_end axis motion.now) }
{
    match end_of(motion.ends().axes.as_slice(), axis) {
        Some(_) => true,
        None => false,
    }
}

/// Whether an item moves an axis.
fn moves_axis(item: &Item, axis: AxisId) -> bool
    ensures { result ≡ model.moves_axis axis item.now }
{
    match item.motion() {
        Some(motion) => has_axis(motion, axis),
        None => false,
    }
}

/// The line of the first of these items that moves an axis.
#[tactic(auto, unfolding(crate::specs::Rows::line_moving))]
fn line_moving(items: &[Item], axis: AxisId) -> Option<u32>
    ensures { result ≡ model.line_moving axis items.now }
{
    for item in items {
        if moves_axis(item, axis) {
            return Some(item.line);
        }
    }
    None
}

/// The channel of an entry, and the first line in which it moves an axis before it.
fn mover_at(run: &Run, place: usize, axis: AxisId) -> Option<Mover>
    ensures { result ≡ model.mover_at axis run.now place }
{
    match run.entries.get(place) {
        Some(entry) => match line_moving(run.items_at(place), axis) {
            Some(line) => Some(Mover {
                channel: entry.channel,
                line,
            }),
            None => None,
        },
        None => None,
    }
}

/// The channel that moves an axis first in a run, and the line of the block.
#[tactic(auto, unfolding(crate::specs::Rows::first_mover))]
fn first_mover(run: &Run, axis: AxisId) -> Option<Mover>
    ensures { result ≡ model.first_mover axis run.now }
{
    for place in 0..run.entries.len() {
        if let Some(mover) = mover_at(run, place, axis) {
            return Some(mover);
        }
    }
    None
}

/// Who moves each axis first. One walk over the run for each axis serves all channels.
#[tactic(auto, unfolding(crate::specs::Rows::movers_of))]
pub(crate) fn first_movers(alloc: Global, run: &Run) -> Result<Vec<Option<Mover>>, AllocError>
    ensures { IfOk result (λ list. list.items ≡ model.movers_of run.now) }
{
    let mut list = Vec::new(alloc);
    for index in 0..AXIS_LIMIT as u8 {
        list.push(first_mover(run, AxisId { index }))?;
    }
    Ok(list)
}

/// Who moves this axis first.
pub(crate) fn mover_of(firsts: &[Option<Mover>], axis: AxisId) -> Option<Mover>
    ensures { result ≡ slice_index_or firsts.now axis None }
{
    match firsts.get(usize::from(axis.index)) {
        Some(first) => *first,
        None => None,
    }
}
