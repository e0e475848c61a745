//! The boxes of a stretch that are near a box, and what is kept of them while those of another stretch are held against them.
ghost use Rattle.std.specs.Prelude.{◌≡◌, ◌⊎◌, ℕ, ◌<◌, ◌≤◌, [], true, false, None, IfOk, length, map, slice_index_or};
ghost use Rattle.box_tree.specs.Rows.{IsRowOf};
ghost use Rattle.clash_check.specs.Keeping as model;
ghost use Rattle.swept_boxes.specs.Boxes.{boxes_meet};
ghost use Rattle.zone_stretches.specs.declared.stretches.ZoneBox.{ZoneBox};

use crate::contexts::Scene;
use box_tree::{BoxTree, KeptTrees, do_meet};
use out_of_memory::NoMemory;
use passed_boxes::PassedBoxes;
use std::alloc::Global;
use swept_boxes::Box3;
use zone_stretches::{ZoneBox, are_compared};

/// From how many boxes on that are held against others a tree over the covers of these serves.
const TREE_OWN: usize = 8;
/// From how many others on.
pub(crate) const TREE_OTHERS: usize = 16;
/// How many boxes of pieces are kept at most, of 56 bytes each, so 30 MB.
pub(crate) const KEPT_LIMIT: usize = 524_288;

const _: () = prove!(KEPT_LIMIT <= 30_000_000 / 56);

/// What is kept of the boxes of a stretch.
#[derive(Drop)]
pub(crate) struct Kept {
    /// A tree over their covers, where there is one.
    pub(crate) covers: Option<BoxTree>,
    /// For each place the boxes by which its box is compared, where they are kept.
    pub(crate) pieces: KeptTrees,
}

/// What is kept of the stretch of a place from one stretch that is held against it to the next.
#[derive(Drop)]
pub(crate) struct Memory {
    /// Its place.
    pub(crate) place: usize,
    /// How many were held against it: none, one, or more.
    pub(crate) times: usize,
    /// What is kept of its boxes.
    pub(crate) kept: Kept,
    /// Boxes that met none of them.
    pub(crate) passed: PassedBoxes,
}

/// Nothing is kept yet.
pub(crate) fn new_memory(alloc: Global) -> Memory
    ensures covers { result.kept.covers ≡ None }
    ensures pieces { result.kept.pieces.rows ≡ [] }
    ensures passed { result.passed ≡ [] }
{
    Memory {
        place: 0,
        times: 0,
        kept: Kept {
            covers: None,
            pieces: KeptTrees::new(alloc, 0),
        },
        passed: PassedBoxes::new(alloc),
    }
}

/// The covers of some boxes.
fn covers_of(alloc: Global, boxes: &[ZoneBox]) -> Result<Vec<Box3>, NoMemory>
    ensures { IfOk result (λ covers. covers.items ≡ map (λ own. own.cover) boxes.now) }
{
    let mut covers = Vec::with_capacity(alloc, boxes.len())?;
    for own in boxes {
        covers.push(own.cover)?;
    }
    Ok(covers)
}

/// A tree over the covers of some boxes, where so many others are held against so many of them that it serves, and where there is
/// memory for it.
fn cover_tree(alloc: Global, others: usize, boxes: &[ZoneBox]) -> Option<BoxTree>
    ensures { IsRowOf (map (λ own. own.cover) boxes.now) result }
{
    if others < TREE_OWN || boxes.len() < TREE_OTHERS {
        return None;
    }
    match covers_of(alloc, boxes) {
        Err(_) => None,
        Ok(covers) => match BoxTree::build(alloc, covers.as_slice()) {
            Err(_) => None,
            Ok(tree) => Some(tree),
        },
    }
}

/// Nothing is kept yet of these boxes but a tree over their covers, where so many others are held against them that it serves. There
/// is room for so many boxes of their pieces.
pub(crate) fn kept_for(alloc: Global, room: usize, others: usize, boxes: &[ZoneBox]) -> Kept
    ensures covers { IsRowOf (map (λ own. own.cover) boxes.now) result.covers }
    ensures pieces { result.pieces.rows ≡ [] }
    ensures room { result.pieces.room ≤ room }
{
    Kept {
        covers: cover_tree(alloc, others, boxes),
        pieces: KeptTrees::new(alloc, if others < 2 { 0 } else { room }),
    }
}

/// The place, from this one on, before which no cover meets that of a box: as far as a tree tells, if there is one.
fn past_far(own: &ZoneBox, boxes: &[ZoneBox], covers: &Option<BoxTree>, from: usize) -> usize
    requires from { from ≤ length boxes.now }
    requires covers { IsRowOf (map (λ own. own.cover) boxes.now) covers.now }
    ensures within { result ≤ length boxes.now }
    ensures on { from ≤ result }
    ensures far { (k : ℕ) (d : ZoneBox) → from ≤ k → k < result
        → boxes_meet own.now.cover (slice_index_or boxes.now k d).cover ≡ false }
{
    match covers {
        None => from,
        Some(tree) => match tree.next_met(&own.cover, from) {
            None => boxes.len(),
            Some(place) => place,
        },
    }
}

/// Whether a box is compared with another, where their stretches share a channel or not, and their covers meet.
fn is_near(shared: bool, own: &ZoneBox, later: &ZoneBox) -> bool
    ensures { result ≡ model.is_near shared own.now later.now }
{
    are_compared(shared, own, later) && do_meet(&own.cover, &later.cover)
}

/// The place of the next of these boxes, from this place on, that is compared with a box and whose cover meets its own.
pub(crate) fn next_near(
    shared: bool,
    own: &ZoneBox,
    boxes: &[ZoneBox],
    covers: &Option<BoxTree>,
    from: usize,
) -> usize
    requires from { from ≤ length boxes.now }
    requires covers { IsRowOf (map (λ own. own.cover) boxes.now) covers.now }
    ensures within { result ≤ length boxes.now }
    ensures on { from ≤ result }
    ensures far { (k : ℕ) (d : ZoneBox) → from ≤ k → k < result
        → model.is_near shared own.now (slice_index_or boxes.now k d) ≡ false }
    ensures near { (d : ZoneBox) → result < length boxes.now
        → model.is_near shared own.now (slice_index_or boxes.now result d) ≡ true }
{
    let mut place = past_far(own, boxes, covers, from);
    while place < boxes.len() {
        if is_near(shared, own, &boxes[place]) {
            return place;
        }
        place = past_far(own, boxes, covers, place + 1);
    }
    place
}

/// Makes the memory ready for these boxes of the stretch of a place, against which so many others are held: anew where it is of another
/// place, and with all that it may keep where a second stretch is held against this one.
pub(crate) fn renew(
    scene: &Scene,
    others: usize,
    boxes: &[ZoneBox],
    place: usize,
    memory: &mut Memory,
)
    ensures place { memory.new.place ≡ place }
    ensures kept { (IsRowOf (map (λ own. own.cover) boxes.now) memory.new.kept.covers
        × (memory.new.kept.pieces.rows ≡ [])) ⊎ ((memory.old.place ≡ place) × (memory.new.kept ≡ memory.old.kept)) }
    ensures passed { (memory.new.passed ≡ []) ⊎ ((memory.old.place ≡ place) × (memory.new.passed ≡ memory.old.passed)) }
{
    let times = if memory.place == place {
        memory.times
    } else {
        0
    };
    if times == 0 {
        memory.passed = PassedBoxes::new(scene.alloc);
    }
    if times < 2 {
        let held = if times == 0 { others } else { usize::MAX };
        memory.kept = kept_for(scene.alloc, scene.room, held, boxes);
    }
    memory.place = place;
    memory.times = times.saturating_add(1);
}
