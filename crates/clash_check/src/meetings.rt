//! The first two boxes that meet, of zones that may not.
ghost use Rattle.std.specs.Prelude.{◌≡◌, ◌≤◌, ◌<◌, true, [], ◌∷◌, All, drop, length, slice_index_or, take};
ghost use Rattle.std.specs.List.{list_any};
ghost use Rattle.clash_check.specs.Contexts.{case_of};
ghost use Rattle.clash_check.specs.FirstAnswer.{first_some};
ghost use Rattle.clash_check.specs.Keeping.{IsKeptOf, is_near};
ghost use Rattle.clash_check.specs.Meetings as model;
ghost use Rattle.clash_check.specs.Passing.{ArePassed, IsMemory, IsMemoryOfAny, StaysMemory};
ghost use Rattle.clash_check.specs.PlaceRanges as places;
ghost use Rattle.clash_check.specs.Shown.{IsNext};
ghost use Rattle.clash_check.specs.Verdicts.{name_of};
ghost use Rattle.swept_boxes.specs.Boxes.{boxes_meet};
ghost use Rattle.zone_stretches.specs.Ascents as ascents;
ghost use Rattle.zone_stretches.specs.Ascents.{IsTimed};
ghost use Rattle.zone_stretches.specs.Cases.{box_of};
ghost use Rattle.zone_stretches.specs.Pieces.{piece_boxes};
ghost use Rattle.zone_stretches.specs.TimedZones.{AreTimed};
ghost use Rattle.zone_stretches.specs.ZoneBoxes.{IsFit};
ghost use Rattle.zone_stretches.specs.declared.stretches.ZoneBox.{ZoneBox};

use crate::contexts::{PiecedBox, Scene, ShownZone, TwoStretches};
use crate::nearby::{Kept, Memory, TREE_OTHERS, kept_for, new_memory, next_near, renew};
use crate::place_ranges::{do_boxes_ascend, place_range};
use crate::shown::next_shown;
use box_tree::PieceTree;
use job_types::ZoneLine;
use passed_boxes::PassedBoxes;
use sync_types::PlaceName;
use zone_stretches::{
    IndexRange, Stretch, TimedZone, ZoneBox, ZoneStretch, boxes_by_pieces, may_overlap, motion_at,
    part, range_of, share_channel, start_walk,
};

/// How a box of a stretch is named.
#[tactic(auto, unfolding(crate::specs::Verdicts::name_of))]
fn named(held: &ZoneStretch, own: &ZoneBox) -> PlaceName
    ensures { result ≡ name_of (box_of held.now own.now) }
{
    let stretch = held.stretch;
    PlaceName {
        line: own.line,
        ..stretch.name
    }
}

/// Whether some boxes and those by which the box of this place is compared meet. The latter are made here, and kept.
fn meets_made(
    two: &TwoStretches,
    pieces: &PieceTree,
    boxes: &[ZoneBox],
    place: usize,
    kept: &mut Kept,
) -> bool
    requires fit { All (All IsFit) two.now.scene.now.run.now.items }
    requires place { place < length boxes.now }
    requires kept { IsKeptOf two.now.scene.now.job.now two.now.scene.now.run.now two.now.right.now.zone.now
        two.now.right.now.stretch.now boxes.now kept.old }
    ensures met { (d : ZoneBox) → result ≡ list_any
        (λ piece. list_any (boxes_meet piece) (piece_boxes two.now.scene.now.job.now two.now.scene.now.run.now
        (box_of two.now.right.now (slice_index_or boxes.now place d)))) pieces.now }
    ensures kept { IsKeptOf two.now.scene.now.job.now two.now.scene.now.run.now two.now.right.now.zone.now
        two.now.right.now.stretch.now boxes.now kept.new }
{
    let scene = two.scene;
    let held = two.right;
    let later = &boxes[place];
    let made = boxes_by_pieces(scene.job, scene.run, held.zone, held.stretch, later);
    let others = PieceTree::over(made);
    kept.pieces.keep(scene.alloc, boxes.len(), place, &others);
    pieces.meets(&others)
}

/// Whether some boxes and those by which the box of this place is compared meet: first with the cover of that box, and then with its
/// boxes, which are kept.
fn pieces_touch(
    two: &TwoStretches,
    pieces: &PieceTree,
    boxes: &[ZoneBox],
    place: usize,
    kept: &mut Kept,
) -> bool
    requires fit { All (All IsFit) two.now.scene.now.run.now.items }
    requires place { place < length boxes.now }
    requires kept { IsKeptOf two.now.scene.now.job.now two.now.scene.now.run.now two.now.right.now.zone.now
        two.now.right.now.stretch.now boxes.now kept.old }
    ensures met { (d : ZoneBox) → result ≡ model.pieces_touch pieces.now (slice_index_or boxes.now place d).cover
        (piece_boxes two.now.scene.now.job.now two.now.scene.now.run.now
        (box_of two.now.right.now (slice_index_or boxes.now place d))) }
    ensures kept { IsKeptOf two.now.scene.now.job.now two.now.scene.now.run.now two.now.right.now.zone.now
        two.now.right.now.stretch.now boxes.now kept.new }
{
    let later = &boxes[place];
    if !pieces.meets_box(&later.cover) {
        return false;
    }
    if let Some(met) = kept.pieces.meets(pieces, place) {
        return met;
    }
    meets_made(two, pieces, boxes, place, kept)
}

/// The names of a box and of the first of these of a stretch, from this place on, that it meets. The one of this place is compared
/// with it, and their covers meet.
fn first_by_pieces(
    two: &TwoStretches,
    own: &PiecedBox,
    boxes: &[ZoneBox],
    kept: &mut Kept,
    from: usize,
) -> Option<(PlaceName, PlaceName)>
    requires fit { All (All IsFit) two.now.scene.now.run.now.items }
    requires pieces { own.now.pieces.now ≡ piece_boxes two.now.scene.now.job.now two.now.scene.now.run.now
        (box_of two.now.left.now own.now.whole.now) }
    requires from { from ≤ length boxes.now }
    requires near { (d : ZoneBox) → from < length boxes.now
        → is_near two.now.shared own.now.whole.now (slice_index_or boxes.now from d) ≡ true }
    requires kept { IsKeptOf two.now.scene.now.job.now two.now.scene.now.run.now two.now.right.now.zone.now
        two.now.right.now.stretch.now boxes.now kept.old }
    ensures names { result ≡ first_some (λ later. model.names_where_met (case_of two.now.scene.now) two.now.shared
        (box_of two.now.left.now own.now.whole.now) (box_of two.now.right.now later)) (drop from boxes.now) }
    ensures kept { IsKeptOf two.now.scene.now.job.now two.now.scene.now.run.now two.now.right.now.zone.now
        two.now.right.now.stretch.now boxes.now kept.new }
{
    let mut place = from;
    while place < boxes.len() {
        if pieces_touch(two, own.pieces, boxes, place, kept) {
            return Some((named(two.left, own.whole), named(two.right, &boxes[place])));
        }
        place = next_near(two.shared, own.whole, boxes, &kept.covers, place + 1);
    }
    None
}

/// The names of a box and of the first of these of a stretch, from this place on, that it meets. The one of this place is compared
/// with it, and their covers meet. The boxes by which it is compared are made here: their room is long, so no box that is far makes it.
fn first_from(
    two: &TwoStretches,
    own: &ZoneBox,
    boxes: &[ZoneBox],
    kept: &mut Kept,
    from: usize,
) -> Option<(PlaceName, PlaceName)>
    requires fit { All (All IsFit) two.now.scene.now.run.now.items }
    requires from { from ≤ length boxes.now }
    requires near { (d : ZoneBox) → from < length boxes.now
        → is_near two.now.shared own.now (slice_index_or boxes.now from d) ≡ true }
    requires kept { IsKeptOf two.now.scene.now.job.now two.now.scene.now.run.now two.now.right.now.zone.now
        two.now.right.now.stretch.now boxes.now kept.old }
    ensures names { result ≡ first_some (λ later. model.names_where_met (case_of two.now.scene.now) two.now.shared
        (box_of two.now.left.now own.now) (box_of two.now.right.now later)) (drop from boxes.now) }
    ensures kept { IsKeptOf two.now.scene.now.job.now two.now.scene.now.run.now two.now.right.now.zone.now
        two.now.right.now.stretch.now boxes.now kept.new }
{
    let scene = two.scene;
    let left = two.left;
    let boxes_of_own = boxes_by_pieces(scene.job, scene.run, left.zone, left.stretch, own);
    let pieces = PieceTree::over(boxes_of_own);
    let pieced = PiecedBox {
        whole: own,
        pieces: &pieces,
    };
    first_by_pieces(two, &pieced, boxes, kept, from)
}

/// The names of a box and of the first of these of a stretch that it meets. An equal box of an equal motion that met none of
/// them is passed over.
#[tactic(auto, unfolding(crate::specs::Meetings::first_touched_among))]
fn first_touched(
    two: &TwoStretches,
    own: &ZoneBox,
    boxes: &[ZoneBox],
    kept: &mut Kept,
    passed: &mut PassedBoxes,
) -> Option<(PlaceName, PlaceName)>
    requires fit { All (All IsFit) two.now.scene.now.run.now.items }
    requires passed { ArePassed two.now.scene.now.job.now two.now.scene.now.run.now two.now.left.now.zone.now
        two.now.right.now.zone.now two.now.right.now.stretch.now boxes.now passed.old }
    requires kept { IsKeptOf two.now.scene.now.job.now two.now.scene.now.run.now two.now.right.now.zone.now
        two.now.right.now.stretch.now boxes.now kept.old }
    ensures names { result ≡ model.first_touched_among (case_of two.now.scene.now) two.now.shared
        (box_of two.now.left.now own.now) two.now.right.now.zone.now two.now.right.now.stretch.now boxes.now }
    ensures kept { IsKeptOf two.now.scene.now.job.now two.now.scene.now.run.now two.now.right.now.zone.now
        two.now.right.now.stretch.now boxes.now kept.new }
    ensures passed { ArePassed two.now.scene.now.job.now two.now.scene.now.run.now two.now.left.now.zone.now
        two.now.right.now.zone.now two.now.right.now.stretch.now boxes.now passed.new }
{
    let shared = two.shared;
    let first = next_near(shared, own, boxes, &kept.covers, 0);
    if first == boxes.len() {
        return None;
    }
    let scene = two.scene;
    let left = two.left;
    let stretch = left.stretch;
    let motion = motion_at(scene.run, stretch.entry, own.motion);
    if passed.has(&own.cover, motion) {
        return None;
    }
    let names = first_from(two, own, boxes, kept, first);
    if !shared && names.is_none() {
        passed.keep(&own.cover, motion);
    }
    names
}

/// The names of the first two boxes of two stretches that meet, where they share a channel or not.
fn first_in_all_boxes(
    two: &TwoStretches,
    place: usize,
    memory: &mut Memory,
) -> Option<(PlaceName, PlaceName)>
    requires fit { All (All IsFit) two.now.scene.now.run.now.items }
    requires memory { memory.old.place ≡ place
        → IsMemory two.now.scene.now.job.now two.now.scene.now.run.now two.now.left.now.zone.now
        two.now.right.now.zone.now two.now.right.now.stretch.now memory.old }
    ensures names { result ≡ first_some (λ own. model.first_touched (case_of two.now.scene.now) two.now.shared
        (box_of two.now.left.now own) two.now.right.now.zone.now two.now.right.now.stretch.now)
        two.now.left.now.stretch.now.boxes }
    ensures place { memory.new.place ≡ place }
    ensures memory { IsMemory two.now.scene.now.job.now two.now.scene.now.run.now two.now.left.now.zone.now
        two.now.right.now.zone.now two.now.right.now.stretch.now memory.new }
{
    let scene = two.scene;
    let left = two.left;
    let right = two.right;
    let stretch = left.stretch;
    let other = right.stretch;
    renew(scene, stretch.boxes.len(), &other.boxes, place, memory);
    for own in &stretch.boxes {
        if let Some(names) = first_touched(
            two,
            own,
            &other.boxes,
            &mut memory.kept,
            &mut memory.passed,
        ) {
            return Some(names);
        }
    }
    None
}

/// The names of the first of these boxes and those of a stretch of the same channel that meet, where the boxes of the second begin and
/// end one after another: a box of the first is looked at with those alone with which it holds a place in common.
fn first_in_places(
    two: &TwoStretches,
    boxes: &[ZoneBox],
    others: &[ZoneBox],
) -> Option<(PlaceName, PlaceName)>
    requires fit { All (All IsFit) two.now.scene.now.run.now.items }
    requires shared { two.now.shared ≡ true }
    requires ascend { places.do_boxes_ascend others.now ≡ true }
    ensures { result ≡ first_some (λ own. model.first_touched_among (case_of two.now.scene.now) true
        (box_of two.now.left.now own) two.now.right.now.zone.now two.now.right.now.stretch.now others.now)
        boxes.now }
{
    let scene = two.scene;
    let mut range = IndexRange { from: 0, upto: 0 };
    for own in boxes {
        range = place_range(own, others, range);
        let near = part(others, range);
        let mut kept = kept_for(scene.alloc, scene.room, 1, near);
        let mut passed = PassedBoxes::new(scene.alloc);
        if let Some(names) = first_touched(two, own, near, &mut kept, &mut passed) {
            return Some(names);
        }
    }
    None
}

/// The names of the first two boxes of two stretches that meet, where they share a channel or not. A stretch of few boxes leaves the memory
/// to the others.
fn first_in_boxes(
    two: &TwoStretches,
    place: usize,
    memory: &mut Memory,
) -> Option<(PlaceName, PlaceName)>
    requires fit { All (All IsFit) two.now.scene.now.run.now.items }
    requires memory { memory.old.place ≡ place
        → IsMemory two.now.scene.now.job.now two.now.scene.now.run.now two.now.left.now.zone.now
        two.now.right.now.zone.now two.now.right.now.stretch.now memory.old }
    ensures memory { StaysMemory two.now.scene.now.job.now two.now.scene.now.run.now two.now.left.now.zone.now
        two.now.right.now.zone.now two.now.right.now.stretch.now place memory.old memory.new }
    ensures names { result ≡ first_some (λ own. model.first_touched (case_of two.now.scene.now) two.now.shared
        (box_of two.now.left.now own) two.now.right.now.zone.now two.now.right.now.stretch.now)
        two.now.left.now.stretch.now.boxes }
{
    let left = two.left;
    let right = two.right;
    let scene = two.scene;
    let shared = two.shared;
    let own = left.stretch;
    let other = right.stretch;
    if shared && do_boxes_ascend(&other.boxes) {
        first_in_places(two, &own.boxes, &other.boxes)
    } else if other.boxes.len() < TREE_OTHERS {
        first_in_all_boxes(two, 0, &mut new_memory(scene.alloc))
    } else {
        first_in_all_boxes(two, place, memory)
    }
}

/// The names of the first two boxes of two stretches that meet. One with no boxes is looked at once.
#[tactic(auto, unfolding(crate::specs::Meetings::first_in_stretches))]
fn first_in_stretches(
    scene: &Scene,
    left: &ZoneStretch,
    right: &ZoneStretch,
    place: usize,
    memory: &mut Memory,
) -> Option<(PlaceName, PlaceName)>
    requires fit { All (All IsFit) scene.now.run.now.items }
    requires memory { memory.old.place ≡ place
        → IsMemory scene.now.job.now scene.now.run.now left.now.zone.now right.now.zone.now
        right.now.stretch.now memory.old }
    ensures memory { StaysMemory scene.now.job.now scene.now.run.now left.now.zone.now right.now.zone.now
        right.now.stretch.now place memory.old memory.new }
    ensures names { result ≡ model.first_in_stretches (case_of scene.now)
        left.now.zone.now left.now.stretch.now right.now.zone.now right.now.stretch.now }
{
    let stretch = right.stretch;
    if stretch.boxes.is_empty() {
        return None;
    }
    if !may_overlap(scene.clocks, left.stretch, stretch) {
        return None;
    }
    let two = TwoStretches {
        scene,
        shared: share_channel(left.stretch, right.stretch),
        left,
        right,
    };
    first_in_boxes(&two, place, memory)
}

/// The names of the first boxes of a stretch and the stretches of another zone that meet.
#[tactic(auto, unfolding(crate::specs::Meetings::first_against))]
fn first_against<'a>(
    scene: &Scene,
    left: &ZoneStretch,
    other: &'a ZoneLine,
    others: &'a [Stretch],
) -> Option<(PlaceName, PlaceName)>
    requires fit { All (All IsFit) scene.now.run.now.items }
    ensures { result ≡ model.first_against (case_of scene.now) left.now.zone.now
        (record { zone = other.now; stretches = others.now }) left.now.stretch.now }
{
    let own = left.stretch;
    if own.boxes.is_empty() {
        return None;
    }
    for stretch in others {
        let right = ZoneStretch {
            zone: other,
            stretch,
        };
        let mut memory = new_memory(scene.alloc);
        if let Some(names) = first_in_stretches(scene, left, &right, 0, &mut memory) {
            return Some(names);
        }
    }
    None
}

/// The names of the first boxes of a stretch and those of these places of another zone that meet. Stretches with no boxes are passed
/// over.
fn first_of_shown(
    scene: &Scene,
    left: &ZoneStretch,
    other: &ShownZone,
    range: IndexRange,
    memory: &mut Memory,
) -> Option<(PlaceName, PlaceName)>
    requires fit { All (All IsFit) scene.now.run.now.items }
    requires next { IsNext other.now.stretches.now other.now.next.now }
    requires within_from { range.from ≤ length other.now.stretches.now }
    requires within { range.upto ≤ length other.now.stretches.now }
    requires memory { IsMemoryOfAny scene.now.job.now scene.now.run.now left.now.zone.now
        other.now.zone.now other.now.stretches.now memory.old }
    ensures memory { IsMemoryOfAny scene.now.job.now scene.now.run.now left.now.zone.now
        other.now.zone.now other.now.stretches.now memory.new }
    ensures names { result ≡ first_some (model.first_in_stretches (case_of scene.now)
        left.now.zone.now left.now.stretch.now other.now.zone.now)
        (drop range.from (take range.upto other.now.stretches.now)) }
{
    let others = other.stretches;
    let next = other.next;
    let mut place = next[range.from];
    while place < range.upto {
        let right = ZoneStretch {
            zone: other.zone,
            stretch: &others[place],
        };
        if let Some(names) = first_in_stretches(scene, left, &right, place, memory) {
            return Some(names);
        }
        place = next[place + 1];
    }
    None
}

/// The names of the first boxes of a stretch and those of these places of another zone that meet. A stretch with no boxes is looked
/// at once.
#[tactic(auto, unfolding(crate::specs::Meetings::first_against))]
fn first_in_range(
    scene: &Scene,
    left: &ZoneStretch,
    other: &ShownZone,
    range: IndexRange,
    memory: &mut Memory,
) -> Option<(PlaceName, PlaceName)>
    requires fit { All (All IsFit) scene.now.run.now.items }
    requires next { IsNext other.now.stretches.now other.now.next.now }
    requires within_from { range.from ≤ length other.now.stretches.now }
    requires within { range.upto ≤ length other.now.stretches.now }
    requires memory { IsMemoryOfAny scene.now.job.now scene.now.run.now left.now.zone.now
        other.now.zone.now other.now.stretches.now memory.old }
    ensures memory { IsMemoryOfAny scene.now.job.now scene.now.run.now left.now.zone.now
        other.now.zone.now other.now.stretches.now memory.new }
    ensures names { result ≡ model.first_against (case_of scene.now) left.now.zone.now
        (record { zone = other.now.zone.now; stretches = drop range.from (take range.upto other.now.stretches.now) })
        left.now.stretch.now }
{
    let own = left.stretch;
    if own.boxes.is_empty() {
        None
    } else {
        first_of_shown(scene, left, other, range, memory)
    }
}

/// The names of the first two boxes of the stretches of two zones that meet.
fn first_of_all<'a>(
    scene: &Scene,
    zone: &'a ZoneLine,
    own: &'a [Stretch],
    other: &ZoneLine,
    others: &[Stretch],
) -> Option<(PlaceName, PlaceName)>
    requires fit { All (All IsFit) scene.now.run.now.items }
    ensures { result ≡ first_some (model.first_against
        (case_of scene.now)
        zone.now (record { zone = other.now; stretches = others.now })) own.now }
{
    for stretch in own {
        let left = ZoneStretch { zone, stretch };
        if let Some(names) = first_against(scene, &left, other, others) {
            return Some(names);
        }
    }
    None
}

/// The names of the first two boxes of the stretches of two zones that meet, where each of the second is over as the next begins: a
/// stretch of the first is looked at with those alone that it may overlap and that have boxes.
fn first_of_ascending<'a>(
    scene: &Scene,
    zone: &'a ZoneLine,
    own: &'a [Stretch],
    own_ascends: bool,
    other: &ShownZone,
) -> Option<(PlaceName, PlaceName)>
    requires fit { All (All IsFit) scene.now.run.now.items }
    requires timed { IsTimed (case_of scene.now).before (own.now ∷ (other.now.stretches.now ∷ [])) }
    requires own_ascend { own_ascends ≡ true → ascents.is_chain (case_of scene.now).before own.now ≡ true }
    requires ascend { ascents.is_chain (case_of scene.now).before other.now.stretches.now ≡ true }
    requires next { IsNext other.now.stretches.now other.now.next.now }
    ensures { result ≡ first_some (model.first_against (case_of scene.now) zone.now
        (record { zone = other.now.zone.now; stretches = other.now.stretches.now })) own.now }
{
    let others = other.stretches;
    let mut walk = start_walk(scene.clocks, own, others, own_ascends);
    let mut memory = new_memory(scene.alloc);
    for stretch in own {
        let left = ZoneStretch { zone, stretch };
        let range = range_of(scene.clocks, stretch, others, walk);
        walk.range = range;
        if let Some(names) = first_in_range(scene, &left, other, range, &mut memory) {
            return Some(names);
        }
    }
    None
}

/// The names of the first two boxes of two zones that meet, where they are of different groups. Where memory is too short for the
/// places of the stretches that have boxes, each stretch is looked at with each.
#[tactic(auto, unfolding(crate::specs::Meetings::first_of_zones))]
pub(crate) fn first_of_zones(
    scene: &Scene,
    left: &TimedZone,
    right: &TimedZone,
) -> Option<(PlaceName, PlaceName)>
    requires fit { All (All IsFit) scene.now.run.now.items }
    requires timed { AreTimed (case_of scene.now).before (left.now, right.now) }
    ensures { result ≡ model.first_of_zones (case_of scene.now) left.now.time right.now.time }
{
    if left.zone.group == right.zone.group {
        return None;
    }
    if !right.ascends {
        return first_of_all(
            scene,
            &left.zone,
            left.stretches,
            &right.zone,
            right.stretches,
        );
    }
    match next_shown(scene.alloc, right.stretches) {
        Ok(next) => {
            let other = ShownZone {
                zone: &right.zone,
                stretches: right.stretches,
                next: next.as_slice(),
            };
            first_of_ascending(scene, &left.zone, left.stretches, left.ascends, &other)
        }
        Err(_) => first_of_all(
            scene,
            &left.zone,
            left.stretches,
            &right.zone,
            right.stretches,
        ),
    }
}
