//! How near the compared boxes of two groups come to each other.
ghost use Rattle.std.specs.Prelude.{◌≡◌, ◌≤◌, ◌++◌, ◌∷◌, [], min, max, true, All, List, OnOk, IfOk, IfSome};
ghost use Rattle.std.specs.List.{Any, flat_map, list_any};
ghost use Rattle.job_lines.specs.declared.limits.TheConstants.{DEPTH_LIMIT};
ghost use Rattle.job_types.specs.Job.{JobView};
ghost use Rattle.job_types.specs.SoundJob.{IsSoundJob};
ghost use Rattle.explain_meetings.specs.KeptBoxes.{AreKept, IsAt};
ghost use Rattle.explain_meetings.specs.Meetings.{told_place};
ghost use Rattle.zone_stretches.specs.Cases.{box_of};
ghost use Rattle.explain_meetings.specs.Nearest as model;
ghost use Rattle.explain_meetings.specs.NearSteps as steps;
ghost use Rattle.explain_meetings.specs.PassedOwns.{AreLookedAt};
ghost use Rattle.order_clocks.specs.Tells.{is_before_in};
ghost use Rattle.zone_stretches.specs.Overlaps.{Pair, box_pairs, compared_pairs};
ghost use Rattle.zone_stretches.specs.Pieces.{piece_boxes};
ghost use Rattle.zone_stretches.specs.StretchPairs.{boxes_with};
ghost use Rattle.zone_stretches.specs.TimedZones.{AreTimed, each_two};
ghost use Rattle.zone_stretches.specs.Told.{IsTold};
ghost use Rattle.zone_stretches.specs.ZoneBoxes.{IsFit};
ghost use Rattle.sync_types.specs.Views.{RunView};

use crate::contexts::{PartedBox, PlacedBox, Scene, TwoStretches};
use crate::kept::{are_kept, keep_at, kept_at, lot_of};
use crate::meetings::told_box;
use axis_sets::{ChannelId, ZoneId};
use explain_places::Place;
use explain_reach::{PartedBoxes, least_way};
use job_types::{Job, ZoneLine};
use order_clocks::Clocks;
use out_of_memory::NoMemory;
use passed_boxes::PassedBoxes;
use std::alloc::{AllocError, Global};
use swept_boxes::Box3;
use sync_types::{EventId, Run, StretchKind};
use zone_stretches::{
    StretchPairs, Stretches, TimedZone, TimedZones, ZoneBox, ZoneStretch, are_compared, motion_at,
    share_channel,
};

/// The two compared boxes of two groups that come nearest to each other.
#[derive(Clone, Copy)]
pub struct Near {
    /// The lower and the higher of the groups.
    pub groups: (u8, u8),
    /// By how many micrometres the boxes by which they are compared reach into each other at most; below 0 they are so far apart.
    pub reach: i64,
    /// The box of the zone with the lower number.
    pub left: Place,
    /// That of the other zone.
    pub right: Place,
}

/// The groups of two zones, the lower first.
fn groups_of(zone: &ZoneLine, other: &ZoneLine) -> (u8, u8)
    ensures low { result.0 ≡ min zone.now.group other.now.group }
    ensures high { result.1 ≡ max zone.now.group other.now.group }
{
    (zone.group.min(other.group), zone.group.max(other.group))
}

/// Whether two rows are of the same groups.
fn are_same(one: &Near, other: &Near) -> bool
    ensures { result ≡ steps.same_groups one.now other.now }
{
    one.groups.0 == other.groups.0 && one.groups.1 == other.groups.1
}

/// Of two rows the one that reaches further, or the first.
fn nearer(row: &Near, near: &Near) -> Near
    ensures { result ≡ steps.nearer row.now near.now }
{
    if row.reach < near.reach { *near } else { *row }
}

/// Adds a row. The parts of one of its boxes are named here, as the check of a `push` asks for it.
fn add(rows: &mut Vec<Near>, near: &Near) -> Result<(), AllocError>
    ensures { OnOk result (rows.new.items ≡ rows.old.items ++ near.now ∷ []) }
{
    let place: Place = near.left;
    let name = place.name;
    let _zone: ZoneId = name.zone;
    let _channel: Option<ChannelId> = name.channel;
    let _kind: StretchKind = name.kind;
    let _first: Option<EventId> = place.first;
    let _cover: Box3 = place.cover;
    rows.push(*near)?;
    Ok(())
}

/// Puts two boxes in the place of those of their groups, where these are less near, or adds them.
fn put(rows: &mut Vec<Near>, near: &Near) -> Result<(), AllocError>
    ensures { OnOk result (rows.new.items ≡ steps.put_near rows.old.items near.now) }
{
    for place in 0..rows.len() {
        let row = rows[place];
        if are_same(&row, near) {
            rows[place] = nearer(&row, near);
            return Ok(());
        }
    }
    add(rows, near)?;
    Ok(())
}

/// How near two boxes come that reach so far into each other.
fn near_of(
    reach: i64,
    left: &ZoneStretch,
    own: &ZoneBox,
    right: &ZoneStretch,
    later: &ZoneBox,
) -> Near
    ensures groups { result.groups ≡ model.groups_of (
      box_of left.now own.now,
      box_of right.now later.now,
    ) }
    ensures reach { result.reach ≡ reach }
    ensures left { result.left ≡ told_place (box_of left.now own.now) }
    ensures right { result.right ≡ told_place (box_of right.now later.now) }
{
    Near {
        groups: groups_of(left.zone, right.zone),
        reach,
        left: told_box(left.stretch, own),
        right: told_box(right.stretch, later),
    }
}

/// Whether a row is of these groups and reaches as far as this.
fn is_as_near(row: &Near, groups: (u8, u8), reach: i64) -> bool
    ensures { result ≡ steps.is_as_near groups reach row.now }
{
    row.groups.0 == groups.0 && row.groups.1 == groups.1 && reach <= row.reach
}

/// Whether one of these rows is.
fn is_any_as_near(rows: &[Near], groups: (u8, u8), reach: i64) -> bool
    ensures { result ≡ list_any (steps.is_as_near groups reach) rows.now }
{
    rows.iter().any(|row| is_as_near(row, groups, reach))
}

/// How far the boxes of the row of these groups reach into each other, where there is one.
fn reach_in(rows: &[Near], groups: (u8, u8)) -> Option<i64>
    ensures { IfSome result (λ reach. Any (λ row. steps.is_as_near groups reach row ≡ true) rows.now) }
{
    for row in rows {
        if row.groups.0 == groups.0 && row.groups.1 == groups.1 {
            return Some(row.reach);
        }
    }
    None
}

/// Whether the covers of two boxes reach further into each other than any row of their groups.
fn may_be_nearer(
    rows: &[Near],
    left: &ZoneStretch,
    own: &ZoneBox,
    right: &ZoneStretch,
    later: &ZoneBox,
) -> bool
    ensures { result ≡ steps.may_be_nearer rows.now (
      box_of left.now own.now,
      box_of right.now later.now,
    ) }
{
    let way = least_way(&own.cover, &later.cover);
    !is_any_as_near(rows, groups_of(left.zone, right.zone), way.shift)
}

/// The same of two boxes that are compared.
fn may_count(
    rows: &[Near],
    left: &ZoneStretch,
    own: &ZoneBox,
    right: &ZoneStretch,
    later: &ZoneBox,
) -> bool
    ensures { result ≡ steps.may_count rows.now (box_of left.now own.now)
        right.now.zone.now right.now.stretch.now later.now }
{
    are_compared(share_channel(left.stretch, right.stretch), own, later)
        && may_be_nearer(rows, left, own, right, later)
}

/// The same of a box and one of these of a stretch.
fn may_any_count(
    rows: &[Near],
    left: &ZoneStretch,
    own: &ZoneBox,
    right: &ZoneStretch,
    laters: &[ZoneBox],
) -> bool
    ensures { result ≡ list_any (steps.may_count rows.now (box_of left.now own.now)
        right.now.zone.now right.now.stretch.now) laters.now }
{
    laters
        .iter()
        .any(|later| may_count(rows, left, own, right, later))
}

/// Looks at two boxes that are compared; these are the boxes by which they are. Where none of them reach further than the row of
/// their groups, the rows stay as they are.
fn look_by_pieces(
    rows: &mut Vec<Near>,
    two: &TwoStretches,
    own: &PartedBox,
    later: &PartedBox,
) -> Result<(), AllocError>
    ensures { OnOk result ((job : JobView) → (run : RunView) → (seen : List Pair)
        → own.now.pieces.now ≡ piece_boxes job run (box_of two.now.left.now own.now.whole.now)
        → later.now.pieces.now ≡ piece_boxes job run (box_of two.now.right.now later.now.whole.now)
        → model.AreNearest job run seen rows.old.items
        → model.AreNearest job run (seen ++ (
          box_of two.now.left.now own.now.whole.now,
          box_of two.now.right.now later.now.whole.now,
        ) ∷ []) rows.new.items) }
{
    let left = two.left;
    let right = two.right;
    let pieces = own.pieces;
    let so_far = reach_in(rows.as_slice(), groups_of(left.zone, right.zone));
    if let Some(reach) = pieces.greatest_overlap(so_far, later.pieces) {
        let near = near_of(reach, left, own.whole, right, later.whole);
        put(rows, &near)?;
    }
    Ok(())
}

/// Looks at two boxes that are compared; these are the boxes by which the first is compared. Those of the second are kept, where they
/// are to be.
fn look(
    rows: &mut Vec<Near>,
    kept: &mut Vec<PartedBoxes>,
    two: &TwoStretches,
    own: &PartedBox,
    later: &PlacedBox,
) -> Result<(), AllocError>
    requires fit { All (All IsFit) two.now.scene.now.run.now.items }
    requires deep { two.now.scene.now.job.now.depth ≤ DEPTH_LIMIT }
    requires pieces { own.now.pieces.now ≡ piece_boxes two.now.scene.now.job.now two.now.scene.now.run.now
        (box_of two.now.left.now own.now.whole.now) }
    requires later { IsAt two.now.right.now.stretch.now.boxes later.now.place later.now.whole.now }
    requires kept { AreKept two.now.scene.now.job.now two.now.scene.now.run.now two.now.right.now.zone.now
        two.now.right.now.stretch.now kept.old.items }
    ensures kept { OnOk result (AreKept two.now.scene.now.job.now two.now.scene.now.run.now two.now.right.now.zone.now
        two.now.right.now.stretch.now kept.new.items) }
    ensures near { OnOk result ((seen : List Pair)
        → model.AreNearest two.now.scene.now.job.now two.now.scene.now.run.now seen rows.old.items
        → model.AreNearest two.now.scene.now.job.now two.now.scene.now.run.now
        (seen ++ (
          box_of two.now.left.now own.now.whole.now,
          box_of two.now.right.now later.now.whole.now,
        ) ∷ []) rows.new.items) }
{
    let scene = two.scene;
    let left = two.left;
    let right = two.right;
    let place = later.place;
    if are_kept(left, place) {
        keep_at(kept, scene, right, place, later.whole)?;
        let others = kept_at(kept.as_slice(), place);
        let parted = PartedBox {
            whole: later.whole,
            pieces: others,
        };
        look_by_pieces(rows, two, own, &parted)?;
        return Ok(());
    }
    let made = lot_of(scene, right, later.whole)?;
    let parted = PartedBox {
        whole: later.whole,
        pieces: &made,
    };
    look_by_pieces(rows, two, own, &parted)?;
    Ok(())
}

/// Looks at two boxes that are compared, where their covers reach further than the row of their groups. The boxes by which they are
/// compared lie in their covers, so they reach no further than these.
fn look_near(
    rows: &mut Vec<Near>,
    kept: &mut Vec<PartedBoxes>,
    two: &TwoStretches,
    own: &PartedBox,
    later: &PlacedBox,
) -> Result<(), AllocError>
    requires fit { All (All IsFit) two.now.scene.now.run.now.items }
    requires deep { two.now.scene.now.job.now.depth ≤ DEPTH_LIMIT }
    requires pieces { own.now.pieces.now ≡ piece_boxes two.now.scene.now.job.now two.now.scene.now.run.now
        (box_of two.now.left.now own.now.whole.now) }
    requires later { IsAt two.now.right.now.stretch.now.boxes later.now.place later.now.whole.now }
    requires kept { AreKept two.now.scene.now.job.now two.now.scene.now.run.now two.now.right.now.zone.now
        two.now.right.now.stretch.now kept.old.items }
    ensures kept { OnOk result (AreKept two.now.scene.now.job.now two.now.scene.now.run.now two.now.right.now.zone.now
        two.now.right.now.stretch.now kept.new.items) }
    ensures near { OnOk result ((seen : List Pair)
        → steps.AreNearestSoFar two.now.scene.now.job.now two.now.scene.now.run.now seen rows.old.items
        → steps.AreNearestSoFar two.now.scene.now.job.now two.now.scene.now.run.now
        (seen ++ (
          box_of two.now.left.now own.now.whole.now,
          box_of two.now.right.now later.now.whole.now,
        ) ∷ []) rows.new.items) }
{
    if may_be_nearer(rows.as_slice(), two.left, own.whole, two.right, later.whole) {
        look(rows, kept, two, own, later)?;
    }
    Ok(())
}

/// Looks at two boxes, where they are compared.
fn look_at(
    rows: &mut Vec<Near>,
    kept: &mut Vec<PartedBoxes>,
    two: &TwoStretches,
    own: &PartedBox,
    later: &PlacedBox,
) -> Result<(), AllocError>
    requires fit { All (All IsFit) two.now.scene.now.run.now.items }
    requires deep { two.now.scene.now.job.now.depth ≤ DEPTH_LIMIT }
    requires pieces { own.now.pieces.now ≡ piece_boxes two.now.scene.now.job.now two.now.scene.now.run.now
        (box_of two.now.left.now own.now.whole.now) }
    requires later { IsAt two.now.right.now.stretch.now.boxes later.now.place later.now.whole.now }
    requires kept { AreKept two.now.scene.now.job.now two.now.scene.now.run.now two.now.right.now.zone.now
        two.now.right.now.stretch.now kept.old.items }
    ensures kept { OnOk result (AreKept two.now.scene.now.job.now two.now.scene.now.run.now two.now.right.now.zone.now
        two.now.right.now.stretch.now kept.new.items) }
    ensures near { OnOk result ((seen : List Pair)
        → steps.AreNearestSoFar two.now.scene.now.job.now two.now.scene.now.run.now seen rows.old.items
        → steps.AreNearestSoFar two.now.scene.now.job.now two.now.scene.now.run.now
        (seen ++ steps.pair_where (box_of two.now.left.now own.now.whole.now) two.now.right.now.zone.now
        two.now.right.now.stretch.now later.now.whole.now) rows.new.items) }
{
    let left = two.left;
    let right = two.right;
    let whole = own.whole;
    let other = later.whole;
    if are_compared(share_channel(left.stretch, right.stretch), whole, other) {
        look_near(rows, kept, two, own, later)?;
    }
    Ok(())
}

/// Looks at a box with some of a stretch; these are the boxes by which the first is compared.
fn look_each(
    rows: &mut Vec<Near>,
    kept: &mut Vec<PartedBoxes>,
    two: &TwoStretches,
    own: &PartedBox,
    laters: &[ZoneBox],
) -> Result<(), AllocError>
    requires fit { All (All IsFit) two.now.scene.now.run.now.items }
    requires deep { two.now.scene.now.job.now.depth ≤ DEPTH_LIMIT }
    requires pieces { own.now.pieces.now ≡ piece_boxes two.now.scene.now.job.now two.now.scene.now.run.now
        (box_of two.now.left.now own.now.whole.now) }
    requires laters { laters.now ≡ two.now.right.now.stretch.now.boxes }
    requires kept { AreKept two.now.scene.now.job.now two.now.scene.now.run.now two.now.right.now.zone.now
        two.now.right.now.stretch.now kept.old.items }
    ensures kept { OnOk result (AreKept two.now.scene.now.job.now two.now.scene.now.run.now two.now.right.now.zone.now
        two.now.right.now.stretch.now kept.new.items) }
    ensures near { OnOk result ((seen : List Pair)
        → steps.AreNearestSoFar two.now.scene.now.job.now two.now.scene.now.run.now seen rows.old.items
        → steps.AreNearestSoFar two.now.scene.now.job.now two.now.scene.now.run.now
        (seen ++ flat_map (steps.pair_where (box_of two.now.left.now own.now.whole.now)
        two.now.right.now.zone.now two.now.right.now.stretch.now) laters.now) rows.new.items) }
{
    for place in 0..laters.len() {
        let later = PlacedBox {
            place,
            whole: &laters[place],
        };
        look_at(rows, kept, two, own, &later)?;
    }
    Ok(())
}

/// Looks at a box with those of a stretch. The boxes by which it is compared are made once, where any may be nearer.
fn look_anew(
    rows: &mut Vec<Near>,
    kept: &mut Vec<PartedBoxes>,
    two: &TwoStretches,
    own: &ZoneBox,
) -> Result<(), AllocError>
    requires fit { All (All IsFit) two.now.scene.now.run.now.items }
    requires deep { two.now.scene.now.job.now.depth ≤ DEPTH_LIMIT }
    requires kept { AreKept two.now.scene.now.job.now two.now.scene.now.run.now two.now.right.now.zone.now
        two.now.right.now.stretch.now kept.old.items }
    ensures kept { OnOk result (AreKept two.now.scene.now.job.now two.now.scene.now.run.now two.now.right.now.zone.now
        two.now.right.now.stretch.now kept.new.items) }
    ensures near { OnOk result ((seen : List Pair)
        → steps.AreNearestSoFar two.now.scene.now.job.now two.now.scene.now.run.now seen rows.old.items
        → steps.AreNearestSoFar two.now.scene.now.job.now two.now.scene.now.run.now
        (seen ++ steps.pairs_by two.now.right.now.zone.now two.now.right.now.stretch.now
        (box_of two.now.left.now own.now)) rows.new.items) }
{
    let scene = two.scene;
    let left = two.left;
    let right = two.right;
    let other = right.stretch;
    let laters = other.boxes.as_slice();
    if !may_any_count(rows.as_slice(), left, own, right, laters) {
        return Ok(());
    }
    let pieces = lot_of(scene, left, own)?;
    let parted = PartedBox {
        whole: own,
        pieces: &pieces,
    };
    look_each(rows, kept, two, &parted, laters)?;
    Ok(())
}

/// Looks at a box with those of a stretch. An equal box of an equal motion that was looked at with all of them is passed over.
fn look_by(
    rows: &mut Vec<Near>,
    kept: &mut Vec<PartedBoxes>,
    passed: &mut PassedBoxes,
    two: &TwoStretches,
    own: &ZoneBox,
) -> Result<(), AllocError>
    requires fit { All (All IsFit) two.now.scene.now.run.now.items }
    requires deep { two.now.scene.now.job.now.depth ≤ DEPTH_LIMIT }
    requires kept { AreKept two.now.scene.now.job.now two.now.scene.now.run.now two.now.right.now.zone.now
        two.now.right.now.stretch.now kept.old.items }
    ensures kept { OnOk result (AreKept two.now.scene.now.job.now two.now.scene.now.run.now two.now.right.now.zone.now
        two.now.right.now.stretch.now kept.new.items) }
    ensures near { OnOk result ((seen : List Pair)
        → AreLookedAt two.now.scene.now.job.now two.now.scene.now.run.now two.now.left.now.zone.now
        two.now.right.now.zone.now two.now.right.now.stretch.now
        seen rows.old.items passed.old
        → AreLookedAt two.now.scene.now.job.now two.now.scene.now.run.now two.now.left.now.zone.now
        two.now.right.now.zone.now two.now.right.now.stretch.now
        (seen ++ steps.pairs_by two.now.right.now.zone.now two.now.right.now.stretch.now
        (box_of two.now.left.now own.now)) rows.new.items passed.new) }
{
    let scene = two.scene;
    let left = two.left;
    let right = two.right;
    let stretch = left.stretch;
    let motion = motion_at(scene.run, stretch.entry, own.motion);
    if passed.has(&own.cover, motion) {
        return Ok(());
    }
    look_anew(rows, kept, two, own)?;
    if !share_channel(left.stretch, right.stretch) {
        passed.keep(&own.cover, motion);
    }
    Ok(())
}

/// Looks at some boxes of a stretch and those of another.
fn look_owns(
    rows: &mut Vec<Near>,
    kept: &mut Vec<PartedBoxes>,
    passed: &mut PassedBoxes,
    two: &TwoStretches,
    owns: &[ZoneBox],
) -> Result<(), AllocError>
    requires fit { All (All IsFit) two.now.scene.now.run.now.items }
    requires deep { two.now.scene.now.job.now.depth ≤ DEPTH_LIMIT }
    requires kept { AreKept two.now.scene.now.job.now two.now.scene.now.run.now two.now.right.now.zone.now
        two.now.right.now.stretch.now kept.old.items }
    ensures kept { OnOk result (AreKept two.now.scene.now.job.now two.now.scene.now.run.now two.now.right.now.zone.now
        two.now.right.now.stretch.now kept.new.items) }
    ensures near { OnOk result ((seen : List Pair)
        → AreLookedAt two.now.scene.now.job.now two.now.scene.now.run.now two.now.left.now.zone.now
        two.now.right.now.zone.now two.now.right.now.stretch.now
        seen rows.old.items passed.old
        → AreLookedAt two.now.scene.now.job.now two.now.scene.now.run.now two.now.left.now.zone.now
        two.now.right.now.zone.now two.now.right.now.stretch.now
        (seen ++ flat_map (λ own. steps.pairs_by two.now.right.now.zone.now two.now.right.now.stretch.now
        (box_of two.now.left.now own)) owns.now) rows.new.items passed.new) }
{
    for own in owns {
        look_by(rows, kept, passed, two, own)?;
    }
    Ok(())
}

/// Looks at the boxes of two stretches. Those by which a box of the second is compared are made once, where they are asked for.
fn look_in_boxes(
    rows: &mut Vec<Near>,
    scene: &Scene,
    left: &ZoneStretch,
    right: &ZoneStretch,
) -> Result<(), AllocError>
    requires fit { All (All IsFit) scene.now.run.now.items }
    requires deep { scene.now.job.now.depth ≤ DEPTH_LIMIT }
    ensures { OnOk result ((seen : List Pair)
        → steps.AreNearestSoFar scene.now.job.now scene.now.run.now seen rows.old.items
        → steps.AreNearestSoFar scene.now.job.now scene.now.run.now
        (seen ++ box_pairs left.now.zone.now left.now.stretch.now right.now.zone.now right.now.stretch.now)
        rows.new.items) }
{
    let stretch = left.stretch;
    let owns = stretch.boxes.as_slice();
    let mut kept = Vec::new(scene.alloc);
    let mut passed = PassedBoxes::new(scene.alloc);
    let two = TwoStretches { scene, left, right };
    look_owns(rows, &mut kept, &mut passed, &two, owns)?;
    Ok(())
}

/// Looks at the boxes of two zones.
pub(crate) fn look_of_zones(
    rows: &mut Vec<Near>,
    scene: &Scene,
    left: &TimedZone,
    right: &TimedZone,
) -> Result<(), AllocError>
    requires fit { All (All IsFit) scene.now.run.now.items }
    requires deep { scene.now.job.now.depth ≤ DEPTH_LIMIT }
    requires timed { AreTimed (is_before_in scene.now.clocks.now.rows) (left.now, right.now) }
    ensures { OnOk result ((seen : List Pair)
        → steps.AreNearestSoFar scene.now.job.now scene.now.run.now seen rows.old.items
        → steps.AreNearestSoFar scene.now.job.now scene.now.run.now
        (seen ++ boxes_with (is_before_in scene.now.clocks.now.rows) (left.now, right.now)) rows.new.items) }
{
    for pair in StretchPairs::of(scene.clocks, left, right) {
        look_in_boxes(rows, scene, &pair.left, &pair.right)?;
    }
    Ok(())
}

/// The nearest of each two of these zones.
fn nearest_in(scene: &Scene, zones: &TimedZones) -> Result<Vec<Near>, AllocError>
    requires fit { All (All IsFit) scene.now.run.now.items }
    requires deep { scene.now.job.now.depth ≤ DEPTH_LIMIT }
    requires timed { All (AreTimed (is_before_in scene.now.clocks.now.rows)) (each_two zones.now) }
    ensures { IfOk result (λ near. steps.AreNearestSoFar scene.now.job.now scene.now.run.now
        (flat_map (boxes_with (is_before_in scene.now.clocks.now.rows)) (each_two zones.now)) near.items) }
{
    let mut near = Vec::new(scene.alloc);
    for pair in zones.pairs() {
        look_of_zones(&mut near, scene, &pair.0, &pair.1)?;
    }
    Ok(near)
}

/// For each two groups of which boxes are compared in a run of a job two compared boxes that come nearest to each other: of no other
/// two does a box by which it is compared reach further into one of the other. It takes memory for each two groups, and while two
/// stretches are looked at for the boxes by which those of the second are compared.
pub fn nearest_of(
    alloc: Global,
    job: &Job,
    run: &Run,
    stretches: &Stretches,
    clocks: &Clocks,
) -> Result<Vec<Near>, NoMemory>
    requires sound { IsSoundJob job.now }
    requires whole { IsTold job.now run.now stretches.now clocks.now }
    requires fit { All (All IsFit) run.now.items }
    ensures { IfOk result (λ near. model.AreNearest job.now run.now
        (compared_pairs (is_before_in clocks.now.rows) job.now stretches.now) near.items) }
{
    let zones = TimedZones::of(job, stretches, clocks);
    let scene = Scene {
        alloc,
        job,
        run,
        clocks,
    };
    let near = nearest_in(&scene, &zones)?;
    Ok(near)
}
