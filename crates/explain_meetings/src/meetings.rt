//! All boxes that meet, of zones that may not.
ghost use Rattle.std.specs.Prelude.{◌≡◌, ◌≤◌, ◌++◌, ◌∷◌, [], if◌then◌else◌, All, OnOk, IfOk};
ghost use Rattle.std.specs.List.{flat_map, list_any};
ghost use Rattle.explain_reach.specs.Lots.{lots_meet};
ghost use Rattle.job_lines.specs.declared.limits.TheConstants.{DEPTH_LIMIT};
ghost use Rattle.job_types.specs.SoundJob.{IsSoundJob};
ghost use Rattle.explain_meetings.specs.Contexts.{case_of};
ghost use Rattle.explain_meetings.specs.KeptBoxes.{AreKept, IsAt};
ghost use Rattle.explain_meetings.specs.Meetings.{meetings_of, told_box, told_pair};
ghost use Rattle.explain_meetings.specs.MeetingSteps as model;
ghost use Rattle.order_clocks.specs.Tells.{is_before_in};
ghost use Rattle.zone_stretches.specs.Cases.{box_of};
ghost use Rattle.zone_stretches.specs.Pieces.{piece_boxes};
ghost use Rattle.zone_stretches.specs.TimedZones.{AreTimed, each_two};
ghost use Rattle.zone_stretches.specs.Told.{IsTold};
ghost use Rattle.zone_stretches.specs.ZoneBoxes.{IsFit};
ghost use Rattle.swept_boxes.specs.Boxes.{boxes_meet};

use crate::contexts::{PartedBox, PlacedBox, Scene, TwoStretches};
use crate::kept::{are_kept, keep_at, kept_at, lot_of};
use axis_sets::{ChannelId, ZoneId};
use explain_places::{Meeting, Place};
use explain_reach::PartedBoxes;
use job_types::Job;
use order_clocks::Clocks;
use out_of_memory::NoMemory;
use std::alloc::{AllocError, Global};
use swept_boxes::Box3;
use sync_types::{EventId, PlaceName, Run, StretchKind};
use zone_stretches::{
    Stretch, StretchPairs, Stretches, TimedZone, TimedZones, ZoneBox, ZoneStretch, are_compared,
    share_channel,
};

/// What is told of a box of a stretch: the box, how it is named, with which events its stretch begins and ends, and the entry of the
/// run whose items its places count.
#[tactic(auto, unfolding(crate::specs::Meetings::told_box))]
pub fn told_box(stretch: &Stretch, own: &ZoneBox) -> Place
    ensures { result ≡ told_box stretch.now own.now }
{
    Place {
        name: PlaceName {
            line: own.line,
            ..stretch.name
        },
        first: stretch.first,
        last: stretch.last,
        entry: stretch.entry,
        motion: own.motion,
        from: own.from,
        to: own.to,
        cover: own.cover,
    }
}

/// What is told of a box of each of two stretches.
fn told_pair(left: &ZoneStretch, own: &ZoneBox, right: &ZoneStretch, later: &ZoneBox) -> Meeting
    ensures { result ≡ told_pair (
      box_of left.now own.now,
      box_of right.now later.now,
    ) }
{
    Meeting {
        left: told_box(left.stretch, own),
        right: told_box(right.stretch, later),
    }
}

/// Adds two boxes that meet. The parts of one of them are named here, as the check of a `push` asks for it.
fn add(list: &mut Vec<Meeting>, met: &Meeting) -> Result<(), AllocError>
    ensures { OnOk result (list.new.items ≡ list.old.items ++ met.now ∷ []) }
{
    let place: Place = met.left;
    let name = place.name;
    let _zone: ZoneId = name.zone;
    let _channel: Option<ChannelId> = name.channel;
    let _kind: StretchKind = name.kind;
    let _first: Option<EventId> = place.first;
    let _cover: Box3 = place.cover;
    list.push(*met)?;
    Ok(())
}

/// Whether the covers of two boxes share a point.
fn do_covers_meet(own: &ZoneBox, later: &ZoneBox) -> bool
    ensures { result ≡ boxes_meet own.now.cover later.now.cover }
{
    own.cover.meets(&later.cover)
}

/// Whether two boxes are compared and their covers share a point. No others meet, since the boxes by which a box is compared lie in
/// its cover.
fn may_meet(left: &ZoneStretch, own: &ZoneBox, right: &ZoneStretch, later: &ZoneBox) -> bool
    ensures { result ≡ model.may_meet left.now.stretch.now own.now right.now.stretch.now later.now }
{
    are_compared(share_channel(left.stretch, right.stretch), own, later)
        && do_covers_meet(own, later)
}

/// Whether a box may meet one of these of a stretch.
fn may_meet_any(left: &ZoneStretch, own: &ZoneBox, right: &ZoneStretch, laters: &[ZoneBox]) -> bool
    ensures { result ≡ list_any (model.may_meet left.now.stretch.now own.now right.now.stretch.now) laters.now }
{
    laters.iter().any(|later| may_meet(left, own, right, later))
}

/// Adds two boxes, where they meet; these are the boxes by which they are compared.
fn add_by_pieces(
    list: &mut Vec<Meeting>,
    two: &TwoStretches,
    own: &PartedBox,
    later: &PartedBox,
) -> Result<(), AllocError>
    ensures { OnOk result (list.new.items ≡ list.old.items
        ++ (if lots_meet own.now.pieces.now later.now.pieces.now then told_pair (
          box_of two.now.left.now own.now.whole.now,
          box_of two.now.right.now later.now.whole.now,
        ) ∷ [] else [])) }
{
    let pieces = own.pieces;
    let others = later.pieces;
    if pieces.meets(others) {
        add(
            list,
            &told_pair(two.left, own.whole, two.right, later.whole),
        )?;
    }
    Ok(())
}

/// Adds two boxes, where they meet; these are the boxes by which the first is compared. Those of the second are made only where the
/// two may meet, and kept where they are to be.
fn add_one(
    list: &mut Vec<Meeting>,
    kept: &mut Vec<PartedBoxes>,
    two: &TwoStretches,
    own: &PartedBox,
    later: &PlacedBox,
) -> Result<(), AllocError>
    requires fit { All (All IsFit) two.now.scene.now.run.now.items }
    requires deep { two.now.scene.now.job.now.depth ≤ DEPTH_LIMIT }
    requires pieces { own.now.pieces.now ≡ piece_boxes two.now.scene.now.job.now two.now.scene.now.run.now
        (box_of two.now.left.now own.now.whole.now) }
    requires later { IsAt two.now.right.now.stretch.now.boxes later.now.place later.now.whole.now }
    requires kept { AreKept two.now.scene.now.job.now two.now.scene.now.run.now two.now.right.now.zone.now
        two.now.right.now.stretch.now kept.old.items }
    ensures kept { OnOk result (AreKept two.now.scene.now.job.now two.now.scene.now.run.now two.now.right.now.zone.now
        two.now.right.now.stretch.now kept.new.items) }
    ensures met { OnOk result (list.new.items ≡ list.old.items
        ++ model.met_one (case_of two.now.scene.now)
        (box_of two.now.left.now own.now.whole.now) two.now.right.now.zone.now
        two.now.right.now.stretch.now later.now.whole.now) }
{
    let scene = two.scene;
    let left = two.left;
    let right = two.right;
    let place = later.place;
    if !may_meet(left, own.whole, right, later.whole) {
        return Ok(());
    }
    if are_kept(left, place) {
        keep_at(kept, scene, right, place, later.whole)?;
        let others = kept_at(kept.as_slice(), place);
        let parted = PartedBox {
            whole: later.whole,
            pieces: others,
        };
        add_by_pieces(list, two, own, &parted)?;
        return Ok(());
    }
    let made = lot_of(scene, right, later.whole)?;
    let parted = PartedBox {
        whole: later.whole,
        pieces: &made,
    };
    add_by_pieces(list, two, own, &parted)?;
    Ok(())
}

/// Adds a box with some of a stretch that it meets; these are the boxes by which the first is compared.
fn add_each(
    list: &mut Vec<Meeting>,
    kept: &mut Vec<PartedBoxes>,
    two: &TwoStretches,
    own: &PartedBox,
    laters: &[ZoneBox],
) -> Result<(), AllocError>
    requires fit { All (All IsFit) two.now.scene.now.run.now.items }
    requires deep { two.now.scene.now.job.now.depth ≤ DEPTH_LIMIT }
    requires pieces { own.now.pieces.now ≡ piece_boxes two.now.scene.now.job.now two.now.scene.now.run.now
        (box_of two.now.left.now own.now.whole.now) }
    requires laters { laters.now ≡ two.now.right.now.stretch.now.boxes }
    requires kept { AreKept two.now.scene.now.job.now two.now.scene.now.run.now two.now.right.now.zone.now
        two.now.right.now.stretch.now kept.old.items }
    ensures kept { OnOk result (AreKept two.now.scene.now.job.now two.now.scene.now.run.now two.now.right.now.zone.now
        two.now.right.now.stretch.now kept.new.items) }
    ensures met { OnOk result (list.new.items ≡ list.old.items
        ++ flat_map (model.met_one (case_of two.now.scene.now)
        (box_of two.now.left.now own.now.whole.now) two.now.right.now.zone.now
        two.now.right.now.stretch.now) laters.now) }
{
    for place in 0..laters.len() {
        let later = PlacedBox {
            place,
            whole: &laters[place],
        };
        add_one(list, kept, two, own, &later)?;
    }
    Ok(())
}

/// Adds a box with those of a stretch that it meets. The boxes by which it is compared are made once, where it may meet any.
fn add_by(
    list: &mut Vec<Meeting>,
    kept: &mut Vec<PartedBoxes>,
    two: &TwoStretches,
    own: &ZoneBox,
) -> Result<(), AllocError>
    requires fit { All (All IsFit) two.now.scene.now.run.now.items }
    requires deep { two.now.scene.now.job.now.depth ≤ DEPTH_LIMIT }
    requires kept { AreKept two.now.scene.now.job.now two.now.scene.now.run.now two.now.right.now.zone.now
        two.now.right.now.stretch.now kept.old.items }
    ensures kept { OnOk result (AreKept two.now.scene.now.job.now two.now.scene.now.run.now two.now.right.now.zone.now
        two.now.right.now.stretch.now kept.new.items) }
    ensures met { OnOk result (list.new.items ≡ list.old.items
        ++ model.met_by (case_of two.now.scene.now) two.now.right.now.zone.now two.now.right.now.stretch.now
        (box_of two.now.left.now own.now)) }
{
    let scene = two.scene;
    let left = two.left;
    let right = two.right;
    let other = right.stretch;
    let laters = other.boxes.as_slice();
    if !may_meet_any(left, own, right, laters) {
        return Ok(());
    }
    let pieces = lot_of(scene, left, own)?;
    let parted = PartedBox {
        whole: own,
        pieces: &pieces,
    };
    add_each(list, kept, two, &parted, laters)?;
    Ok(())
}

/// Adds some boxes of a stretch and those of another that meet.
fn add_owns(
    list: &mut Vec<Meeting>,
    kept: &mut Vec<PartedBoxes>,
    two: &TwoStretches,
    owns: &[ZoneBox],
) -> Result<(), AllocError>
    requires fit { All (All IsFit) two.now.scene.now.run.now.items }
    requires deep { two.now.scene.now.job.now.depth ≤ DEPTH_LIMIT }
    requires kept { AreKept two.now.scene.now.job.now two.now.scene.now.run.now two.now.right.now.zone.now
        two.now.right.now.stretch.now kept.old.items }
    ensures kept { OnOk result (AreKept two.now.scene.now.job.now two.now.scene.now.run.now two.now.right.now.zone.now
        two.now.right.now.stretch.now kept.new.items) }
    ensures met { OnOk result (list.new.items ≡ list.old.items
        ++ flat_map (λ own. model.met_by (case_of two.now.scene.now) two.now.right.now.zone.now
        two.now.right.now.stretch.now (box_of two.now.left.now own)) owns.now) }
{
    for own in owns {
        add_by(list, kept, two, own)?;
    }
    Ok(())
}

/// Adds the boxes of two stretches that meet. Those by which a box of the second is compared are made once, where they are asked for.
fn add_in_boxes(
    list: &mut Vec<Meeting>,
    scene: &Scene,
    left: &ZoneStretch,
    right: &ZoneStretch,
) -> Result<(), AllocError>
    requires fit { All (All IsFit) scene.now.run.now.items }
    requires deep { scene.now.job.now.depth ≤ DEPTH_LIMIT }
    ensures { OnOk result (list.new.items ≡ list.old.items
        ++ model.met_in_boxes (case_of scene.now) left.now.zone.now left.now.stretch.now
        right.now.zone.now right.now.stretch.now) }
{
    let stretch = left.stretch;
    let owns = stretch.boxes.as_slice();
    let mut kept = Vec::new(scene.alloc);
    let two = TwoStretches { scene, left, right };
    add_owns(list, &mut kept, &two, owns)?;
    Ok(())
}

/// Adds the boxes of two zones that meet.
fn add_of_zones(
    list: &mut Vec<Meeting>,
    scene: &Scene,
    left: &TimedZone,
    right: &TimedZone,
) -> Result<(), AllocError>
    requires fit { All (All IsFit) scene.now.run.now.items }
    requires deep { scene.now.job.now.depth ≤ DEPTH_LIMIT }
    requires timed { AreTimed (is_before_in scene.now.clocks.now.rows) (left.now, right.now) }
    ensures { OnOk result (list.new.items ≡ list.old.items
        ++ model.met_with (case_of scene.now) (left.now, right.now)) }
{
    for pair in StretchPairs::of(scene.clocks, left, right) {
        add_in_boxes(list, scene, &pair.left, &pair.right)?;
    }
    Ok(())
}

/// The boxes of each two of these zones that meet.
fn met_in(scene: &Scene, zones: &TimedZones) -> Result<Vec<Meeting>, AllocError>
    requires fit { All (All IsFit) scene.now.run.now.items }
    requires deep { scene.now.job.now.depth ≤ DEPTH_LIMIT }
    requires timed { All (AreTimed (is_before_in scene.now.clocks.now.rows)) (each_two zones.now) }
    ensures { IfOk result (λ met. met.items ≡ flat_map (model.met_with (case_of scene.now)) (each_two zones.now)) }
{
    let mut list = Vec::new(scene.alloc);
    for pair in zones.pairs() {
        add_of_zones(&mut list, scene, &pair.0, &pair.1)?;
    }
    Ok(list)
}

/// All compared boxes that meet in a run of a job, in the order in which the verdict NO names the first. It takes memory for each
/// such pair, and while two stretches are looked at for the boxes by which those of the second are compared.
pub fn meetings_of(
    alloc: Global,
    job: &Job,
    run: &Run,
    stretches: &Stretches,
    clocks: &Clocks,
) -> Result<Vec<Meeting>, NoMemory>
    requires sound { IsSoundJob job.now }
    requires whole { IsTold job.now run.now stretches.now clocks.now }
    requires fit { All (All IsFit) run.now.items }
    ensures { IfOk result (λ met. met.items ≡ meetings_of (is_before_in clocks.now.rows)
        job.now run.now stretches.now) }
{
    let zones = TimedZones::of(job, stretches, clocks);
    let scene = Scene {
        alloc,
        job,
        run,
        clocks,
    };
    let list = met_in(&scene, &zones)?;
    Ok(list)
}
