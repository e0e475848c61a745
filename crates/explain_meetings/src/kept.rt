//! The boxes by which the boxes of a stretch are compared, kept once they are made.
ghost use Rattle.std.specs.Prelude.{◌≡◌, ◌<◌, ◌≤◌, ◌&&◌, ℕ, nat_lt, length, All, List, IfOk, OnOk};
ghost use Rattle.job_lines.specs.declared.limits.TheConstants.{DEPTH_LIMIT};
ghost use Rattle.job_types.specs.Job.{JobView};
ghost use Rattle.job_types.specs.declared.job.ZoneLine.{ZoneLine};
ghost use Rattle.explain_meetings.specs.KeptBoxes.{AreKept, IsAt, IsKeptAt};
ghost use Rattle.swept_boxes.specs.declared.Box3.{Box3};
ghost use Rattle.sync_types.specs.Views.{RunView};
ghost use Rattle.zone_stretches.specs.Cases.{box_of};
ghost use Rattle.zone_stretches.specs.Pieces.{piece_boxes};
ghost use Rattle.zone_stretches.specs.Stretches.{StretchView};
ghost use Rattle.zone_stretches.specs.ZoneBoxes.{IsFit};

use crate::contexts::Scene;
use explain_reach::PartedBoxes;
use std::alloc::{AllocError, Global};
use zone_stretches::{ZoneBox, ZoneStretch, boxes_by_pieces};

/// Of how many boxes of a stretch at most those by which they are compared are kept. They take 3,200 bytes for each box at the most,
/// so 27 MB.
const KEPT_LIMIT: usize = 8_192;

const _: () = prove!(KEPT_LIMIT <= 27_000_000 / 3_200);

/// Whether the boxes of a place are to be kept while the boxes of a stretch are held against them: where there are more of these than
/// one, and the place is not past the limit.
pub(crate) fn are_kept(left: &ZoneStretch, place: usize) -> bool
    ensures { result ≡ (nat_lt place KEPT_LIMIT && nat_lt 1 (length left.now.stretch.now.boxes)) }
{
    let stretch = left.stretch;
    place < KEPT_LIMIT && 1 < stretch.boxes.len()
}

/// Adds places of which nothing is kept, until there are as many as this.
fn have_places(alloc: Global, kept: &mut Vec<PartedBoxes>, count: usize) -> Result<(), AllocError>
    ensures places { OnOk result (count ≤ length kept.new.items) }
    ensures kept { OnOk result ((job : JobView) → (run : RunView) → (zone : ZoneLine) → (stretch : StretchView)
        → AreKept job run zone stretch kept.old.items → AreKept job run zone stretch kept.new.items) }
{
    for place in kept.len()..count {
        kept.push(PartedBoxes::new(alloc))?;
    }
    Ok(())
}

/// The boxes by which a box of a stretch is compared.
pub(crate) fn lot_of(
    scene: &Scene,
    held: &ZoneStretch,
    own: &ZoneBox,
) -> Result<PartedBoxes, AllocError>
    requires fit { All (All IsFit) scene.now.run.now.items }
    requires deep { scene.now.job.now.depth ≤ DEPTH_LIMIT }
    ensures { IfOk result (λ made. made ≡ piece_boxes scene.now.job.now scene.now.run.now
        (box_of held.now own.now)) }
{
    let boxes = boxes_by_pieces(scene.job, scene.run, held.zone, held.stretch, own);
    PartedBoxes::over(scene.alloc, boxes.as_slice())
}

/// Makes the boxes of a place.
fn make_at(
    kept: &mut Vec<PartedBoxes>,
    scene: &Scene,
    right: &ZoneStretch,
    place: usize,
    later: &ZoneBox,
) -> Result<(), AllocError>
    requires fit { All (All IsFit) scene.now.run.now.items }
    requires deep { scene.now.job.now.depth ≤ DEPTH_LIMIT }
    requires place { place < length kept.old.items }
    ensures len { OnOk result (length kept.new.items ≡ length kept.old.items) }
    ensures kept { OnOk result ((made : List Box3) → IsKeptAt kept.new.items place made
        → made ≡ piece_boxes scene.now.job.now scene.now.run.now
        (box_of right.now later.now)) }
    ensures others { OnOk result ((other : ℕ) → (made : List Box3) → (other ≡ place → ⊥)
        → IsKeptAt kept.new.items other made → IsKeptAt kept.old.items other made) }
{
    let made = lot_of(scene, right, later)?;
    kept[place] = made;
    Ok(())
}

/// Makes the boxes of a place, where none are kept.
fn make_once(
    kept: &mut Vec<PartedBoxes>,
    scene: &Scene,
    right: &ZoneStretch,
    place: usize,
    later: &ZoneBox,
) -> Result<(), AllocError>
    requires fit { All (All IsFit) scene.now.run.now.items }
    requires deep { scene.now.job.now.depth ≤ DEPTH_LIMIT }
    requires later { IsAt right.now.stretch.now.boxes place later.now }
    requires kept { AreKept scene.now.job.now scene.now.run.now right.now.zone.now
        right.now.stretch.now kept.old.items }
    requires place { place < length kept.old.items }
    ensures place { OnOk result (place < length kept.new.items) }
    ensures kept { OnOk result (AreKept scene.now.job.now scene.now.run.now right.now.zone.now
        right.now.stretch.now kept.new.items) }
    ensures made { OnOk result ((made : List Box3) → IsKeptAt kept.new.items place made
        → made ≡ piece_boxes scene.now.job.now scene.now.run.now
        (box_of right.now later.now)) }
{
    if kept[place].is_empty() {
        make_at(kept, scene, right, place, later)?;
    }
    Ok(())
}

/// Keeps the boxes of a place: they are made, where none are kept.
pub(crate) fn keep_at(
    kept: &mut Vec<PartedBoxes>,
    scene: &Scene,
    right: &ZoneStretch,
    place: usize,
    later: &ZoneBox,
) -> Result<(), AllocError>
    requires fit { All (All IsFit) scene.now.run.now.items }
    requires deep { scene.now.job.now.depth ≤ DEPTH_LIMIT }
    requires later { IsAt right.now.stretch.now.boxes place later.now }
    requires small { place < KEPT_LIMIT }
    requires kept { AreKept scene.now.job.now scene.now.run.now right.now.zone.now
        right.now.stretch.now kept.old.items }
    ensures place { OnOk result (place < length kept.new.items) }
    ensures kept { OnOk result (AreKept scene.now.job.now scene.now.run.now right.now.zone.now
        right.now.stretch.now kept.new.items) }
    ensures made { OnOk result ((made : List Box3) → IsKeptAt kept.new.items place made
        → made ≡ piece_boxes scene.now.job.now scene.now.run.now
        (box_of right.now later.now)) }
{
    have_places(scene.alloc, kept, place + 1)?;
    make_once(kept, scene, right, place, later)?;
    Ok(())
}

/// The boxes kept at a place.
pub(crate) fn kept_at(kept: &[PartedBoxes], place: usize) -> &PartedBoxes
    requires { place < length kept.now }
    ensures { (P : List Box3) → ((made : List Box3) → IsKeptAt kept.now place made → made ≡ P) → result.now ≡ P }
{
    &kept[place]
}
