//! What two boxes that meet have in common, and by what they would be apart.
ghost use Rattle.std.specs.Prelude.{◌≡◌, ◌<◌, ◌≤◌, ◌⊎◌, pos, neg_ℤ, ◌+ℤ◌, ◌-ℤ◌, ◌*ℤ◌, ◌≤ℤ◌, ◌<ℤ◌, All, length, map};
ghost use Rattle.explain_reach.specs.Depths.{IsPartingDepth};
ghost use Rattle.explain_reach.specs.Shapes.{moved_box};
ghost use Rattle.job_lines.specs.declared.limits.TheConstants.{DEPTH_LIMIT};
ghost use Rattle.job_types.specs.SoundJob.{IsSoundJob};
ghost use Rattle.explain_clashes.specs.Clashes as model;
ghost use Rattle.zone_stretches.specs.ZoneBoxes.{IsFit};
ghost use Rattle.swept_boxes.specs.Boxes.{DoMeet};

use crate::pieces::boxes_at;
use crate::ways::way_for;
use arrayvec::ArrayVec;
use explain_places::{Meeting, Place};
use explain_reach::{Way, common_box, most_near, parting_depth, room_of};
use job_types::Job;
use swept_boxes::{Box3, PIECE_LIMIT};
use sync_types::Run;

/// What two boxes that meet have in common, and by what they would be apart. All lengths are in micrometres.
#[derive(Clone, Copy)]
pub struct Clash {
    /// What both whole boxes have in common.
    pub common: Box3,
    /// In which direction the whole boxes reach into each other the least, and how far: of those in which an axis carries one of
    /// both zones, or of all three where axes carry neither in any.
    pub way: Way,
    /// The greatest MARGIN with which they would not meet; none where they meet with each.
    pub margin: Option<i64>,
    /// The least DEPTH above that of the job with which they would not meet; none where they meet with each.
    pub depth: Option<u8>,
}

/// The greatest margin with which boxes are apart that with this one reach so far into each other.
fn left_margin(margin: i32, reach: i64) -> i64
    ensures apart { (reach +ℤ ((result -ℤ margin) *ℤ pos 2)) <ℤ pos 0 }
    ensures most { pos 0 ≤ℤ (reach +ℤ (((result -ℤ margin) +ℤ pos 1) *ℤ pos 2)) }
{
    let room = room_of(reach);
    i64::from(margin) + room
}

/// The greatest margin with which boxes would not meet that were made with this one.
fn parting_margin(margin: i32, lefts: &[Box3], rights: &[Box3]) -> Option<i64>
    requires left { 0 < length lefts.now }
    requires right { 0 < length rights.now }
    ensures { model.IsPartingMargin margin lefts.now rights.now result }
{
    match most_near(lefts, rights) {
        None => None,
        Some(reach) => {
            let left = left_margin(margin, reach);
            if left < 0 { None } else { Some(left) }
        }
    }
}

/// The greatest margin with which two boxes would not meet.
fn margin_of(job: &Job, run: &Run, met: &Meeting) -> Option<i64>
    requires fit { All (All IsFit) run.now.items }
    requires deep { job.now.depth ≤ DEPTH_LIMIT }
    ensures { model.IsPartingMargin job.now.margin (model.boxes_at job.now run.now met.now.left job.now.depth)
        (model.boxes_at job.now run.now met.now.right job.now.depth) result }
{
    let lefts = boxes_at(job, run, job.depth, &met.left);
    let rights = boxes_at(job, run, job.depth, &met.right);
    let margin = job.margin;
    parting_margin(margin.micrometres, lefts.as_slice(), rights.as_slice())
}

/// The boxes of a place at each depth.
fn boxes_by_depth(job: &Job, run: &Run, place: &Place) -> [ArrayVec<Box3, PIECE_LIMIT>; 5]
    requires { All (All IsFit) run.now.items }
    ensures { map (λ l. l.items) result ≡ model.boxes_by_depth job.now run.now place.now }
{
    let whole = boxes_at(job, run, 0, place);
    let halves = boxes_at(job, run, 1, place);
    let quarters = boxes_at(job, run, 2, place);
    let eighths = boxes_at(job, run, 3, place);
    let sixteenths = boxes_at(job, run, 4, place);
    [whole, halves, quarters, eighths, sixteenths]
}

/// The least depth above that of the job with which two boxes would not meet.
fn depth_of(job: &Job, run: &Run, met: &Meeting) -> Option<u8>
    requires { All (All IsFit) run.now.items }
    ensures { IsPartingDepth (model.boxes_by_depth job.now run.now met.now.left)
        (model.boxes_by_depth job.now run.now met.now.right) job.now.depth result }
{
    let lefts = boxes_by_depth(job, run, &met.left);
    let rights = boxes_by_depth(job, run, &met.right);
    match parting_depth(&lefts, &rights, job.depth as usize) {
        None => None,
        Some(depth) => Some(depth as u8),
    }
}

/// What two boxes that meet in a run of a job have in common, and by what they would be apart: by a shift of the whole boxes, by a
/// smaller MARGIN, or by motions that are halved more often. It takes no memory.
pub fn clash_of(job: &Job, run: &Run, met: &Meeting) -> Clash
    requires sound { IsSoundJob job.now }
    requires fit { All (All IsFit) run.now.items }
    ensures all { model.IsClash job.now run.now met.now result }

    // One micrometre more parts the whole boxes, forwards or backwards in the direction of the way.
    ensures parted { (DoMeet (moved_box met.now.left.cover result.way.direction (result.way.shift +ℤ pos 1))
        met.now.right.cover → ⊥) ⊎ (DoMeet (moved_box met.now.left.cover result.way.direction
        (neg_ℤ (result.way.shift +ℤ pos 1))) met.now.right.cover → ⊥) }
{
    Clash {
        common: common_box(&met.left.cover, &met.right.cover),
        way: way_for(job, met),
        margin: margin_of(job, run, met),
        depth: depth_of(job, run, met),
    }
}
