//! The boxes by which a box of a zone would be compared, were motions halved so often.
ghost use Rattle.std.specs.Prelude.{◌≡◌, ◌≤◌, All};
ghost use Rattle.job_lines.specs.declared.limits.TheConstants.{DEPTH_LIMIT};
ghost use Rattle.explain_clashes.specs.Clashes as model;
ghost use Rattle.zone_stretches.specs.ZoneBoxes.{IsFit};

use arrayvec::ArrayVec;
use explain_places::Place;
use job_types::Job;
use swept_boxes::{Box3, PIECE_LIMIT};
use sync_types::Run;
use zone_stretches::{boxes_in_pieces, motion_at, one_box};

/// The boxes by which a box of a zone would be compared at a depth.
#[tactic(auto, unfolding(crate::specs::Clashes::boxes_at))]
pub(crate) fn boxes_at(
    job: &Job,
    run: &Run,
    depth: u8,
    place: &Place,
) -> ArrayVec<Box3, PIECE_LIMIT>
    requires fit { All (All IsFit) run.now.items }
    requires deep { depth ≤ DEPTH_LIMIT }
    ensures { result.items ≡ model.boxes_at job.now run.now place.now depth }
{
    let name = place.name;
    match job.zone_line(name.zone) {
        None => one_box(place.cover),
        Some(zone) => {
            let motion = motion_at(run, place.entry, place.motion);
            boxes_in_pieces(job.margin, depth, &zone, &place.cover, motion)
        }
    }
}
