//! The boxes by which a box of a zone is compared: those of the pieces of its motion.
ghost use Rattle.std.specs.Prelude.{◌≡◌, ◌<◌, ◌≤◌, [], ◌∷◌, ◌-◌, All, IfSome, map, option_copied};
ghost use Rattle.job_lines.specs.declared.limits.TheConstants.{DEPTH_LIMIT};
ghost use Rattle.path_geometry.specs.Motions.{IsSound};
ghost use Rattle.swept_boxes.specs.Boxes.{low_of, high_of};
ghost use Rattle.swept_boxes.specs.Pieces.{pieces_at};
ghost use Rattle.zone_stretches.specs.Pieces.{boxes_in_pieces, motion_at, piece_box, piece_boxes, piece_high, piece_low};
ghost use Rattle.zone_stretches.specs.ZoneBoxes.{IsFit};

use crate::zone_boxes::{bounds_between, range_of};
use crate::{Stretch, ZoneBox};
use arrayvec::ArrayVec;
use job_types::{Job, Side, ZoneLine};
use micro_units::Um;
use path_geometry::Motion;
use swept_boxes::{Box3, PIECE_LIMIT, Ranges, pieces_of};
use sync_types::Run;

/// The motion of a place of an entry of a run, as a box names it; none where the box stands.
pub fn motion_at(run: &Run, entry: u32, place: Option<u32>) -> Option<&Motion>
    ensures { option_copied result ≡ motion_at run.now entry place }
{
    match place {
        None => None,
        Some(place) => run.motion_at(entry, place),
    }
}

/// The bounds of a direction in a piece of a motion with this cover.
#[tactic(auto, unfolding(crate::specs::Pieces::piece_low, crate::specs::Pieces::piece_high))]
fn piece_bounds(
    margin: Um,
    side: &Side,
    ranges: &Ranges,
    cover: &Box3,
    direction: usize,
) -> (i32, i32)
    requires { direction < 3 }
    ensures low { result.0 ≡ piece_low margin ranges.now side.now (low_of cover.now direction) }
    ensures high { result.1 ≡ piece_high margin ranges.now side.now (high_of cover.now direction) }
{
    let whole = (cover.lo[direction], cover.hi[direction]);
    match side.carrier {
        None => whole,
        Some((axis, minus)) => match range_of(&ranges.axes, axis) {
            Some(range) => bounds_between(margin, side, minus, range.1, range.2),
            None => whole,
        },
    }
}

/// The box of a zone in a piece of a motion with this cover.
fn piece_box(margin: Um, sides: &[Side; 3], ranges: &Ranges, cover: &Box3) -> Box3
    ensures { result ≡ piece_box margin sides.now ranges.now cover.now }
{
    let x = piece_bounds(margin, &sides[0], ranges, cover, 0);
    let y = piece_bounds(margin, &sides[1], ranges, cover, 1);
    let z = piece_bounds(margin, &sides[2], ranges, cover, 2);
    Box3 {
        lo: [x.0, y.0, z.0],
        hi: [x.1, y.1, z.1],
    }
}

/// The boxes of a zone in the pieces of a motion with this cover, where it is halved so often.
fn boxes_of_pieces(
    margin: Um,
    depth: u8,
    zone: &ZoneLine,
    cover: &Box3,
    motion: &Motion,
) -> ArrayVec<Box3, PIECE_LIMIT>
    requires sound { IsSound motion.now }
    requires deep { depth ≤ DEPTH_LIMIT }
    ensures { result.items ≡ map (λ piece. piece_box margin zone.now.sides piece cover.now)
        (pieces_at motion.now depth) }
{
    let mut boxes = ArrayVec::new();
    for piece in pieces_of(motion, depth) {
        boxes.push(piece_box(margin, &zone.sides, &piece, cover));
    }
    boxes
}

/// One box.
pub fn one_box(only: Box3) -> ArrayVec<Box3, PIECE_LIMIT>
    ensures { result.items ≡ only ∷ [] }
{
    let mut boxes = ArrayVec::new();
    boxes.push(only);
    boxes
}

/// The boxes of a zone, grown by this margin, in the pieces of a motion with this cover, where it is halved so often; or where it stands
/// the cover itself. It takes no memory.
pub fn boxes_in_pieces(
    margin: Um,
    depth: u8,
    zone: &ZoneLine,
    cover: &Box3,
    motion: Option<&Motion>,
) -> ArrayVec<Box3, PIECE_LIMIT>
    requires sound { IfSome (option_copied motion) IsSound }
    requires deep { depth ≤ DEPTH_LIMIT }
    ensures { result.items ≡ boxes_in_pieces margin depth zone.now.sides cover.now (option_copied motion.entry) }
{
    match motion {
        None => one_box(*cover),
        Some(motion) => boxes_of_pieces(margin, depth, zone, cover, motion),
    }
}

/// The boxes by which a box of a stretch of a zone is compared, in a run of a job: those of the pieces of its motion at the depth of
/// the job, or where it stands the box itself. It takes no memory.
#[tactic(auto, unfolding(crate::specs::Pieces::piece_boxes))]
pub fn boxes_by_pieces(
    job: &Job,
    run: &Run,
    zone: &ZoneLine,
    stretch: &Stretch,
    own: &ZoneBox,
) -> ArrayVec<Box3, PIECE_LIMIT>
    requires fit { All (All IsFit) run.now.items }
    requires deep { job.now.depth ≤ DEPTH_LIMIT }
    ensures { result.items ≡ piece_boxes job.now run.now
        (record { zone = zone.now; stretch = stretch.now; box = own.now }) }
{
    let motion = motion_at(run, stretch.entry, own.motion);
    boxes_in_pieces(job.margin, job.depth, zone, &own.cover, motion)
}
