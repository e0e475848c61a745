//! Lots of boxes in parts, each with a box in which its boxes lie: what that box does not come near, none of the part does.
ghost use Rattle.std.specs.Prelude.{◌≡◌, ◌≤◌, All, IfOk, length};
ghost use Rattle.explain_reach.specs.Parts.{AreCovers, AreParts, IsCovered, LiesIn, boxes_in};

use arrayvec::ArrayVec;
use std::alloc::{AllocError, Global};
use swept_boxes::Box3;

/// How many boxes a part has at most: where each of two motions has 16 or 64 pieces, so many take the fewest comparisons.
pub(crate) const PART_SIZE: usize = 4;

/// Boxes of a lot that stand one after another.
#[derive(Drop)]
pub(crate) struct Part {
    /// The boxes.
    pub(crate) boxes: ArrayVec<Box3, PART_SIZE>,
    /// A box in which they lie.
    pub(crate) cover: Box3,
}

/// The least box in which two boxes lie.
fn joined(left: &Box3, right: &Box3) -> Box3
    ensures left { LiesIn result left.now }
    ensures right { LiesIn result right.now }
{
    Box3 {
        lo: [
            left.lo[0].min(right.lo[0]),
            left.lo[1].min(right.lo[1]),
            left.lo[2].min(right.lo[2]),
        ],
        hi: [
            left.hi[0].max(right.hi[0]),
            left.hi[1].max(right.hi[1]),
            left.hi[2].max(right.hi[2]),
        ],
    }
}

/// A box in which these lie.
pub(crate) fn cover_of(boxes: &[Box3]) -> Box3
    ensures { All (LiesIn result) boxes.now }
{
    let mut cover = match boxes.first() {
        Some(first) => *first,
        None => Box3::default(),
    };
    for other in boxes {
        cover = joined(&cover, other);
    }
    cover
}

/// These boxes as a part.
fn part_of(front: &[Box3]) -> Part
    requires { length front.now ≤ PART_SIZE }
    ensures boxes { boxes_in result ≡ front.now }
    ensures cover { IsCovered result }
{
    let mut boxes = ArrayVec::new();
    for piece in front {
        boxes.push(*piece);
    }
    Part {
        boxes,
        cover: cover_of(front),
    }
}

/// The covers of these parts, side by side.
pub(crate) fn covers_of(alloc: Global, parts: &[Part]) -> Result<Vec<Box3>, AllocError>
    ensures { IfOk result (λ covers. AreCovers covers.items parts.now) }
{
    let mut covers = Vec::with_capacity(alloc, parts.len())?;
    for part in parts {
        covers.push(part.cover)?;
    }
    Ok(covers)
}

/// A lot in parts.
pub(crate) fn parts_of(alloc: Global, boxes: &[Box3]) -> Result<Vec<Part>, AllocError>
    ensures { IfOk result (λ parts. AreParts boxes.now parts.items) }
{
    let mut parts = Vec::with_capacity(alloc, boxes.len() / PART_SIZE + 1)?;
    let mut rest = boxes;
    while !rest.is_empty() {
        let count = rest.len().min(PART_SIZE);
        let (front, later) = rest.split_at(count);
        parts.push(part_of(front))?;
        rest = later;
    }
    Ok(parts)
}
