//! Lots of boxes that are held against many others. They are divided into parts once, and two parts whose covers come no nearer than
//! what is looked for are passed over at once.
ghost use Rattle.std.specs.Prelude.{◌≡◌, ◌==◌, ◌++◌, ◌↔◌, [], ℤ, All, IsTrue, IfOk, List, length, nat_lt, option_to_list};
ghost use Rattle.std.specs.List.{flat_map, list_any};
ghost use Rattle.explain_reach.specs.Lots.{DoLotsMeet, IsGreatest, IsGreatestOver, lots_meet, reaches};
ghost use Rattle.explain_reach.specs.Parts.{AreCovers, IsCovered, LiesIn, boxes_in};

use crate::lots::{any_meets, do_meet, is_over, most_among};
use crate::parts::{Part, cover_of, covers_of, parts_of};
use std::alloc::{AllocError, Global};
use std::marker::Model;
use swept_boxes::Box3;

/// Whether a box of a part meets one of another, which has this cover.
fn do_parts_meet(own: &Part, cover: &Box3, other: &Part) -> bool
    requires own { IsCovered own.now }
    requires other { All (LiesIn cover.now) (boxes_in other.now) }
    ensures { result ≡ lots_meet (boxes_in own.now) (boxes_in other.now) }
{
    do_meet(&own.cover, cover) && any_meets(own.boxes.as_slice(), other.boxes.as_slice())
}

/// Whether a box of a part meets one of these parts, which have these covers.
fn meets_parts(own: &Part, covers: &[Box3], others: &[Part]) -> bool
    requires own { IsCovered own.now }
    requires covers { AreCovers covers.now others.now }
    requires others { All IsCovered others.now }
    ensures { result ≡ lots_meet (boxes_in own.now) (flat_map boxes_in others.now) }
{
    for place in 0..others.len() {
        if do_parts_meet(own, &covers[place], &others[place]) {
            return true;
        }
    }
    false
}

/// The same, where all boxes of these parts lie in one box.
fn meets_within(own: &Part, cover: &Box3, covers: &[Box3], others: &[Part]) -> bool
    requires own { IsCovered own.now }
    requires cover { All (LiesIn cover.now) (flat_map boxes_in others.now) }
    requires covers { AreCovers covers.now others.now }
    requires others { All IsCovered others.now }
    ensures { result ≡ lots_meet (boxes_in own.now) (flat_map boxes_in others.now) }
{
    do_meet(&own.cover, cover) && meets_parts(own, covers, others)
}

/// Whether a box of these parts meets one of those, which lie in one box.
fn parts_meet(owns: &[Part], cover: &Box3, covers: &[Box3], others: &[Part]) -> bool
    requires owns { All IsCovered owns.now }
    requires cover { All (LiesIn cover.now) (flat_map boxes_in others.now) }
    requires covers { AreCovers covers.now others.now }
    requires others { All IsCovered others.now }
    ensures { result ≡ lots_meet (flat_map boxes_in owns.now) (flat_map boxes_in others.now) }
{
    for own in owns {
        if meets_within(own, cover, covers, others) {
            return true;
        }
    }
    false
}

/// The greatest of some numbers and of how far the boxes of two parts reach into each other. Where their covers reach no further than
/// the greatest so far, none of them does.
fn most_between(before: Option<i64>, own: &Part, cover: &Box3, other: &Part) -> Option<i64>
    requires own { IsCovered own.now }
    requires other { All (LiesIn cover.now) (boxes_in other.now) }
    ensures { (numbers : List ℤ) → IsGreatest before numbers
        → IsGreatest result (numbers ++ reaches (boxes_in own.now) (boxes_in other.now)) }
{
    if is_over(before, &own.cover, cover) {
        most_among(before, own.boxes.as_slice(), other.boxes.as_slice())
    } else {
        before
    }
}

/// The same of a part and of these, which have these covers.
fn most_by(before: Option<i64>, own: &Part, covers: &[Box3], others: &[Part]) -> Option<i64>
    requires own { IsCovered own.now }
    requires covers { AreCovers covers.now others.now }
    requires others { All IsCovered others.now }
    ensures { (numbers : List ℤ) → IsGreatest before numbers
        → IsGreatest result (numbers ++ reaches (boxes_in own.now) (flat_map boxes_in others.now)) }
{
    let mut most = before;
    for place in 0..others.len() {
        most = most_between(most, own, &covers[place], &others[place]);
    }
    most
}

/// The same where all boxes of these parts lie in one box.
fn most_within(
    before: Option<i64>,
    own: &Part,
    cover: &Box3,
    covers: &[Box3],
    others: &[Part],
) -> Option<i64>
    requires own { IsCovered own.now }
    requires cover { All (LiesIn cover.now) (flat_map boxes_in others.now) }
    requires covers { AreCovers covers.now others.now }
    requires others { All IsCovered others.now }
    ensures { (numbers : List ℤ) → IsGreatest before numbers
        → IsGreatest result (numbers ++ reaches (boxes_in own.now) (flat_map boxes_in others.now)) }
{
    if is_over(before, &own.cover, cover) {
        most_by(before, own, covers, others)
    } else {
        before
    }
}

/// The same of these parts and of those, which lie in one box.
fn most_of(
    before: Option<i64>,
    owns: &[Part],
    cover: &Box3,
    covers: &[Box3],
    others: &[Part],
) -> Option<i64>
    requires owns { All IsCovered owns.now }
    requires cover { All (LiesIn cover.now) (flat_map boxes_in others.now) }
    requires covers { AreCovers covers.now others.now }
    requires others { All IsCovered others.now }
    ensures { (numbers : List ℤ) → IsGreatest before numbers
        → IsGreatest result (numbers ++ reaches (flat_map boxes_in owns.now) (flat_map boxes_in others.now)) }
{
    let mut most = before;
    for own in owns {
        most = most_within(most, own, cover, covers, others);
    }
    most
}

/// The greatest of a number that may be there and of some others, where it is greater than that number.
fn over(floor: Option<i64>, most: Option<i64>) -> Option<i64>
    ensures { (numbers : List ℤ) → IsGreatest most (option_to_list floor ++ numbers)
        → IsGreatestOver floor result numbers }
{
    match (floor, most) {
        (_, None) => None,
        (None, Some(_)) => most,
        (Some(before), Some(number)) => { if before < number { most } else { None } }
    }
}

/// Whether a part has boxes.
fn has_boxes(part: &Part) -> bool
    ensures { result ≡ nat_lt 0 (length (boxes_in part.now)) }
{
    !part.boxes.is_empty()
}

/// Whether one of these parts has.
fn have_boxes(parts: &[Part]) -> bool
    ensures { result ≡ list_any (λ part. nat_lt 0 (length (boxes_in part))) parts.now }
{
    parts.iter().any(|part| has_boxes(part))
}

/// A lot of boxes in their order, divided into parts once, with a box in which all of them lie. The covers of the parts stand side by
/// side: most parts are passed over by these alone.
#[derive(Drop)]
pub struct PartedBoxes {
    parts: Vec<Part>,
    covers: Vec<Box3>,
    cover: Box3,
}

impl Model for PartedBoxes {
    ghost use Rattle.std.specs.Prelude.{All, List};
    ghost use Rattle.std.specs.List.{flat_map};
    ghost use Rattle.explain_reach.specs.Parts.{AreCovers, IsCovered, LiesIn, boxes_in};
    ghost use Rattle.swept_boxes.specs.declared.Box3.{Box3};

    ghost Value = { List Box3 };

    ghost view = { λ lot. flat_map boxes_in lot.parts.items };

    ghost invariant = { λ lot. All IsCovered lot.parts.items × AreCovers lot.covers.items lot.parts.items
        × All (LiesIn lot.cover) (flat_map boxes_in lot.parts.items) };
}

impl PartedBoxes {
    /// No boxes. It takes no memory.
    pub fn new(alloc: Global) -> PartedBoxes
        ensures { result ≡ [] }
    {
        PartedBoxes {
            parts: Vec::new(alloc),
            covers: Vec::new(alloc),
            cover: Box3::default(),
        }
    }

    /// These boxes. It takes up to 40 bytes for each, and two hundred more.
    pub fn over(alloc: Global, boxes: &[Box3]) -> Result<PartedBoxes, AllocError>
        ensures { IfOk result (λ lot. lot ≡ boxes.now) }
    {
        let parts = parts_of(alloc, boxes)?;
        let covers = covers_of(alloc, parts.as_slice())?;
        Ok(PartedBoxes {
            parts,
            covers,
            cover: cover_of(boxes),
        })
    }

    /// Whether there are none.
    pub fn is_empty(&self) -> bool
        ensures { result ≡ (length self.now == 0) }
    {
        !have_boxes(self.parts.as_slice())
    }

    /// Whether a box of the lot shares a point with one of the other.
    pub fn meets(&self, other: &PartedBoxes) -> bool
        ensures test { result ≡ lots_meet self.now other.now }
        ensures share { IsTrue result ↔ DoLotsMeet self.now other.now }
    {
        parts_meet(
            self.parts.as_slice(),
            &other.cover,
            other.covers.as_slice(),
            other.parts.as_slice(),
        )
    }

    /// By how much two boxes, one of each lot, reach into each other at most, where that is more than a number that may be there;
    /// below 0 all are apart by so much at least. None where none reach further than that number, or a lot is empty.
    pub fn greatest_overlap(&self, floor: Option<i64>, other: &PartedBoxes) -> Option<i64>
        ensures { IsGreatestOver floor result (reaches self.now other.now) }
    {
        over(
            floor,
            most_of(
                floor,
                self.parts.as_slice(),
                &other.cover,
                other.covers.as_slice(),
                other.parts.as_slice(),
            ),
        )
    }
}
