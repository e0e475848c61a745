//! The pieces of a box, few enough for a tree that takes no memory.
ghost use Rattle.std.specs.Prelude.{◌≡◌, ◌≤◌, IfOk, length};
ghost use Rattle.std.specs.List.{list_any};
ghost use Rattle.box_tree.specs.Hulls.{AreGroups};
ghost use Rattle.swept_boxes.specs.Boxes.{boxes_meet};

use crate::BoxTree;
use crate::groups::{Group, do_groups_meet, join_groups, met_between};
use crate::slants::{Slants, pass_aslant, slants_of};
use arrayvec::ArrayVec;
use out_of_memory::NoMemory;
use std::alloc::Global;
use std::marker::Model;
use swept_boxes::{Box3, PIECE_LIMIT};

/// At most as many boxes as a motion has pieces, in their order, with groups over them as in a tree.
#[derive(Drop)]
pub struct PieceTree {
    pub(crate) boxes: ArrayVec<Box3, PIECE_LIMIT>,
    pub(crate) groups: ArrayVec<Group, PIECE_LIMIT>,
    pub(crate) slants: Slants,
}

impl Model for PieceTree {
    ghost use Rattle.std.specs.Prelude.{List};
    ghost use Rattle.box_tree.specs.Hulls.{AreGroups};
    ghost use Rattle.box_tree.specs.Slants.{AreHeld};
    ghost use Rattle.swept_boxes.specs.declared.Box3.{Box3};

    ghost Value = { List Box3 };

    ghost view = { λ pieces. pieces.boxes.items };

    ghost invariant = { λ pieces. AreGroups pieces.boxes.items pieces.groups.items
        × AreHeld pieces.boxes.items pieces.slants };
}

/// Each box as a group of its own.
fn single_pieces(boxes: &[Box3]) -> ArrayVec<Group, PIECE_LIMIT>
    requires { length boxes.now ≤ PIECE_LIMIT }
    ensures { AreGroups boxes.now result.items }
{
    let mut groups = ArrayVec::new();
    for place in 0..boxes.len() {
        groups.push(Group {
            hull: boxes[place],
            next: place + 1,
        });
    }
    groups
}

impl PieceTree {
    /// A tree over these boxes.
    pub fn over(boxes: ArrayVec<Box3, PIECE_LIMIT>) -> PieceTree
        ensures { result ≡ boxes.items }
    {
        let mut groups = single_pieces(boxes.as_slice());
        join_groups(boxes.as_slice(), groups.as_mut_slice());
        PieceTree {
            slants: slants_of(boxes.as_slice()),
            boxes,
            groups,
        }
    }

    /// Whether one of the boxes meets this one.
    pub fn meets_box(&self, met: &Box3) -> bool
        ensures { result ≡ list_any (λ piece. boxes_meet piece met.now) self.now }
    {
        met_between(
            self.boxes.as_slice(),
            self.groups.as_slice(),
            met,
            0,
            self.boxes.len(),
        ) < self.boxes.len()
    }

    /// Whether one of the boxes meets one of the others.
    pub fn meets(&self, others: &PieceTree) -> bool
        ensures { result ≡ list_any (λ piece. list_any (boxes_meet piece) others.now) self.now }
    {
        if pass_aslant(&self.slants, &others.slants) {
            return false;
        }
        do_groups_meet(
            self.boxes.as_slice(),
            self.groups.as_slice(),
            others.boxes.as_slice(),
            others.groups.as_slice(),
        )
    }

    /// Whether one of the boxes meets one of those in a tree.
    pub(crate) fn meets_kept(&self, others: &BoxTree) -> bool
        ensures { result ≡ list_any (λ piece. list_any (boxes_meet piece) others.now) self.now }
    {
        if pass_aslant(&self.slants, &others.slants) {
            return false;
        }
        do_groups_meet(
            self.boxes.as_slice(),
            self.groups.as_slice(),
            &others.boxes,
            &others.groups,
        )
    }

    /// How many boxes there are.
    pub(crate) fn len(&self) -> usize
        ensures { result ≡ length self.now }
    {
        self.boxes.len()
    }

    /// A tree over the same boxes.
    pub(crate) fn kept(&self, alloc: Global) -> Result<BoxTree, NoMemory>
        ensures { IfOk result (λ tree. tree ≡ self.now) }
    {
        let mut boxes = Vec::with_capacity(alloc, self.boxes.len())?;
        boxes.extend_from_slice(self.boxes.as_slice())?;
        let mut groups = Vec::with_capacity(alloc, self.groups.len())?;
        groups.extend_from_slice(self.groups.as_slice())?;
        Ok(BoxTree {
            boxes,
            groups,
            slants: self.slants,
        })
    }
}
