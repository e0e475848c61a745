//! The first two of some boxes and some others that meet, by a tree over the first.
ghost use Rattle.std.specs.Prelude.{◌≡◌, IfOk, IfSome, None, length};
ghost use Rattle.box_tree.specs.Firsts.{IsFirstFrom, NoneBetween, NoneMeet, NoneMeetFrom, NoneMeetAfter, IsFirstMeeting, IsFirstMeetingFrom, IsNextMeeting};
ghost use Rattle.swept_boxes.specs.Boxes.{boxes_meet};

use crate::boxes::{first_after, first_met};
use crate::groups::{Group, first_of_any, groups_of, met_between};
use crate::slants::{Slants, slants_of};
use out_of_memory::NoMemory;
use std::alloc::Global;
use std::marker::Model;
use swept_boxes::Box3;

/// Boxes in their order, and over them groups with a box in which those of the group lie. A search passes over a group at once where
/// that box is not met.
#[derive(Drop)]
pub struct BoxTree {
    pub(crate) boxes: Vec<Box3>,
    pub(crate) groups: Vec<Group>,
    pub(crate) slants: Slants,
}

impl Model for BoxTree {
    ghost use Rattle.std.specs.Prelude.{List};
    ghost use Rattle.box_tree.specs.Hulls.{AreGroups};
    ghost use Rattle.box_tree.specs.Slants.{AreHeld};
    ghost use Rattle.swept_boxes.specs.declared.Box3.{Box3};

    ghost Value = { List Box3 };

    ghost view = { λ tree. tree.boxes.items };

    ghost invariant = { λ tree. AreGroups tree.boxes.items tree.groups.items × AreHeld tree.boxes.items tree.slants };
}

impl BoxTree {
    /// A tree over these boxes. `NoMemory` where there is too little: it takes 56 bytes for each box.
    pub fn build(alloc: Global, boxes: &[Box3]) -> Result<BoxTree, NoMemory>
        ensures { IfOk result (λ tree. tree ≡ boxes.now) }
    {
        let groups = groups_of(alloc, boxes)?;
        let mut own = Vec::with_capacity(alloc, boxes.len())?;
        own.extend_from_slice(boxes)?;
        Ok(BoxTree {
            slants: slants_of(boxes),
            boxes: own,
            groups,
        })
    }

    /// The number of the first box of the tree, from this number on, that meets a box. It takes no memory.
    pub fn next_met(&self, met: &Box3, from: usize) -> Option<usize>
        ensures met { IfSome result (λ place. IsFirstFrom (λ box. boxes_meet box met.now) self.now from place) }
        ensures none { result ≡ None → NoneBetween (λ box. boxes_meet box met.now) self.now from (length self.now) }
    {
        let count = self.boxes.len();
        let place = met_between(&self.boxes, &self.groups, met, from, count);
        if place < count { Some(place) } else { None }
    }

    /// The first two that meet, of those whose number in the tree is this or a higher one.
    fn meeting_from(&self, right: &[Box3], from: usize) -> Option<(usize, usize)>
        ensures met { IfSome result (λ p. IsFirstMeetingFrom self.now right.now from p.0 p.1) }
        ensures none { result ≡ None → NoneMeetFrom self.now right.now from }
    {
        let place = first_of_any(&self.boxes, &self.groups, right, from);
        if place >= self.boxes.len() {
            return None;
        }
        match first_met(&self.boxes[place], right, 0) {
            Some(other) => Some((place, other)),
            None => None,
        }
    }

    /// The first two of the boxes of the tree and some others that meet, each by its number: of the pairs that meet the one with the
    /// least number in the tree, and of those the one with the least other number; `None` where no two meet. It takes no memory.
    pub fn first_meeting(&self, right: &[Box3]) -> Option<(usize, usize)>
        ensures met { IfSome result (λ p. IsFirstMeeting self.now right.now p.0 p.1) }
        ensures none { result ≡ None → NoneMeet self.now right.now }
    {
        self.meeting_from(right, 0)
    }

    /// The first two that meet after a pair of numbers, in the same order; `None` where no two do. It takes no memory.
    pub fn next_meeting(&self, right: &[Box3], after: (usize, usize)) -> Option<(usize, usize)>
        ensures met { IfSome result (λ p. IsNextMeeting self.now right.now after.0 after.1 p.0 p.1) }
        ensures none { result ≡ None → NoneMeetAfter self.now right.now after.0 after.1 }
    {
        if after.0 >= self.boxes.len() {
            return None;
        }
        match first_after(&self.boxes[after.0], right, after.1) {
            Some(other) => Some((after.0, other)),
            None => self.meeting_from(right, after.0 + 1),
        }
    }
}
