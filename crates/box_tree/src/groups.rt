//! Groups of boxes that stand one after another. The group of a place begins there and is as long as the greatest power of two that
//! divides the place; that of the first place has all boxes.
ghost use Rattle.std.specs.Prelude.{◌≡◌, ◌<◌, ◌≤◌, true, IfOk, length, slice_index_or};
ghost use Rattle.std.specs.List.{list_any};
ghost use Rattle.box_tree.specs.Firsts.{IsFirstOfAny, NoneBetween};
ghost use Rattle.box_tree.specs.Hulls.{IsGroup, AreGroups};
ghost use Rattle.swept_boxes.specs.Boxes.{boxes_meet};
ghost use Rattle.swept_boxes.specs.declared.Box3.{Box3};

use crate::boxes::{do_meet, joined};
use out_of_memory::NoMemory;
use std::alloc::Global;
use swept_boxes::Box3;

/// The boxes from a place up to another.
#[derive(Clone, Copy, Default)]
pub(crate) struct Group {
    /// A box in which they lie.
    pub(crate) hull: Box3,
    /// The place after the last.
    pub(crate) next: usize,
}

/// Each box as a group of its own.
fn single_groups(alloc: Global, boxes: &[Box3]) -> Result<Vec<Group>, NoMemory>
    ensures { IfOk result (λ groups. AreGroups boxes.now groups.items) }
{
    let mut groups = Vec::with_capacity(alloc, boxes.len())?;
    for place in 0..boxes.len() {
        groups.push(Group {
            hull: boxes[place],
            next: place + 1,
        })?;
    }
    Ok(groups)
}

/// The place after the group of a place, of so many.
fn end_of(place: usize, count: usize) -> usize
    ensures { result ≤ count }
{
    let width = place & place.wrapping_neg();
    if width == 0 {
        count
    } else {
        place.saturating_add(width).min(count)
    }
}

/// The box of a place and the groups after it, up to another place.
fn group_at(boxes: &[Box3], groups: &[Group], place: usize, upto: usize) -> Group
    requires place { place < length boxes.now }
    requires upto { upto ≤ length boxes.now }
    requires groups { AreGroups boxes.now groups.now }
    ensures { IsGroup boxes.now place result }
{
    let mut hull = boxes[place];
    let mut next = place + 1;
    while next < upto {
        let group = groups[next];
        hull = joined(&hull, &group.hull);
        next = group.next;
    }
    Group { hull, next }
}

/// Joins the groups of single boxes into longer ones, from the last place on.
pub(crate) fn join_groups(boxes: &[Box3], groups: &mut [Group])
    requires { AreGroups boxes.now groups.old }
    ensures { AreGroups boxes.now groups.new }
{
    let count = boxes.len();
    for done in 0..count {
        let place = count - 1 - done;
        groups[place] = group_at(boxes, groups, place, end_of(place, count));
    }
}

/// For each place the group of boxes that begins there.
pub(crate) fn groups_of(alloc: Global, boxes: &[Box3]) -> Result<Vec<Group>, NoMemory>
    ensures { IfOk result (λ groups. AreGroups boxes.now groups.items) }
{
    let mut groups = single_groups(alloc, boxes)?;
    join_groups(boxes, groups.as_mut_slice());
    Ok(groups)
}

/// The first place from one up to another whose box meets a box, and the other place where none does. A group whose hull does not meet
/// it is passed over.
pub(crate) fn met_between(
    boxes: &[Box3],
    groups: &[Group],
    met: &Box3,
    from: usize,
    upto: usize,
) -> usize
    requires groups { AreGroups boxes.now groups.now }
    requires upto { upto ≤ length boxes.now }
    ensures within { result ≤ upto }
    ensures on { result < upto → from ≤ result }
    ensures met { result < upto → (d : Box3) → boxes_meet (slice_index_or boxes.now result d) met.now ≡ true }
    ensures none { NoneBetween (λ box. boxes_meet box met.now) boxes.now from result }
{
    let mut place = from;
    while place < upto {
        if !do_meet(&groups[place].hull, met) {
            place = groups[place].next;
        } else if do_meet(&boxes[place], met) {
            return place;
        } else {
            place += 1;
        }
    }
    upto
}

/// The first place from one on whose box meets one of some others, and how many boxes there are where none does.
pub(crate) fn first_of_any(boxes: &[Box3], groups: &[Group], right: &[Box3], from: usize) -> usize
    requires { AreGroups boxes.now groups.now }
    ensures { IsFirstOfAny boxes.now right.now from result (length right.now) }
{
    let mut upto = boxes.len();
    for met in right {
        if upto <= from {
            return upto;
        }
        upto = met_between(boxes, groups, met, from, upto);
    }
    upto
}

/// Whether one of some boxes meets one of some others: group by group, and a group whose hull meets none of them is passed over.
pub(crate) fn do_groups_meet(
    boxes: &[Box3],
    groups: &[Group],
    others: &[Box3],
    other_groups: &[Group],
) -> bool
    requires groups { AreGroups boxes.now groups.now }
    requires other_groups { AreGroups others.now other_groups.now }
    ensures { result ≡ list_any (λ own. list_any (boxes_meet own) others.now) boxes.now }
{
    let count = others.len();
    let mut place = 0;
    while place < boxes.len() {
        let first = met_between(others, other_groups, &groups[place].hull, 0, count);
        if first >= count {
            place = groups[place].next;
        } else if met_between(others, other_groups, &boxes[place], first, count) < count {
            return true;
        } else {
            place += 1;
        }
    }
    false
}
