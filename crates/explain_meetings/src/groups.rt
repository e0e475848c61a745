//! Pairs of lines that meet, each with how often.
ghost use Rattle.std.specs.Prelude.{◌≡◌, ◌++◌, ◌∷◌, [], IfOk, OnOk, map};
ghost use Rattle.explain_meetings.specs.Groups as model;
ghost use Rattle.explain_meetings.specs.GroupSteps as steps;

use axis_sets::{ChannelId, ZoneId};
use explain_places::Meeting;
use indexmap::IndexSet;
use out_of_memory::NoMemory;
use std::alloc::{AllocError, Global};
use sync_types::{PlaceName, StretchKind};

/// Pairs of boxes with the same names.
#[derive(Clone, Copy)]
pub struct Group {
    /// The place of the first among all pairs.
    pub first: usize,
    /// How many there are.
    pub count: u64,
}

/// A group with the names of its boxes.
#[derive(Clone, Copy)]
pub(crate) struct Named {
    left: PlaceName,
    right: PlaceName,
    group: Group,
}

/// What is compared of the name of a box.
#[derive(Clone, Copy, PartialEq, Eq, Hash, Drop)]
struct NameKey {
    line: u32,
    zone: u8,
    channel: Option<u8>,
    kind: u8,
}

/// What is compared of the names of a group. No two groups have the same.
#[derive(Clone, Copy, PartialEq, Eq, Hash, Drop)]
struct Key {
    left: NameKey,
    right: NameKey,
}

/// The number of a kind.
fn kind_number(kind: StretchKind) -> u8
    ensures { result ≡ model.kind_number kind }
{
    match kind {
        StretchKind::Idle => 0,
        StretchKind::Run => 1,
        StretchKind::Hold => 2,
        StretchKind::End => 3,
        StretchKind::Free => 4,
    }
}

/// The key of a name.
fn name_key(name: &PlaceName) -> NameKey
    ensures { result ≡ steps.name_key name.now }
{
    NameKey {
        line: name.line,
        zone: name.zone.number,
        channel: name.channel.map(|channel| channel.number),
        kind: kind_number(name.kind),
    }
}

/// The key of a group.
fn key_of(row: &Named) -> Key
    ensures { result ≡ steps.key_of row.now }
{
    Key {
        left: name_key(&row.left),
        right: name_key(&row.right),
    }
}

/// A group with the count of another added.
fn counted(row: &Named, more: &Named) -> Named
    ensures { result ≡ steps.counted row.now more.now }
{
    let group = row.group;
    let other = more.group;
    Named {
        left: row.left,
        right: row.right,
        group: Group {
            first: group.first,
            count: group.count.saturating_add(other.count),
        },
    }
}

/// Adds a row. The parts of a name are named here, as the check of a `push` asks for it.
fn add(rows: &mut Vec<Named>, more: &Named) -> Result<(), AllocError>
    ensures { OnOk result (rows.new.items ≡ rows.old.items ++ more.now ∷ []) }
{
    let name: PlaceName = more.left;
    let _zone: ZoneId = name.zone;
    let _channel: Option<ChannelId> = name.channel;
    let _kind: StretchKind = name.kind;
    rows.push(*more)?;
    Ok(())
}

/// Adds a group to the one of its names, or as a new one. The keys are those of the rows, in their order.
fn put(rows: &mut Vec<Named>, keys: &mut IndexSet<Key>, more: &Named) -> Result<(), AllocError>
    requires { keys.old.keys ≡ map steps.key_of rows.old.items }
    ensures rows { OnOk result (rows.new.items ≡ steps.put_named rows.old.items more.now) }
    ensures keys { OnOk result (keys.new.keys ≡ map steps.key_of rows.new.items) }
{
    let (place, is_new) = keys.insert_full(key_of(more))?;
    if is_new {
        add(rows, more)?;
    } else {
        let row = rows[place];
        rows[place] = counted(&row, more);
    }
    Ok(())
}

/// The pair of a place as a group.
#[tactic(auto, unfolding(crate::specs::GroupSteps::named_at))]
fn named_at(place: usize, met: &Meeting) -> Named
    ensures { result ≡ steps.named_at place met.now }
{
    let left = met.left;
    let right = met.right;
    Named {
        left: left.name,
        right: right.name,
        group: Group {
            first: place,
            count: 1,
        },
    }
}

/// The groups of some pairs, with their names.
fn named_of(alloc: Global, met: &[Meeting]) -> Result<Vec<Named>, AllocError>
    ensures { IfOk result (λ rows. steps.AreNamed met.now rows.items) }
{
    let mut rows = Vec::new(alloc);
    let mut keys = IndexSet::new(alloc);
    for place in 0..met.len() {
        put(&mut rows, &mut keys, &named_at(place, &met[place]))?;
    }
    Ok(rows)
}

/// The groups without their names.
fn groups_in(alloc: Global, rows: &[Named]) -> Result<Vec<Group>, AllocError>
    ensures { IfOk result (λ groups. groups.items ≡ map (λ row. row.group) rows.now) }
{
    let mut groups = Vec::new(alloc);
    for row in rows {
        groups.push(row.group)?;
    }
    Ok(groups)
}

/// Pairs of boxes by their names, in the order of the first of each. Each pair is looked up by its names, so the time grows with the
/// pairs alone, and the memory with the groups.
pub fn groups_of(alloc: Global, met: &[Meeting]) -> Result<Vec<Group>, NoMemory>
    ensures { IfOk result (λ groups. model.AreGroups met.now groups.items) }
{
    let rows = named_of(alloc, met)?;
    let parts = rows.as_slice();
    let groups = groups_in(alloc, parts)?;
    Ok(groups)
}
