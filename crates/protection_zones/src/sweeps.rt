//! The boxes of a zone in a span of the channel that holds it.
ghost use Rattle.std.specs.Prelude.{◌≡◌, ◌<◌, ◌≤◌, ◌^◌, ◌++◌, ◌+◌, [], All, IfOk, OnOk, length, map, is_some};
ghost use Rattle.std.specs.Option.{option_to_list};
ghost use Rattle.axis_sets.specs.Sets.{has};
ghost use Rattle.zone_stretches.specs.Rows.{positions_in};
ghost use Rattle.protection_zones.specs.Sweeps as model;
ghost use Rattle.zone_stretches.specs.ZoneBoxes.{IsFit, boxes_of, shown_box};
ghost use Rattle.path_geometry.specs.Motions.{IsSound};
ghost use Rattle.swept_boxes.specs.Cover.{cover_of};
ghost use Rattle.sync_types.specs.Items.{movement_of};

use crate::AxisPositions;
use crate::rows::settle;
use crate::sights::seen;
use crate::spans::SpanStart;
use arrayvec::ArrayVec;
use job_types::ZoneLine;
use micro_units::Um;
use std::alloc::{AllocError, Global};
use swept_boxes::{Ranges, cover};
use sync_types::Item;
use zone_stretches::{ZoneBox, ZoneEffect, standing_zone_box, zone_box};

/// What an item covers: its motion, or where it switches a zone nothing.
fn cover_of(item: &Item) -> Ranges
    requires { IsSound (movement_of item.now) }
    ensures { result ≡ cover_of (movement_of item.now) }
{
    match item.motion() {
        Some(motion) => cover(motion),
        None => Ranges {
            axes: ArrayVec::new(),
        },
    }
}

/// A zone, and the margin about it.
#[derive(Clone, Copy)]
pub(crate) struct ZoneShape<'a> {
    /// The zone.
    pub(crate) zone: &'a ZoneLine,
    /// The margin.
    pub(crate) margin: Um,
}

/// What a channel does at a place of a span.
#[derive(Clone, Copy)]
struct StepEvents<'a> {
    /// The place.
    place: u32,
    /// What it does.
    item: &'a Item,
    /// Where its axes stand before it.
    at: &'a AxisPositions,
}

/// The open box with its last place.
fn box_until(to: u32, opened: Option<ZoneBox>) -> Option<ZoneBox>
    ensures { result ≡ model.box_until to opened }
{
    match opened {
        None => None,
        Some(held) => Some(ZoneBox { to, ..held }),
    }
}

/// The open box, where it belongs to a motion.
fn if_it_moves(opened: Option<ZoneBox>) -> Option<ZoneBox>
    ensures { result ≡ model.if_it_moves opened }
{
    match opened {
        None => None,
        Some(held) => {
            if held.motion.is_some() {
                Some(held)
            } else {
                None
            }
        }
    }
}

/// The box that an item ends which has the next place.
fn ended_before(to: u32, opened: Option<ZoneBox>, sight: ZoneEffect) -> Option<ZoneBox>
    ensures { result ≡ model.ended_before to opened sight }
{
    match sight {
        ZoneEffect::Nothing => None,
        ZoneEffect::Turns(on) => { if on { None } else { box_until(to, opened) } }
        ZoneEffect::Moves => box_until(to, if_it_moves(opened)),
    }
}

/// Adds the box, if there is one.
fn push_some(boxes: &mut Vec<ZoneBox>, added: Option<ZoneBox>) -> Result<(), AllocError>
    ensures { OnOk result (boxes.new.items ≡ boxes.old.items ++ option_to_list added) }
{
    match added {
        None => Ok(()),
        Some(added) => {
            boxes.push(added)?;
            Ok(())
        }
    }
}

impl<'a> ZoneShape<'a> {
    /// The box of the zone, from a place on, during a motion.
    #[tactic(auto, unfolding(crate::specs::Sweeps::moving_box))]
    fn moving_box(&self, from: u32, deed: &StepEvents<'_>) -> ZoneBox
        requires { IsSound (movement_of deed.now.item.now) }
        ensures { result ≡ model.moving_box self.now.margin self.now.zone.now from deed.now.place deed.now.item.now
            (positions_in deed.now.at.now) }
    {
        let item = deed.item;
        ZoneBox {
            line: item.line,
            motion: Some(deed.place),
            from,
            to: from,
            cover: zone_box(self.margin, self.zone, &cover_of(item), deed.at),
        }
    }

    /// The box of the zone that stands from a place on.
    #[tactic(auto, unfolding(crate::specs::Sweeps::standing_box))]
    fn standing_box(&self, from: u32, line: u32, at: &AxisPositions) -> ZoneBox
        ensures { result ≡ model.standing_box self.now.margin self.now.zone.now from line (positions_in at.now) }
    {
        ZoneBox {
            line,
            motion: None,
            from,
            to: from,
            cover: standing_zone_box(self.margin, self.zone, at),
        }
    }

    /// What is open from the place of a motion on.
    fn moved_on(&self, deed: &StepEvents<'_>, opened: Option<ZoneBox>) -> Option<ZoneBox>
        requires { IsSound (movement_of deed.now.item.now) }
        ensures { result ≡ model.moved_on self.now.margin self.now.zone.now deed.now.place
            (positions_in deed.now.at.now) deed.now.item.now opened }
    {
        match opened {
            None => None,
            Some(held) => {
                let from = if held.motion.is_some() {
                    deed.place
                } else {
                    held.from
                };
                Some(self.moving_box(from, deed))
            }
        }
    }

    /// What is open from the place of a switch on.
    fn turned_on(&self, deed: &StepEvents<'_>, opened: Option<ZoneBox>) -> Option<ZoneBox>
        ensures { result ≡ model.turned_on self.now.margin self.now.zone.now deed.now.place
            (positions_in deed.now.at.now) deed.now.item.now opened }
    {
        match opened {
            None => Some(self.standing_box(deed.place, deed.item.line, deed.at)),
            Some(held) => Some(held),
        }
    }

    /// What is open from the place of an item on.
    fn opened_after(
        &self,
        deed: &StepEvents<'_>,
        opened: Option<ZoneBox>,
        sight: ZoneEffect,
    ) -> Option<ZoneBox>
        requires { IsSound (movement_of deed.now.item.now) }
        ensures { result ≡ model.opened_after self.now.margin self.now.zone.now deed.now.place
            (positions_in deed.now.at.now) deed.now.item.now opened sight }
    {
        match sight {
            ZoneEffect::Nothing => opened,
            ZoneEffect::Turns(on) => {
                if on {
                    self.turned_on(deed, opened)
                } else {
                    None
                }
            }
            ZoneEffect::Moves => self.moved_on(deed, opened),
        }
    }

    /// Whether the zone is on as a span begins.
    fn is_on(&self, begins: &SpanStart) -> bool
        ensures { result ≡ has begins.now.on self.now.zone.now.zone }
    {
        begins.on.contains(self.zone.zone)
    }

    /// What is open as a span begins.
    fn opened_at_first(&self, begins: &SpanStart) -> Option<ZoneBox>
        ensures { result ≡ model.opened_at_first self.now.margin self.now.zone.now
            (has begins.now.on self.now.zone.now.zone) begins.now.line (positions_in begins.now.at) }
    {
        if self.is_on(begins) {
            Some(self.standing_box(0, begins.line, &begins.at))
        } else {
            None
        }
    }

    /// The boxes of the zone in a span that begins so, while its holder does nothing.
    pub(crate) fn boxes_at_rest(
        &self,
        alloc: Global,
        begins: &SpanStart,
    ) -> Result<Vec<ZoneBox>, AllocError>
        ensures { IfOk result (λ boxes. boxes.items
            ≡ map (shown_box self.now.margin self.now.zone.now) (boxes_of self.now.zone.now
            (has begins.now.on self.now.zone.now.zone) begins.now.line (positions_in begins.now.at) [])) }
    {
        if self.is_on(begins) {
            Ok(Vec::from_array(alloc, [self.standing_box(0, begins.line, &begins.at)])?)
        } else {
            Ok(Vec::new(alloc))
        }
    }

    /// Writes the boxes of the zone in a span that begins so, while its holder does this.
    pub(crate) fn write_boxes(
        &self,
        boxes: &mut Vec<ZoneBox>,
        begins: &SpanStart,
        items: &[Item],
    ) -> Result<(), AllocError>
        requires few { length items.now < 2 ^ 32 }
        requires fit { All IsFit items.now }
        ensures { OnOk result (boxes.new.items ≡ map (shown_box self.now.margin self.now.zone.now)
            (boxes_of self.now.zone.now (has begins.now.on self.now.zone.now.zone) begins.now.line
            (positions_in begins.now.at) items.now)) }
    {
        boxes.clear();
        let mut at = begins.at;
        let mut opened = self.opened_at_first(begins);
        for (place, item) in items.iter().enumerate() {
            let sight = seen(self.zone, item);
            push_some(boxes, ended_before(place as u32, opened, sight))?;
            let deed = StepEvents {
                place: place as u32 + 1,
                item,
                at: &at,
            };
            opened = self.opened_after(&deed, opened, sight);
            settle(item, &mut at);
        }
        push_some(boxes, box_until(items.len() as u32, opened))
    }
}
