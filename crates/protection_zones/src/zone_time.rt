//! The stretches of a zone.
ghost use Rattle.std.specs.Prelude.{◌≡◌, [], ◌==◌, ◌≤◌, ◌<◌, ◌+◌, ◌^◌, ◌++◌, ℕ, suc, All, IfOk, OnOk, List, None, Some, drop, if◌then◌else◌, length, map, slice_index_or};
ghost use Rattle.std.specs.List.{flat_map};
ghost use Rattle.std.specs.Option.{option_map_or};
ghost use Rattle.axis_sets.specs.Sets.{has};
ghost use Rattle.axis_sets.specs.declared.limits.TheConstants.{CHANNEL_PLACES};
ghost use Rattle.protection_zones.specs.Beginnings.{AreOutsets, all_items, end_of, entry_until, first_in, items_until, outsets_in, shown_outset, span_at, spans_along};
ghost use Rattle.protection_zones.specs.Terms.{shown_term};
ghost use Rattle.zone_stretches.specs.Occurrences.{OccurrenceView};
ghost use Rattle.zone_stretches.specs.Rows.{positions_in};
ghost use Rattle.zone_stretches.specs.Spans.{Span, spans_of};
ghost use Rattle.zone_stretches.specs.Stretches.{free_stretch, spans_in, stretch_of_span, stretches_in_tenure};
ghost use Rattle.zone_stretches.specs.ZoneBoxes.{IsFit, boxes_of, shown_box};

use crate::spans::SpanStart;
use crate::sweeps::ZoneShape;
use crate::tenures::Tenure;
use axis_sets::ChannelId;
use job_types::{Job, ZoneLine};
use std::alloc::{AllocError, Global};
use sync_types::{EventId, Item, PlaceName, StretchKind};
use zone_stretches::{Stretch, ZoneBox};

/// A zone of a job, with what the channels do before each entry of a run.
#[derive(Clone, Copy)]
pub(crate) struct Scene<'a> {
    /// The job.
    pub(crate) job: &'a Job,
    /// The zone.
    pub(crate) zone: &'a ZoneLine,
    /// The items of each entry.
    pub(crate) items: &'a [Vec<Item>],
}

/// The channel that holds a zone, and how its times begin.
#[derive(Clone, Copy)]
struct Holder<'a> {
    channel: ChannelId,
    outsets: &'a [SpanStart],
}

/// The items of a place; none past the end.
fn items_at(items: &[Vec<Item>], place: usize) -> &[Item]
    ensures { result.now ≡ slice_index_or (all_items items.now) place [] }
{
    match items.get(place) {
        None => &[],
        Some(done) => done.as_slice(),
    }
}

/// What a channel does in a span that ends with this event, or lasts.
fn items_until(items: &[Vec<Item>], last: Option<EventId>) -> &[Item]
    ensures { result.now ≡ items_until (all_items items.now) last }
{
    match last {
        None => &[],
        Some(last) => {
            if last.go {
                &[]
            } else {
                items_at(items, last.step as usize)
            }
        }
    }
}

/// The entry of the event with which a time begins; 0 where it begins with the job.
fn first_entry(first: Option<EventId>) -> u32
    ensures { result ≡ option_map_or (λ e. e.step) first 0 }
{
    match first {
        None => 0,
        Some(first) => first.step,
    }
}

/// The entry to which a span belongs that ends with this event, or lasts.
fn entry_until(begins: &SpanStart, last: Option<EventId>) -> u32
    ensures { result ≡ entry_until (shown_outset begins.now) last }
{
    match last {
        None => first_entry(begins.first),
        Some(last) => {
            if last.go {
                first_entry(begins.first)
            } else {
                last.step
            }
        }
    }
}

/// The event with which a time begins; none past the end.
fn first_at(outsets: &[SpanStart], place: usize) -> Option<EventId>
    ensures { result ≡ first_in (drop place (map shown_outset outsets.now)) }
{
    if place < outsets.len() {
        outsets[place].first
    } else {
        None
    }
}

/// One more than the number of the last span of a tenure, of a channel that has so many.
fn end_of(size: usize, upto: Option<usize>) -> usize
    ensures end { result ≡ end_of size upto }
    ensures within { result ≤ size }
{
    match upto {
        None => size,
        Some(upto) => { if upto < size { upto + 1 } else { size } }
    }
}

/// The stretch of a tenure: the last one ends with the tenure.
fn stretch_in(term: &Tenure, stretch: Stretch, is_last: bool) -> Stretch
    ensures { result ≡ (if is_last then record stretch { last = term.now.last } else stretch) }
{
    let last = if is_last { term.last } else { stretch.last };
    Stretch { last, ..stretch }
}

/// How the times of a channel begin.
fn own_outsets(outsets: &[Vec<SpanStart>], channel: ChannelId) -> &[SpanStart]
    ensures own { map shown_outset result.now ≡ outsets_in outsets.now channel }
    ensures from { 1 ≤ channel }
    ensures below { channel < CHANNEL_PLACES }
{
    match outsets.get(usize::from(channel.number)) {
        None => &[],
        Some(own) => own.as_slice(),
    }
}

impl<'a> Scene<'a> {
    /// The boxes of the zone while this is done.
    fn boxes(
        &self,
        alloc: Global,
        scratch: &mut Vec<ZoneBox>,
        begins: &SpanStart,
        items: &[Item],
    ) -> Result<Vec<ZoneBox>, AllocError>
        requires few { length items.now < 2 ^ 32 }
        requires fit { All IsFit items.now }
        ensures { IfOk result (λ boxes. boxes.items ≡ map (shown_box self.now.job.now.margin self.now.zone.now)
            (boxes_of self.now.zone.now (has begins.now.on self.now.zone.now.zone) begins.now.line
            (positions_in begins.now.at) items.now)) }
    {
        let job = self.job;
        let shape = ZoneShape {
            zone: self.zone,
            margin: job.margin,
        };
        if items.is_empty() {
            return shape.boxes_at_rest(alloc, begins);
        }
        shape.write_boxes(scratch, begins, items)?;
        Vec::from_slice(alloc, scratch.as_slice())
    }

    /// The stretch of a span of the channel that holds the zone.
    fn held_stretch(
        &self,
        alloc: Global,
        scratch: &mut Vec<ZoneBox>,
        holder: &Holder<'_>,
        place: usize,
    ) -> Result<Stretch, AllocError>
        requires place { place < length holder.now.outsets.now }
        requires few { All (λ done. length done < 2 ^ 32) (all_items self.now.items.now) }
        requires fit { All (All IsFit) (all_items self.now.items.now) }
        ensures { IfOk result (λ s. s ≡ stretch_of_span self.now.job.now self.now.zone.now holder.now.channel
            (span_at (all_items self.now.items.now) holder.now.outsets.now place)) }
    {
        let zone = self.zone;
        let begins = &holder.outsets[place];
        let last = first_at(holder.outsets, place + 1);
        Ok(Stretch {
            name: PlaceName {
                zone: zone.zone,
                channel: Some(holder.channel),
                kind: begins.kind,
                line: begins.line,
            },
            first: begins.first,
            last,
            entry: entry_until(begins, last),
            boxes: self.boxes(alloc, scratch, begins, items_until(self.items, last))?,
        })
    }

    /// Adds the stretches of a tenure in which this channel holds the zone.
    fn write_held(
        &self,
        alloc: Global,
        scratch: &mut Vec<ZoneBox>,
        stretches: &mut Vec<Stretch>,
        holder: &Holder<'_>,
        term: &Tenure,
    ) -> Result<(), AllocError>
        requires few { All (λ done. length done < 2 ^ 32) (all_items self.now.items.now) }
        requires fit { All (All IsFit) (all_items self.now.items.now) }
        ensures { OnOk result (stretches.new.items ≡ stretches.old.items
            ++ map (stretch_of_span self.now.job.now self.now.zone.now holder.now.channel)
            (spans_in (spans_along (all_items self.now.items.now) (map shown_outset holder.now.outsets.now))
            (shown_term term.now))) }
    {
        let end = end_of(holder.outsets.len(), term.upto);
        for place in term.from..end {
            let stretch = self.held_stretch(alloc, scratch, holder, place)?;
            stretches.push(stretch_in(term, stretch, place + 1 == end))?;
        }
        Ok(())
    }

    /// The stretch of a tenure in which nobody holds the zone.
    fn free_stretch(
        &self,
        alloc: Global,
        scratch: &mut Vec<ZoneBox>,
        term: &Tenure,
    ) -> Result<Stretch, AllocError>
        ensures { IfOk result (λ s. s ≡ free_stretch self.now.job.now self.now.zone.now (shown_term term.now)) }
    {
        let zone = self.zone;
        let begins = SpanStart {
            kind: StretchKind::Free,
            line: term.line,
            at: term.at,
            on: term.on,
            first: term.first,
        };
        Ok(Stretch {
            name: PlaceName {
                zone: zone.zone,
                channel: None,
                kind: StretchKind::Free,
                line: term.line,
            },
            first: term.first,
            last: term.last,
            entry: first_entry(term.first),
            boxes: self.boxes(alloc, scratch, &begins, &[])?,
        })
    }

    /// Adds the stretches of a tenure.
    fn write_term(
        &self,
        alloc: Global,
        scratch: &mut Vec<ZoneBox>,
        stretches: &mut Vec<Stretch>,
        outsets: &[Vec<SpanStart>],
        term: &Tenure,
    ) -> Result<(), AllocError>
        requires few { All (λ done. length done < 2 ^ 32) (all_items self.now.items.now) }
        requires fit { All (All IsFit) (all_items self.now.items.now) }
        ensures { (occurrences : List OccurrenceView) → AreOutsets self.now.job.now occurrences outsets.now
            → OnOk result (stretches.new.items ≡ stretches.old.items
            ++ stretches_in_tenure self.now.job.now self.now.zone.now
            (spans_of self.now.job.now (all_items self.now.items.now) occurrences) (shown_term term.now)) }
    {
        match term.owner {
            None => {
                let stretch = self.free_stretch(alloc, scratch, term)?;
                stretches.push(stretch)?;
                Ok(())
            }
            Some(channel) => {
                let holder = Holder {
                    channel,
                    outsets: own_outsets(outsets, channel),
                };
                self.write_held(alloc, scratch, stretches, &holder, term)
            }
        }
    }

    /// The stretches of a zone that has these tenures.
    pub(crate) fn stretches(
        &self,
        alloc: Global,
        outsets: &[Vec<SpanStart>],
        terms: &[Tenure],
    ) -> Result<Vec<Stretch>, AllocError>
        requires few { All (λ done. length done < 2 ^ 32) (all_items self.now.items.now) }
        requires fit { All (All IsFit) (all_items self.now.items.now) }
        ensures { (occurrences : List OccurrenceView) → AreOutsets self.now.job.now occurrences outsets.now
            → IfOk result (λ stretches. stretches.items
            ≡ flat_map (stretches_in_tenure self.now.job.now self.now.zone.now
            (spans_of self.now.job.now (all_items self.now.items.now) occurrences)) (map shown_term terms.now)) }
    {
        let mut scratch = Vec::new(alloc);
        let mut stretches = Vec::new(alloc);
        for term in terms {
            self.write_term(alloc, &mut scratch, &mut stretches, outsets, term)?;
        }
        Ok(stretches)
    }
}
