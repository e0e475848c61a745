//! The pairs of lines that meet, as JSON. A line stands in many pairs, so each side is listed once, and a pair names two of them.
use crate::blocks::channel_number;
use crate::places::{SideData, kind_name, side_data};
use explain_places::{Meeting, Place, Told};
use indexmap::IndexSet;
use serde::Serialize;
use std::alloc::{AllocError, Global};

/// What is compared of a side. No two that are listed have the same.
#[derive(Clone, Copy, PartialEq, Eq, Hash, Drop)]
struct SideName {
    line: u32,
    zone: u8,
    channel: u8,
    kind: &'static str,
}

/// A pair of lines that meets: how often, and the places of its sides among those that are listed, from 0.
#[derive(Drop, Serialize)]
pub(crate) struct MeetingData {
    count: u64,
    left: usize,
    right: usize,
}

/// Pairs of lines that meet, in the order in which they were put in, and the sides that they name: each once, in the order in which
/// they came.
#[derive(Drop)]
pub struct MetData<'a> {
    /// What is compared of each side.
    names: IndexSet<SideName>,
    /// The pairs.
    pub(crate) meetings: Vec<MeetingData>,
    /// The sides.
    pub(crate) sides: Vec<SideData<'a>>,
}

/// What is compared of a side.
fn name_of(place: &Place) -> SideName {
    SideName {
        line: place.name.line,
        zone: place.name.zone.number,
        channel: channel_number(place.name.channel),
        kind: kind_name(place.name.kind),
    }
}

impl<'a> MetData<'a> {
    /// No pairs yet.
    pub fn new(alloc: Global) -> MetData<'a> {
        MetData {
            names: IndexSet::new(alloc),
            meetings: Vec::new(alloc),
            sides: Vec::new(alloc),
        }
    }

    /// The place of a side among those that are listed, where it is put if it is not there yet.
    fn place_of(
        &mut self,
        alloc: Global,
        told: &Told<'a>,
        place: &Place,
    ) -> Result<usize, AllocError> {
        let (number, is_new) = self.names.insert_full(name_of(place))?;
        if is_new {
            self.sides.push(side_data(alloc, told, place)?)?;
        }
        Ok(number)
    }

    /// Puts in a pair of lines that meets so often, of which these are two boxes.
    pub fn add(
        &mut self,
        alloc: Global,
        told: &Told<'a>,
        pair: &Meeting,
        count: u64,
    ) -> Result<(), AllocError> {
        let left = self.place_of(alloc, told, &pair.left)?;
        let right = self.place_of(alloc, told, &pair.right)?;
        self.meetings.push(MeetingData { count, left, right })?;
        Ok(())
    }
}
