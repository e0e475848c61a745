//! The verdicts YES, NO, RACE and UNDECIDED as JSON.
use crate::assumptions::GrantedData;
use crate::blocks::block_data;
use crate::meetings::{MeetingData, MetData};
use crate::places::SideData;
use axis_sets::ZoneId;
use exit_statuses::Status;
use explain_pairs::PairData;
use explain_places::Told;
use serde::Serialize;
use serde_json::{Value, json};
use std::alloc::{AllocError, Global};
use sync_types::Race;

/// The verdict NO. The members stand in the order of the alphabet, as all data have them.
#[derive(Drop, Serialize)]
pub struct NoData<'a> {
    assumed: Vec<GrantedData<'a>>,
    first: Value,
    meetings: Vec<MeetingData>,
    sides: Vec<SideData<'a>>,
    status: u8,
    verdict: &'static str,
}

impl<'a> NoData<'a> {
    /// The verdict NO, with the first two boxes that meet, all pairs of lines that do, and what the run takes for granted.
    pub fn new(first: Value, met: MetData<'a>, assumed: Vec<GrantedData<'a>>) -> NoData<'a> {
        NoData {
            assumed,
            first,
            meetings: met.meetings,
            sides: met.sides,
            status: Status::No.number(),
            verdict: "NO",
        }
    }
}

/// The verdict YES. The members stand in the order of the alphabet, as all data have them.
#[derive(Drop, Serialize)]
pub struct YesData<'a> {
    assumed: Vec<GrantedData<'a>>,
    nearest: Vec<Value>,
    pairs: Vec<PairData>,
    status: u8,
    verdict: &'static str,
}

impl<'a> YesData<'a> {
    /// The verdict YES, with how near each two groups come, what is told of each two zones, and what the run takes for granted.
    pub fn new(
        nearest: Vec<Value>,
        pairs: Vec<PairData>,
        assumed: Vec<GrantedData<'a>>,
    ) -> YesData<'a> {
        YesData {
            assumed,
            nearest,
            pairs,
            status: Status::Yes.number(),
            verdict: "YES",
        }
    }
}

/// How many pairs of boxes of two zones are to be compared.
pub fn number_data(
    alloc: Global,
    zones: (ZoneId, ZoneId),
    count: u64,
) -> Result<Value, AllocError> {
    json!(in alloc; {"zones": [zones.0.number, zones.1.number], "count": count})
}

/// The verdict UNDECIDED: so many pairs of boxes are to be compared, and so many may be; and how many of each two zones.
pub fn undecided_data(
    alloc: Global,
    count: u64,
    budget: u32,
    numbers: Vec<Value>,
) -> Result<Value, AllocError> {
    json!(in alloc; {
        "verdict": "UNDECIDED",
        "status": Status::Undecided.number(),
        "count": count,
        "budget": budget,
        "pairs": numbers
    })
}

/// The verdict RACE: what was raced for, and which order would close the race.
pub fn race_data(
    alloc: Global,
    told: &Told,
    race: &Race,
    prize: &str,
    remedy: &str,
) -> Result<Value, AllocError> {
    let first = block_data(alloc, told, Some(race.first.0), race.first.1)?;
    let second = block_data(alloc, told, Some(race.second.0), race.second.1)?;
    json!(in alloc; {
        "verdict": "RACE",
        "status": Status::Race.number(),
        "first": first,
        "second": second,
        "prize": prize,
        "remedy": remedy
    })
}
