//! Each two zones as data.
ghost use Rattle.std.specs.Prelude.{◌≡◌, map, IfOk};
ghost use Rattle.explain_pairs.specs.PairData as model;

use crate::pairs::{Absent, Comparison, PairKind, ZonePair};
use crate::texts::apart_of;
use serde::Serialize;
use std::alloc::{AllocError, Global};

/// What is told of two zones. The members stand in the order of the alphabet, as all data have them.
#[derive(Drop, Serialize)]
pub struct PairData {
    /// How many pairs of boxes are compared, or the greatest number of 64 bits where there are more.
    pub count: u64,
    /// By how many micrometres the nearest of the boxes by which they are compared are apart; none where none are compared.
    pub nearest: Option<i64>,
    /// COMPARED, or why none are compared: ONE GROUP, FIRST NEVER ON, SECOND NEVER ON, BOTH NEVER ON, ONE CHANNEL or COORDINATION.
    pub reason: &'static str,
    /// The numbers of the zones, the lower first.
    pub zones: (u8, u8),
}

/// Which are never on, in a word.
fn absent_word(absent: Absent) -> &'static str
    ensures { result.now ≡ model.absent_word absent }
{
    match absent {
        Absent::First => "FIRST NEVER ON",
        Absent::Second => "SECOND NEVER ON",
        Absent::Both => "BOTH NEVER ON",
    }
}

/// What is told of two zones, in a word.
fn kind_word(kind: &PairKind) -> &'static str
    ensures { result.now ≡ model.kind_word kind.now }
{
    match kind {
        PairKind::OneGroup => "ONE GROUP",
        PairKind::NeverOn(absent) => absent_word(*absent),
        PairKind::Compared(_) => "COMPARED",
        PairKind::OneChannel(_) => "ONE CHANNEL",
        PairKind::Coordinated => "COORDINATION",
    }
}

/// What is found of the boxes of two zones; none where none are compared.
fn found_in(kind: &PairKind) -> Option<Comparison>
    ensures { result ≡ model.found_in kind.now }
{
    match kind {
        PairKind::OneGroup => None,
        PairKind::NeverOn(_) => None,
        PairKind::Compared(found) => Some(*found),
        PairKind::OneChannel(_) => None,
        PairKind::Coordinated => None,
    }
}

/// How many pairs are compared.
fn count_in(found: &Option<Comparison>) -> u64
    ensures { result ≡ model.count_in found.now }
{
    match found {
        None => 0,
        Some(found) => found.count,
    }
}

/// How near they come.
fn nearest_in(found: &Option<Comparison>) -> Option<i64>
    ensures { result ≡ model.nearest_in found.now }
{
    match found {
        None => None,
        Some(found) => Some(apart_of(found.reach)),
    }
}

/// Two zones as data.
pub fn pair_data(row: &ZonePair) -> PairData
    ensures numbers { model.numbers_in result ≡ model.numbers_of row.now }
    ensures reason { result.reason.now ≡ model.kind_word row.now.kind }
{
    let found = found_in(&row.kind);
    PairData {
        count: count_in(&found),
        nearest: nearest_in(&found),
        reason: kind_word(&row.kind),
        zones: (row.zones.0.number, row.zones.1.number),
    }
}

/// Each two zones as data, in their order.
pub fn pairs_data(alloc: Global, rows: &[ZonePair]) -> Result<Vec<PairData>, AllocError>
    ensures { IfOk result (λ «data». map model.numbers_in «data».items ≡ map model.numbers_of rows.now) }
{
    let mut all = Vec::new(alloc);
    for row in rows {
        all.push(pair_data(row))?;
    }
    Ok(all)
}
