//! How many boxes of each two zones are compared.
ghost use Rattle.std.specs.Prelude.{◌≡◌, ◌++◌, All, IfOk, OnOk};
ghost use Rattle.std.specs.List.{flat_map};
ghost use Rattle.clash_check.specs.NumberSteps as steps;
ghost use Rattle.clash_check.specs.PairNumbers as model;
ghost use Rattle.order_clocks.specs.Tells.{is_before_in};
ghost use Rattle.sync_types.specs.Views.{RunView};
ghost use Rattle.zone_stretches.specs.TimedZones.{AreTimed, each_two};
ghost use Rattle.zone_stretches.specs.Told.{IsTold};

use crate::pair_counts::count_of_zones;
use axis_sets::ZoneId;
use job_types::Job;
use order_clocks::Clocks;
use out_of_memory::NoMemory;
use std::alloc::{AllocError, Global};
use zone_stretches::{Stretches, TimedZone, TimedZones};

/// How many boxes of two zones are compared.
#[derive(Clone, Copy, PartialEq, Eq)]
pub struct PairNumber {
    /// The zones, that of the lower number first.
    pub zones: (ZoneId, ZoneId),
    /// How many pairs of their boxes are compared, or the greatest number of 64 bits where there are more.
    pub count: u64,
}

/// Adds a row, where its count is not 0.
fn add_some(rows: &mut Vec<PairNumber>, row: PairNumber) -> Result<(), AllocError>
    ensures { OnOk result (rows.new.items ≡ rows.old.items ++ model.some_number row) }
{
    if row.count != 0 {
        rows.push(row)?;
    }
    Ok(())
}

/// How many boxes of two zones are compared.
#[tactic(auto, unfolding(crate::specs::NumberSteps::number_with))]
fn number_with(clocks: &Clocks, left: &TimedZone, right: &TimedZone) -> PairNumber
    requires { AreTimed (is_before_in clocks.now.rows) (left.now, right.now) }
    ensures { result ≡ steps.number_with (is_before_in clocks.now.rows) left.now.time right.now.time }
{
    PairNumber {
        zones: (left.zone.zone, right.zone.zone),
        count: count_of_zones(clocks, left, right),
    }
}

/// The rows of each two of these zones.
fn numbers_in(
    alloc: Global,
    zones: &TimedZones,
    clocks: &Clocks,
) -> Result<Vec<PairNumber>, AllocError>
    requires { All (AreTimed (is_before_in clocks.now.rows)) (each_two zones.now) }
    ensures { IfOk result (λ rows. rows.items ≡ flat_map (steps.row_with (is_before_in clocks.now.rows))
        (each_two zones.now)) }
{
    let mut rows = Vec::new(alloc);
    for pair in zones.pairs() {
        add_some(&mut rows, number_with(clocks, &pair.0, &pair.1))?;
    }
    Ok(rows)
}

/// Sorts rows by their counts, the most first; those with as many stay in their order.
fn sort_by_count(rows: &mut Vec<PairNumber>) -> Result<(), AllocError>
    ensures { OnOk result (model.AreByCount rows.old.items rows.new.items) }
{
    rows.sort_by_key(|row| u64::MAX - row.count)?;
    Ok(())
}

/// For each two zones of which boxes are compared how many pairs these are, the most first. It takes memory for these rows alone.
pub fn pair_numbers(
    alloc: Global,
    job: &Job,
    stretches: &Stretches,
    clocks: &Clocks,
) -> Result<Vec<PairNumber>, NoMemory>
    requires { (run : RunView) × IsTold job.now run stretches.now clocks.now }
    ensures { IfOk result (λ rows. model.AreByCount
        (model.numbers_of (is_before_in clocks.now.rows) job.now stretches.now) rows.items) }
{
    let zones = TimedZones::of(job, stretches, clocks);
    let mut rows = numbers_in(alloc, &zones, clocks)?;
    sort_by_count(&mut rows)?;
    Ok(rows)
}
