//! Where all axes stand.
ghost use Rattle.std.specs.Prelude.{◌≡◌, ◌==◌, ◌<◌, ◌≤◌, ℕ, All, find, length, unwrap_or};
ghost use Rattle.axis_sets.specs.Positions.{position_of, stands};
ghost use Rattle.axis_sets.specs.declared.limits.TheConstants.{AXIS_LIMIT};
ghost use Rattle.job_types.specs.Axes.{start_position};
ghost use Rattle.path_geometry.specs.Motions.{axes_of};
ghost use Rattle.sync_types.specs.Items.{movement_of};
ghost use Rattle.zone_stretches.specs.Rows.{positions_in};
ghost use Rattle.zone_stretches.specs.ZoneBoxes.{stand_after};

use axis_sets::{AXIS_LIMIT, AxisId, Positions};
use job_types::{Job, start_position};
use micro_units::Um;
use sync_types::Item;

/// Where each axis stands, in micrometres.
pub(crate) type AxisPositions = [Um; AXIS_LIMIT];

/// Where the job puts its axes.
pub(crate) fn start_row(job: &Job) -> AxisPositions
    requires { length job.now.axes ≤ AXIS_LIMIT }
    ensures { (axis : ℕ) → positions_in result axis ≡ start_position job.now axis }
{
    let mut row = [Um { micrometres: 0 }; AXIS_LIMIT];
    for index in 0..AXIS_LIMIT {
        row[index] = start_position(job, index);
    }
    row
}

/// The position of an axis by its index, if there is one.
fn position_at(at: &Positions, index: usize) -> Option<Um>
    requires { index < AXIS_LIMIT }
    ensures position { result ≡ position_of at.now index }
    ensures size { length at.now ≡ AXIS_LIMIT }
{
    at.get(AxisId { index: index as u8 })
}

/// Puts those axes that have a position there.
pub(crate) fn put(row: &mut AxisPositions, at: &Positions)
    ensures { (axis : ℕ) → positions_in row.new axis ≡ unwrap_or (position_of at.now axis) (positions_in row.old axis) }
{
    for index in 0..AXIS_LIMIT {
        if let Some(position) = position_at(at, index) {
            row[index] = position;
        }
    }
}

/// Where axes stand by their positions; one without a position stands at 0.
pub(crate) fn row_of(at: &Positions) -> AxisPositions
    ensures { (axis : ℕ) → positions_in result axis ≡ stands at.now axis }
{
    let mut row = [Um { micrometres: 0 }; AXIS_LIMIT];
    put(&mut row, at);
    row
}

/// The end that is named for an axis.
fn end_of(ends: &[(AxisId, Um, Um)], axis: AxisId) -> Option<(AxisId, Um, Um)>
    ensures { result ≡ find (λ e. e.0 == axis) ends.now }
{
    ends.iter().copied().find(|end| end.0 == axis)
}

/// Where a motion leaves an axis.
#[tactic(auto, unfolding(zone_stretches::specs::ZoneBoxes::stand_after))]
fn after(item: &Item, row: &AxisPositions, index: usize) -> Um
    requires { index < AXIS_LIMIT }
    ensures { result ≡ stand_after item.now (positions_in row.now) index }
{
    let axis = AxisId { index: index as u8 };
    let end = match item.motion() {
        Some(motion) => end_of(&motion.ends().axes, axis),
        None => None,
    };
    match end {
        Some(end) => end.2,
        None => row[index],
    }
}

/// Puts the axes where a motion leaves them.
pub(crate) fn settle(item: &Item, row: &mut AxisPositions)
    requires { All (λ e. e.0 < AXIS_LIMIT) (axes_of (movement_of item.now)) }
    ensures { (axis : ℕ) → positions_in row.new axis ≡ stand_after item.now (positions_in row.old) axis }
{
    let before = *row;
    for index in 0..AXIS_LIMIT {
        row[index] = after(item, &before, index);
    }
}
