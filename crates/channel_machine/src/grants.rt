//! With which grants a channel of a job can go on.

ghost use Rattle.std.specs.Prelude.{◌≡◌, ◌||◌, option_copied};
ghost use Rattle.std.specs.List.{list_all, range_with_len};
ghost use Rattle.axis_sets.specs.declared.limits.TheConstants.{ZONE_LIMIT};
ghost use Rattle.channel_machine.specs.Coordination.{has_all_of};
ghost use Rattle.channel_machine.specs.Grants as model;

use crate::coordination::has_all_of;
use crate::local::Local;
use axis_sets::{AXIS_LIMIT, AxisId, AxisSet, ZONE_PLACES, ZoneId};
use job_types::{Job, ZoneLine};
use micro_units::is_position;
use sync_types::Grant;

/// Whether an axis is one that the channel owns.
fn is_owned_in(local: Option<&Local>, axis: AxisId) -> bool
    ensures { result ≡ model.is_owned_in (option_copied local.entry) axis }
{
    match local {
        Some(local) => local.state.own.owned.contains(axis),
        None => false,
    }
}

/// Whether an axis that the grant names is one of the job, its position is in range, and it is known where it stands.
fn is_axis_fit(job: &Job, local: Option<&Local>, grant: &Grant, axis: AxisId) -> bool
    ensures { result ≡ model.is_axis_fit job.now (option_copied local.entry) grant.now axis }
{
    let owned = grant.axes.contains(axis);
    let known = is_owned_in(local, axis);
    let declared = usize::from(axis.index) < job.axes.len();
    match grant.at.get(axis) {
        Some(at) => declared && is_position(at.micrometres),
        None => !owned || (declared && known),
    }
}

/// Whether each axis fits.
fn axes_fit(job: &Job, local: Option<&Local>, grant: &Grant) -> bool
    ensures { result ≡ list_all (model.is_axis_fit job.now (option_copied local.entry) grant.now)
        (range_with_len 0 AXIS_LIMIT) }
{
    for index in 0..AXIS_LIMIT as u8 {
        if !is_axis_fit(job, local, grant, AxisId { index }) {
            return false;
        }
    }
    true
}

/// Whether no axis of these carries a direction.
fn is_side_apart(axes: AxisSet, carrier: Option<(AxisId, bool)>) -> bool
    ensures { result ≡ model.is_side_apart axes carrier }
{
    match carrier {
        Some((axis, _)) => !axes.contains(axis),
        None => true,
    }
}

/// Whether no axis of a zone is among these.
#[tactic(auto, unfolding(crate::specs::Grants::has_none_of))]
fn has_none_of(axes: AxisSet, zone: &ZoneLine) -> bool
    ensures { result ≡ model.has_none_of axes zone.now }
{
    zone.sides
        .iter()
        .all(|side| is_side_apart(axes, side.carrier))
}

/// Whether the grant splits no zone of the job.
fn leaves_zones_whole(job: &Job, axes: AxisSet) -> bool
    ensures { result ≡ list_all (λ zone. has_all_of axes zone || model.has_none_of axes zone) job.now.zones }
{
    job.zones
        .iter()
        .all(|zone| has_all_of(axes, zone) || has_none_of(axes, zone))
}

/// Whether the zone of this number is one of the job, and all its axes are among these.
#[tactic(auto, unfolding(crate::specs::Grants::is_zone_of))]
fn is_zone_of(job: &Job, axes: AxisSet, number: ZoneId) -> bool
    ensures { result ≡ model.is_zone_of job.now axes number }
{
    job.zones
        .iter()
        .any(|zone| zone.zone == number && has_all_of(axes, zone))
}

/// Whether the zone of this number is off, or one of the job, and all its axes are the grant's.
fn is_zone_fit(job: &Job, grant: &Grant, number: ZoneId) -> bool
    ensures { result ≡ model.is_zone_fit job.now grant.now number }
{
    !grant.on.contains(number) || is_zone_of(job, grant.axes, number)
}

/// Whether each zone fits that is on.
fn zones_fit(job: &Job, grant: &Grant) -> bool
    ensures { result ≡ list_all (model.is_zone_fit job.now grant.now) (range_with_len 1 ZONE_LIMIT) }
{
    for number in 1..ZONE_PLACES as u8 {
        let zone = ZoneId { number };
        if !is_zone_fit(job, grant, zone) {
            return false;
        }
    }
    true
}

/// Whether a channel that starts has a program of the job's library.
fn has_program(job: &Job, local: Option<&Local>, program: Option<u16>) -> bool
    ensures { result ≡ model.has_program job.now (option_copied local.entry) program }
{
    match (local, program) {
        (Some(_), _) => true,
        (None, Some(place)) => usize::from(place) < job.programs.len(),
        (None, None) => false,
    }
}

/// Whether a channel of the job can go on with a grant, from its state, or where there is none from its start.
///
/// It can exactly where the axes that the grant names are axes of the job, its positions are at most 10,000 millimetres in
/// size, and each of its axes has a position or is an axis of the state; where of each zone of the job all axes are the
/// grant's or none is; where the zones that are on are zones of the job with all their axes among the grant's; and where, without
/// a state, its program is one of the job's library.
#[tactic(auto, unfolding(crate::specs::Grants::grant_fits))]
pub fn grant_fits(job: &Job, local: Option<&Local>, grant: &Grant) -> bool
    ensures { result ≡ model.grant_fits job.now (option_copied local.entry) grant.now }
{
    axes_fit(job, local, grant)
        && leaves_zones_whole(job, grant.axes)
        && zones_fit(job, grant)
        && has_program(job, local, grant.program)
}
