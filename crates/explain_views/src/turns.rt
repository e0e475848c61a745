//! How ways turn.
ghost use Rattle.std.specs.Prelude.{◌≡◌};
ghost use Rattle.explain_views.specs.Turns as model;

use crate::extents::along;
use crate::shapes::{Track, Turn};

/// Whether a direction is of the plane of a turn.
fn is_in(turn: &Turn, direction: usize) -> bool
    ensures { result ≡ model.is_in turn.now direction }
{
    turn.first.0 == direction || turn.second.0 == direction
}

/// The place on the other side of the centre of a turn along a direction; in no plane of the turn the place stays.
#[tactic(auto, unfolding(crate::specs::Turns::mirrored))]
fn mirrored(turn: &Turn, at: &[i64; 3], direction: usize) -> i64
    ensures { result ≡ model.mirrored turn.now at.now direction }
{
    let place = along(at, direction);
    let centre = along(&turn.centre, direction);
    if is_in(turn, direction) {
        centre.saturating_add(centre.saturating_sub(place))
    } else {
        place
    }
}

/// The place on a whole turn that is the farthest from a place of it.
#[tactic(auto, unfolding(crate::specs::Turns::opposite))]
pub(crate) fn opposite(turn: &Turn, at: &[i64; 3]) -> [i64; 3]
    ensures { result ≡ model.opposite turn.now at.now }
{
    [
        mirrored(turn, at, 0),
        mirrored(turn, at, 1),
        mirrored(turn, at, 2),
    ]
}

/// How far a place is from the centre of a turn along one of its directions, as the turn counts it.
#[tactic(auto, unfolding(crate::specs::Turns::offset))]
fn offset(turn: &Turn, at: &[i64; 3], direction: (usize, bool)) -> i64
    ensures { result ≡ model.offset turn.now at.now direction }
{
    let far = along(at, direction.0).saturating_sub(along(&turn.centre, direction.0));
    if direction.1 {
        (0i64).saturating_sub(far)
    } else {
        far
    }
}

/// How far a place is from the centre of a turn along both of its directions.
fn offsets(turn: &Turn, at: &[i64; 3]) -> (i64, i64)
    ensures { result ≡ model.offsets turn.now at.now }
{
    (offset(turn, at, turn.first), offset(turn, at, turn.second))
}

/// Whether a turn from one place to another is more than half a circle: the second is behind the line from the first through the
/// centre.
#[tactic(auto, unfolding(crate::specs::Turns::is_large))]
pub(crate) fn is_large(turn: &Turn, track: &Track) -> bool
    ensures { result ≡ model.is_large turn.now track.now }
{
    let from = offsets(turn, &track.from);
    let to = offsets(turn, &track.to);
    from.0.saturating_mul(to.1) < from.1.saturating_mul(to.0)
}

/// Whether the directions of a turn count one along and one against those of the drawing.
fn is_flipped(turn: &Turn) -> bool
    ensures { result ≡ model.is_flipped turn.now }
{
    if turn.first.1 {
        !turn.second.1
    } else {
        turn.second.1
    }
}

/// Whether a turn from its first direction towards its second is clockwise where this direction is upwards and the other one
/// to the right.
#[tactic(auto, unfolding(crate::specs::Turns::is_clockwise))]
pub(crate) fn is_clockwise(turn: &Turn, up: usize) -> bool
    ensures { result ≡ model.is_clockwise turn.now up }
{
    if is_flipped(turn) {
        turn.first.0 != up
    } else {
        turn.first.0 == up
    }
}

/// Whether a turn is in the plane of two directions.
#[tactic(auto, unfolding(crate::specs::Turns::is_in_plane))]
pub(crate) fn is_in_plane(turn: &Turn, across: usize, up: usize) -> bool
    ensures { result ≡ model.is_in_plane turn.now across up }
{
    across != up && is_in(turn, across) && is_in(turn, up)
}
