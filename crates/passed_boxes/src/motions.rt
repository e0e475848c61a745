//! Motions that are the same.
ghost use Rattle.std.specs.Prelude.{◌≡◌, true};

use path_geometry::{Arc, Ends, Motion};

/// Whether the same axes start and end at the same places.
fn are_same_ends(left: &Ends, right: &Ends) -> bool
    ensures same { result ≡ true → left.now ≡ right.now }
    ensures all { left.now ≡ right.now → result ≡ true }
{
    left == right
}

/// Whether two arcs turn about the same centre from the first axis to the second and keep between the same radii.
fn do_turn_alike(left: &Arc, right: &Arc) -> bool
    ensures same { result ≡ true → (left.now.first ≡ right.now.first) × (left.now.second ≡ right.now.second)
        × (left.now.centre ≡ right.now.centre) }
    ensures all { left.now.first ≡ right.now.first → left.now.second ≡ right.now.second
        → left.now.centre ≡ right.now.centre → result ≡ true }
{
    left.first == right.first && left.second == right.second && left.centre == right.centre
}

/// Whether two arcs are the same.
fn are_same_arcs(left: &Arc, right: &Arc) -> bool
    ensures same { result ≡ true → left.now ≡ right.now }
    ensures all { left.now ≡ right.now → result ≡ true }
{
    are_same_ends(&left.ends, &right.ends)
        && do_turn_alike(left, right)
        && left.inner == right.inner
        && left.outer == right.outer
        && left.full == right.full
}

/// Whether two motions are the same: of one kind, of the same axes, from and to the same places.
pub fn is_same_motion(left: &Motion, right: &Motion) -> bool
    ensures same { result ≡ true → left.now ≡ right.now }
    ensures all { left.now ≡ right.now → result ≡ true }
{
    match left {
        Motion::Line(one) => match right {
            Motion::Line(other) => are_same_ends(one, other),
            _ => false,
        },
        Motion::Rapid(one) => match right {
            Motion::Rapid(other) => are_same_ends(one, other),
            _ => false,
        },
        Motion::Arc(one) => match right {
            Motion::Arc(other) => are_same_arcs(one, other),
            _ => false,
        },
    }
}
