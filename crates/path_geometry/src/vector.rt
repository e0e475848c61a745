//! Vectors of the plane with whole parts.
ghost use Rattle.std.specs.Prelude.{◌≡◌, ◌<◌, ◌≤◌, ◌*◌, ◌*ℤ◌, ◌-ℤ◌, ◌+ℤ◌, unsigned_abs};
ghost use Rattle.path_geometry.specs.Vectors as spec;
ghost use Rattle.micro_units.specs.declared.limits.TheConstants.{CHANGE_LIMIT};

use micro_units::Um;
use std::marker::Model;

/// A vector of the plane, its parts at most `CHANGE_LIMIT` in size.
#[derive(Clone, Copy)]
pub(crate) struct Vector {
    /// Its part along the first axis.
    pub(crate) u: Um,
    /// Its part along the second axis.
    pub(crate) v: Um,
}

impl Model for Vector {
    ghost use Rattle.std.specs.Prelude.{◌≤◌, unsigned_abs};
    ghost use Rattle.path_geometry.specs.Vectors as vectors;
    ghost use Rattle.micro_units.specs.declared.limits.TheConstants.{CHANGE_LIMIT};

    ghost Value = { vectors.Vector };

    ghost view = { λ w. record { u = w.u; v = w.v } };

    ghost invariant = { λ w. (unsigned_abs w.u ≤ CHANGE_LIMIT) × (unsigned_abs w.v ≤ CHANGE_LIMIT) };

    ghost inverse = { λ w. record { u = w.u; v = w.v } };
}

impl Vector {
    /// The square of its length.
    pub(crate) fn square(self) -> u64
        ensures value { result ≡ spec.square self }
        ensures size { result ≤ 800000000000000 }
    {
        square_of(self.u) + square_of(self.v)
    }

    /// Whether both have the same direction, where none of them is zero.
    pub(crate) fn is_one_way(self, other: Vector) -> bool
        ensures { result ≡ spec.is_one_way self other }
    {
        self.cross(other) == 0 && self.dot(other) > 0
    }

    fn cross(self, other: Vector) -> i64
        ensures { result ≡ spec.cross self other }
    {
        difference(product(self.u, other.v), product(self.v, other.u))
    }

    fn dot(self, other: Vector) -> i64
        ensures { result ≡ spec.dot self other }
    {
        sum(product(self.u, other.u), product(self.v, other.v))
    }
}

/// The square of a length.
pub(crate) fn square_of(part: Um) -> u64
    requires { unsigned_abs part ≤ CHANGE_LIMIT }
    ensures value { result ≡ unsigned_abs part * unsigned_abs part }
    ensures size { result ≤ 400000000000000 }
{
    let size = u64::from(part.micrometres.unsigned_abs());
    size * size
}

fn product(a: Um, b: Um) -> i64
    requires first { unsigned_abs a ≤ CHANGE_LIMIT }
    requires second { unsigned_abs b ≤ CHANGE_LIMIT }
    ensures value { result ≡ a *ℤ b }
    ensures size { unsigned_abs result ≤ 400000000000000 }
{
    i64::from(a.micrometres) * i64::from(b.micrometres)
}

fn difference(a: i64, b: i64) -> i64
    requires first { unsigned_abs a ≤ 400000000000000 }
    requires second { unsigned_abs b ≤ 400000000000000 }
    ensures { result ≡ a -ℤ b }
{
    a - b
}

fn sum(a: i64, b: i64) -> i64
    requires first { unsigned_abs a ≤ 400000000000000 }
    requires second { unsigned_abs b ≤ 400000000000000 }
    ensures { result ≡ a +ℤ b }
{
    a + b
}
