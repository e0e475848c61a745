//! Sets of axes, of channels and of zones.
ghost use Rattle.std.specs.Prelude.{◌≡◌, ℕ, ◌<◌, ◌==◌, ◌||◌, ◌&&◌, ◌↔◌, not, false, length, IsTrue};
ghost use Rattle.axis_sets.specs.Sets.{has, IsEmpty, GivesLowestOf};

use crate::members::Member;
use crate::places::Places;
use crate::{AXIS_LIMIT, AxisId, CHANNEL_PLACES, ChannelId, ZONE_PLACES, ZoneId};
use std::marker::{Model, PhantomData};

/// A set of what has a number below `N`. A contract sees for each of these numbers whether it is a member.
#[derive(Clone, Copy, PartialEq, Eq)]
pub struct Set<I: Member<N>, const N: usize> {
    places: Places<N>,
    members: PhantomData<I>,
}

/// A set of axes.
pub type AxisSet = Set<AxisId, AXIS_LIMIT>;

/// A set of channels; 0 is never a member.
pub type ChannelSet = Set<ChannelId, CHANNEL_PLACES>;

/// A set of zones; 0 is never a member.
pub type ZoneSet = Set<ZoneId, ZONE_PLACES>;

impl<I: Member<N>, const N: usize> Model for Set<I, N> {
    ghost use Rattle.std.specs.Prelude.{Bool, List, ℕ, false, length, ◌≡◌, ◌<◌};
    ghost use Rattle.axis_sets.specs.Sets.{has};

    ghost Value = { List Bool };

    ghost view = { λ s. s.places };

    ghost invariant = { λ s. (length s.places ≡ N) × ((m : ℕ) → m < I.lowest_number → has s.places m ≡ false) };

    ghost inverse = { λ set. record { places = set; members = record {} } };
}

impl<I: Member<N>, const N: usize> Default for Set<I, N> {
    ghost use Rattle.std.specs.Prelude.{◌≡◌, length};
    ghost use Rattle.axis_sets.specs.Sets.{IsEmpty};

    ghost is_default = { λ set. IsEmpty set × (length set ≡ N) };

    fn default() -> Set<I, N> {
        Set::empty()
    }
}

impl<I: Member<N>, const N: usize> Set<I, N> {
    /// The set with no member.
    pub fn empty() -> Set<I, N>
        ensures members { IsEmpty result }
        ensures size { length result ≡ N }
    {
        Set {
            places: Places::empty(),
            members: PhantomData,
        }
    }

    /// Whether this is a member.
    pub fn contains(&self, member: I) -> bool
        ensures member { result ≡ has self.now (I.number_of member) }
        ensures from { (m : ℕ) → m < I.lowest_number → has self.now m ≡ false }
        ensures size { length self.now ≡ N }
    {
        self.places.contains(member.number())
    }

    /// The set with this member too.
    pub fn with(self, member: I) -> Set<I, N>
        requires { I.CanStand member }
        ensures members { (m : ℕ) → has result m ≡ ((m == I.number_of member) || has self m) }
        ensures size { length result ≡ N }
    {
        Set {
            places: self.places.with(member.number()),
            members: PhantomData,
        }
    }

    /// The set without this member.
    pub fn without(self, member: I) -> Set<I, N>
        ensures members { (m : ℕ) → has result m ≡ (has self m && not (m == I.number_of member)) }
        ensures size { length result ≡ N }
    {
        Set {
            places: self.places.without(member.number()),
            members: PhantomData,
        }
    }

    /// The members of either set.
    pub fn union(self, other: Set<I, N>) -> Set<I, N>
        ensures members { (m : ℕ) → has result m ≡ (has self m || has other m) }
        ensures size { length result ≡ N }
    {
        Set {
            places: self.places.union(other.places),
            members: PhantomData,
        }
    }

    /// The members that the other set does not have.
    pub fn minus(self, other: Set<I, N>) -> Set<I, N>
        ensures members { (m : ℕ) → has result m ≡ (has self m && not (has other m)) }
        ensures size { length result ≡ N }
    {
        Set {
            places: self.places.minus(other.places),
            members: PhantomData,
        }
    }

    /// Whether there is no member.
    pub fn is_empty(&self) -> bool
        ensures empty { IsTrue result ↔ IsEmpty self.now }
        ensures size { length self.now ≡ N }
    {
        self.places.is_empty()
    }

    /// The member with the lowest number.
    pub fn lowest(&self) -> Option<I>
        ensures lowest { GivesLowestOf I.number_of self.now result }
        ensures size { length self.now ≡ N }
    {
        match self.places.lowest() {
            Some(place) => Some(I::numbered(place)),
            None => None,
        }
    }
}
