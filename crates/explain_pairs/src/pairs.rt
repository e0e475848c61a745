//! Two zones, by cases.
ghost use Rattle.std.specs.Prelude.{◌≡◌};
ghost use Rattle.explain_pairs.specs.Pairs as model;

use axis_sets::{ChannelId, ZoneId};

/// When a zone is on in a run.
#[derive(Clone, Copy)]
pub enum Presence {
    /// Never: it has no box in the whole run.
    Never,
    /// Only while this channel holds it.
    HeldBy(ChannelId),
    /// Also while another channel holds it, or none.
    Changing,
}

/// What is known of a zone.
#[derive(Clone, Copy)]
pub struct ZoneFacts {
    /// Its number.
    pub zone: ZoneId,
    /// Its group.
    pub group: u8,
    /// When it is on.
    pub presence: Presence,
}

/// What is found of the boxes of two zones, where some are compared.
#[derive(Clone, Copy)]
pub struct Comparison {
    /// How many pairs of boxes are compared, or the greatest number of 64 bits where there are more.
    pub count: u64,
    /// By how many micrometres the boxes by which they are compared reach into each other at most; below 0 they are so far apart at
    /// the least.
    pub reach: i64,
}

/// Which of two zones are never on.
#[derive(Clone, Copy)]
pub enum Absent {
    /// The one with the lower number.
    First,
    /// The other.
    Second,
    /// Both.
    Both,
}

/// What is found of the boxes of two zones, or why none are compared.
#[derive(Clone, Copy)]
pub enum PairKind {
    /// The zones are of one group, and may touch.
    OneGroup,
    /// One of them is never on, or neither is ever.
    NeverOn(Absent),
    /// Boxes of them are compared.
    Compared(Comparison),
    /// All their boxes are kept apart in time by the order of this channel's own blocks: it holds each zone whenever that is on.
    OneChannel(ChannelId),
    /// All their boxes are kept apart in time by marks or other coordination.
    Coordinated,
}

/// What is told of two zones.
#[derive(Clone, Copy)]
pub struct ZonePair {
    /// The zones, that of the lower number first.
    pub zones: (ZoneId, ZoneId),
    /// What is found of their boxes, or why none are compared.
    pub kind: PairKind,
}

/// Whether a zone is never on.
fn is_never(presence: Presence) -> bool
    ensures { result ≡ model.is_never presence }
{
    match presence {
        Presence::Never => true,
        Presence::HeldBy(_) => false,
        Presence::Changing => false,
    }
}

/// Which of two zones are never on, by whether each is; none where both are on at times.
fn absent_by(one: bool, other: bool) -> Option<Absent>
    ensures { result ≡ model.absent_by one other }
{
    if one {
        return Some(if other { Absent::Both } else { Absent::First });
    }
    if other { Some(Absent::Second) } else { None }
}

/// Whether a zone is on only while this channel holds it.
fn is_held_by(channel: ChannelId, presence: Presence) -> bool
    ensures { result ≡ model.is_held_by channel presence }
{
    match presence {
        Presence::Never => false,
        Presence::HeldBy(holder) => holder == channel,
        Presence::Changing => false,
    }
}

/// What keeps all boxes of two zones apart in time that are on at times.
#[tactic(auto, unfolding(crate::specs::Pairs::apart_by))]
fn apart_by(one: Presence, other: Presence) -> PairKind
    ensures { result ≡ model.apart_by one other }
{
    match one {
        Presence::Never => PairKind::Coordinated,
        Presence::HeldBy(channel) => {
            if is_held_by(channel, other) {
                PairKind::OneChannel(channel)
            } else {
                PairKind::Coordinated
            }
        }
        Presence::Changing => PairKind::Coordinated,
    }
}

/// What is told of two zones that are on at times: what is found of their boxes, or what keeps them apart in time.
#[tactic(auto, unfolding(crate::specs::Pairs::kind_on))]
fn kind_on(one: Presence, other: Presence, found: Option<Comparison>) -> PairKind
    ensures { result ≡ model.kind_on one other found }
{
    match found {
        None => apart_by(one, other),
        Some(found) => PairKind::Compared(found),
    }
}

/// What is told of two zones with these facts, of whose boxes this is found.
#[tactic(auto, unfolding(crate::specs::Pairs::kind_of))]
fn kind_of(one: &ZoneFacts, other: &ZoneFacts, found: Option<Comparison>) -> PairKind
    ensures { result ≡ model.kind_of one.now other.now found }
{
    if one.group == other.group {
        return PairKind::OneGroup;
    }
    match absent_by(is_never(one.presence), is_never(other.presence)) {
        None => kind_on(one.presence, other.presence, found),
        Some(absent) => PairKind::NeverOn(absent),
    }
}

impl ZonePair {
    /// What is told of two zones with these facts, the one with the lower number first. `found` is what is found of their boxes, or
    /// none where none are compared. It is the first that holds: they are of one group; one of them is never on; boxes are compared;
    /// all boxes are kept apart in time.
    #[tactic(auto, unfolding(crate::specs::Pairs::pair_of))]
    pub fn of(one: &ZoneFacts, other: &ZoneFacts, found: Option<Comparison>) -> ZonePair
        ensures { result ≡ model.pair_of one.now other.now found }
    {
        ZonePair {
            zones: (one.zone, other.zone),
            kind: kind_of(one, other, found),
        }
    }
}
