//! What the waits of channels are for, and what their ends bring.
ghost use Rattle.axis_sets.specs.Positions.{position_of};
ghost use Rattle.axis_sets.specs.Sets.{has};
ghost use Rattle.axis_sets.specs.declared.limits.TheConstants.{CHANNEL_PLACES};
ghost use Rattle.std.specs.Prelude.{◌≡◌, ℕ, ◌&&◌, ◌≤◌, ◌<◌, ◌↔◌, IsTrue, false, not, is_some, length, None, slice_index_or};
ghost use Rattle.step_deeds.specs.Holds.{HoldAtLineOfMark, are_partners, asks_begun, asks_of_hold, is_at_axes, is_given, line_of_held, lowers_at, marks_begun, marks_in, marks_of_hold, named_marks};

use crate::deed::{Hold, WaitAt, Wakeup};
use crate::named::NamedMarks;
use axis_sets::{AXIS_LIMIT, AxisId, AxisSet, CHANNEL_PLACES, ChannelId, MarkSet, Positions};

/// The marks for which a hold waits.
pub fn marks_of_hold(hold: &Hold) -> Option<NamedMarks>
    ensures { result ≡ marks_of_hold hold.now }
{
    match hold {
        Hold::Marks(m, named) => Some(NamedMarks {
            number: *m,
            named: *named,
        }),
        Hold::Ends(_) => None,
        Hold::Axes(_) => None,
    }
}

/// The axes for which a hold waits.
pub fn axes_of_hold(hold: &Hold) -> AxisSet
    ensures { (x : ℕ) → has result x ≡ asks_of_hold hold.now x }
{
    match hold {
        Hold::Marks(_, _) => AxisSet::empty(),
        Hold::Ends(_) => AxisSet::empty(),
        Hold::Axes(axes) => *axes,
    }
}

/// The marks for which a hold waits that begins.
pub fn marks_begun(begins: &Option<Hold>) -> Option<NamedMarks>
    ensures { result ≡ marks_begun begins.now }
{
    match begins {
        None => None,
        Some(hold) => marks_of_hold(hold),
    }
}

/// The axes for which a hold waits that begins.
pub fn axes_begun(begins: &Option<Hold>) -> AxisSet
    ensures { (x : ℕ) → has result x ≡ asks_begun begins.now x }
{
    match begins {
        None => AxisSet::empty(),
        Some(hold) => axes_of_hold(hold),
    }
}

/// The line of a hold; 0 at a start.
pub fn line_of(held: &Option<WaitAt>) -> u32
    ensures { result ≡ line_of_held held.now }
{
    match held {
        None => 0,
        Some(held) => held.line,
    }
}

/// The marks that the end of a hold lowers.
pub fn marks_lowered(held: &Option<WaitAt>) -> MarkSet
    requires { HoldAtLineOfMark held.now }
    ensures { (m : ℕ) → has result m ≡ lowers_at held.now m }
{
    match held {
        None => MarkSet::empty(),
        Some(held) => match &held.hold {
            Hold::Marks(m, _) => MarkSet::empty().with(*m),
            Hold::Ends(_) => MarkSet::empty(),
            Hold::Axes(_) => MarkSet::empty(),
        },
    }
}

/// The marks that the end of a hold needed.
pub fn marks_needed(held: &Option<WaitAt>) -> Option<NamedMarks>
    ensures { result ≡ marks_in held.now }
{
    match held {
        None => None,
        Some(held) => marks_of_hold(&held.hold),
    }
}

/// The marks for which one that goes on waited.
pub fn marks_of(gone: &Option<Wakeup>) -> Option<NamedMarks>
    ensures { result ≡ named_marks gone.now }
{
    match gone {
        None => None,
        Some(gone) => marks_needed(&gone.held),
    }
}

/// Whether two channels go on and name each other at one mark number.
pub fn are_partners_at(goes: &[Option<Wakeup>; CHANNEL_PLACES], a: u8, b: u8) -> bool
    requires first { 1 ≤ a }
    requires second { 1 ≤ b }
    requires first_below { a < CHANNEL_PLACES }
    requires second_below { b < CHANNEL_PLACES }
    ensures { result ≡ are_partners goes.now a b }
{
    match marks_of(&goes[usize::from(a)]) {
        None => false,
        Some(one) => match marks_of(&goes[usize::from(b)]) {
            None => false,
            Some(two) => {
                one.number == two.number
                    && one.named.contains(ChannelId { number: b })
                    && two.named.contains(ChannelId { number: a })
            }
        },
    }
}

/// The axes that have a position.
pub fn axes_with_position(at: &Positions) -> AxisSet
    ensures { (x : ℕ) → has result x ≡ is_some (position_of at.now x) }
{
    let mut axes = AxisSet::empty();
    for index in 0..AXIS_LIMIT as u8 {
        let axis = AxisId { index };
        if at.get(axis).is_some() {
            axes = axes.with(axis);
        }
    }
    axes
}

/// The axes that a channel took which waited so.
pub fn took_of(held: &Option<WaitAt>, at: &Positions) -> AxisSet
    ensures { (x : ℕ) → has result x ≡ (is_at_axes held.now && is_some (position_of at.now x)) }
{
    match held {
        None => AxisSet::empty(),
        Some(held) => match &held.hold {
            Hold::Marks(_, _) => AxisSet::empty(),
            Hold::Ends(_) => AxisSet::empty(),
            Hold::Axes(_) => axes_with_position(at),
        },
    }
}

/// The marks without that for which a channel waited.
pub fn marks_left(marks: MarkSet, held: &Option<WaitAt>) -> MarkSet
    ensures { (m : ℕ) → has result m ≡ (has marks m && not (lowers_at held.now m)) }
{
    match held {
        None => marks,
        Some(held) => match &held.hold {
            Hold::Marks(mark, _) => marks.without(*mark),
            Hold::Ends(_) => marks,
            Hold::Axes(_) => marks,
        },
    }
}

/// Whether nobody goes.
pub fn is_nobody(gone: &[Option<Wakeup>; CHANNEL_PLACES]) -> bool
    ensures { IsTrue result ↔ ((c : ℕ) → is_given (slice_index_or gone.now c None) ≡ false) }
{
    for c in 0..CHANNEL_PLACES {
        if gone[c].is_some() {
            return false;
        }
    }
    true
}

/// Lets nobody go. A place where nobody does is not written.
pub fn clear_goes(gone: &mut [Option<Wakeup>; CHANNEL_PLACES])
    ensures none { (c : ℕ) → slice_index_or gone.new c None ≡ None }
    ensures size { length gone.new ≡ CHANNEL_PLACES }
{
    for c in 0..CHANNEL_PLACES {
        if gone[c].is_some() {
            gone[c] = None;
        }
    }
}

/// By channel: whether it goes.
pub fn goers(gone: &[Option<Wakeup>; CHANNEL_PLACES]) -> [bool; CHANNEL_PLACES]
    ensures members { (c : ℕ) → has result c ≡ is_given (slice_index_or gone.now c None) }
    ensures size { length result ≡ CHANNEL_PLACES }
{
    let mut goes = [false; CHANNEL_PLACES];
    for c in 0..CHANNEL_PLACES {
        goes[c] = gone[c].is_some();
    }
    goes
}
