//! Look-ups of the axes of a job.
ghost use Rattle.std.specs.Prelude.{◌≡◌, position};
ghost use Rattle.std.specs.Fmt.{decimal};
ghost use Rattle.std.specs.Str.{bytes_eq};
ghost use Rattle.job_types.specs.Axes as model;

use crate::job::{AxisLine, Job};
use axis_sets::{AXIS_LIMIT, AxisId, ChannelId};
use micro_units::Um;

/// The axis at a place among the AXIS lines, of which there are `AXIS_LIMIT` at most.
pub fn axis_at(place: usize) -> Option<AxisId>
    ensures { result ≡ model.axis_at place }
{
    if place < AXIS_LIMIT {
        Some(AxisId { index: place as u8 })
    } else {
        None
    }
}

/// Whether a text is a number in digits, without a zero in front.
fn is_decimal(digits: &[u8], number: u8) -> bool
    ensures { result ≡ bytes_eq digits.now (decimal number) }
{
    let last = b'0' + number % 10;
    if number < 10 {
        digits == [last].as_slice()
    } else if number < 100 {
        digits == [b'0' + number / 10, last].as_slice()
    } else {
        digits == [b'0' + number / 100, b'0' + number / 10 % 10, last].as_slice()
    }
}

/// Whether a text is the name of an axis.
#[tactic(auto, unfolding(crate::specs::Axes::axis_name))]
fn has_name(line: &AxisLine, name: &[u8]) -> bool
    ensures { result ≡ bytes_eq name.now (model.axis_name line.now) }
{
    let mut room = [0; 4];
    let letter = char::from(line.letter).encode_utf8(&mut room);
    match name.strip_prefix(letter.as_bytes()) {
        Some(digits) => is_decimal(digits, line.number),
        None => false,
    }
}

/// The place of the axis with a name.
fn place_of(lines: &[AxisLine], name: &[u8]) -> Option<usize>
    ensures { result ≡ position (λ line. bytes_eq name.now (model.axis_name line)) lines.now }
{
    lines.iter().position(|line| has_name(line, name))
}

/// The axis with a name.
#[tactic(auto, unfolding(crate::specs::Axes::axis_named))]
pub fn axis_named(lines: &[AxisLine], name: &[u8]) -> Option<AxisId>
    ensures { result ≡ model.axis_named lines.now name.now }
{
    match place_of(lines, name) {
        Some(place) => axis_at(place),
        None => None,
    }
}

/// Where the job puts an axis.
#[tactic(auto, unfolding(crate::specs::Axes::start_position))]
pub fn start_position(job: &Job, index: usize) -> Um
    ensures { result ≡ model.start_position job.now index }
{
    match job.axes.get(index) {
        Some(line) => line.at,
        None => Um { micrometres: 0 },
    }
}

/// The channel that owns an axis at the start, or none.
#[tactic(auto, unfolding(crate::specs::Axes::first_owner))]
pub fn first_owner(job: &Job, axis: AxisId) -> Option<ChannelId>
    ensures { result ≡ model.first_owner job.now axis }
{
    match job.axes.get(usize::from(axis.index)) {
        Some(line) => line.owner,
        None => None,
    }
}
