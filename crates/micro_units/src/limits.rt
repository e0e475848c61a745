//! How large numbers, positions and lengths may be.
ghost use Rattle.std.specs.Prelude.{◌≡◌};
ghost use Rattle.micro_units.specs.Position.{is_position};

/// The size, in millionths, that a number stays below.
pub const NUMBER_LIMIT: u64 = 100_000_000_000_000;

/// The greatest size of a position, in micrometres.
pub const POSITION_LIMIT: u32 = 10_000_000;

/// The greatest size of a change from one position to another, in micrometres.
pub const CHANGE_LIMIT: u32 = 2 * POSITION_LIMIT;

/// The greatest size of a bound of a box, in micrometres: so far at the most do the boxes of arcs reach.
pub const BOUND_LIMIT: u32 = 5 * POSITION_LIMIT;

/// Whether so many micrometres are a position: they are at most `POSITION_LIMIT` in size.
pub fn is_position(micrometres: i32) -> bool
    ensures { result ≡ is_position micrometres }
{
    micrometres.unsigned_abs() <= POSITION_LIMIT
}
