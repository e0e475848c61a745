//! What a picture of a run shows, and its views of space: boxes of zones, ways of channels, axes and lines at whole millimetres,
//! as elements of SVG. All numbers are whole micrometres.
#![tactic(auto)]

mod extents;
mod marks;
mod shapes;
mod shown;
mod ticks;
mod turns;
mod views;

pub use extents::{Extent, along, extent_of, has_motion};
pub use marks::{put_attribute, put_box, put_ends, put_number, put_place, put_round, put_size};
pub use shapes::{Deed, Look, Moment, Picture, Span, Tile, Track, Turn};
pub use shown::put_shown;
pub use views::View;
