//! Lines that are refused: what each would do, which common slip it has and at which place; one refusal and all of them in plain
//! text.
#![tactic(auto)]

mod effects;
mod kinds;
mod line_words;
mod listing;
mod names;
mod places;
mod refusal_text;
mod rows;
mod slip_words;
mod slips;
mod word_places;

pub use effects::{Effect, quiet_place};
pub use listing::{explain_refusals, lines_text};
pub use rows::{RefusedLine, refused_line, refused_lines};
pub use slip_words::slip_advice;
pub use slips::Slip;
