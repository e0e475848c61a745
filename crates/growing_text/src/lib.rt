//! Texts that are written piece by piece.
#![tactic(auto)]

mod said;
mod text;

pub use text::Text;
