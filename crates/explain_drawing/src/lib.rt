//! A run of a job drawn: the verdict, the boxes of its zones and the ways of its channels in space, and below them the time of the
//! channels.
#![tactic(auto)]

mod drawing;
mod events;
mod space;
mod styles;
mod times;
mod titles;
mod words;

pub use drawing::draw;
