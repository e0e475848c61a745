//! What is told of a verdict in plain text that takes no judgement to tell: the verdict in one line, two boxes that meet and by what
//! they would be apart, and how near two groups come to each other.
#![tactic(auto)]

mod box_texts;
mod headlines;
mod room_texts;

pub use box_texts::{
    say_boxes, say_depth, say_head, say_holders, say_margin, say_shift, say_stays, say_times,
};
pub use headlines::{say_headline, say_yes_line};
pub use room_texts::{apart_of, margin_left, say_room, say_two_groups};
