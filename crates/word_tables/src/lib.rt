//! Words of a part program by their tables: words of groups, refused words, and numbers out of range.
#![tactic(auto)]

mod group_words;
mod large_numbers;
mod refused_words;

pub use group_words::{group_word_by_name, group_word_by_number};
pub use large_numbers::has_large_number;
pub use refused_words::refused_word;
