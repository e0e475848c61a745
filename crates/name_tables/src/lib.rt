//! The tables of names of a part program: the names of forms, of words, of expressions and of groups, and
//! those that are refused. What a name is follows from its letters alone, in upper or lower case.
#![tactic(auto)]

mod first_names;
mod refused_names;
mod spelling;

pub use first_names::{is_first_name, is_table_word};
pub use refused_names::refused_name;
pub use spelling::is_word;
