//! The variables of a program: their names, and what they hold.
#![tactic(auto)]

mod limits;
mod table;
mod threads;

pub use limits::VARIABLE_LIMIT;
pub use nc_blocks::VarKind;
pub use table::VarTable;
