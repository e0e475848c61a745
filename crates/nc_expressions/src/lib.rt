//! Expressions of part programs: their trees, read from the words of a line, and their values; and names,
//! as blocks keep them.
#![tactic(auto)]

mod faults;
mod laws;
mod levels;
mod limits;
mod name_texts;
mod parsing;
mod stack;
mod steps;
mod stops;
mod symbols;
mod threads;
mod trees;
mod values;

pub use faults::SyntaxFault;
pub use laws::one_tree_at_most;
pub use limits::{LAST_PARAMETER, NAME_LIMIT, PARAMETER_LIMIT, PARENTHESIS_LIMIT};
pub use name_texts::NameText;
pub use parsing::{parse_constant, parse_expr};
pub use stops::expr_stop;
pub use symbols::{Symbol, index_of, is_digits, symbol_at};
pub use trees::{BinaryOp, Expr, UnaryOp};
pub use values::{Names, eval};
