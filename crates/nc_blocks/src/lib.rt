//! What the forms of blocks have in common: the blocks, what stands at each place of a scanned line,
//! and the readers of signs, names, numbers, expressions and words.
#![tactic(auto)]

mod axis_names;
mod blocks;
mod limits;
mod marks;
mod pieces;
mod reading;
mod texts;
mod threads;
mod wording;

pub use axis_names::{has_axis_name, has_axis_word, slot_named};
pub use blocks::{
    Block, CoordWord, FrameWord, JumpTo, Measure, Operand, Stmt, Target, VarKind, Way, Word,
};
pub use limits::PASS_LIMIT;
pub use marks::{
    assign_at, close_at, code_at, comma_at, end_at, is_keyword, is_word, keyword_at, open_at,
};
pub use nc_expressions::{NAME_LIMIT, NameText};
pub use pieces::{Piece, piece_at, text_at};
pub use reading::{block_number_at, constant_at, expression_at, index_at, label_at};
pub use texts::{address, same_text, unquoted};
pub use wording::words_form;
