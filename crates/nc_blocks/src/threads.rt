//! The types whose values may go to another thread, and that threads may share.

use crate::{
    Block, CoordWord, FrameWord, JumpTo, Measure, NameText, Operand, Stmt, Target, VarKind, Way,
    Word,
};

/// Asks this of a type, and does nothing: each call is proved.
fn crosses_threads<T: Send + Sync>() {}

/// Asks it of each of them.
fn types_cross_threads() {
    crosses_threads::<Block>();
    crosses_threads::<CoordWord>();
    crosses_threads::<FrameWord>();
    crosses_threads::<JumpTo>();
    crosses_threads::<Measure>();
    crosses_threads::<NameText>();
    crosses_threads::<Operand>();
    crosses_threads::<Stmt>();
    crosses_threads::<Target>();
    crosses_threads::<VarKind>();
    crosses_threads::<Way>();
    crosses_threads::<Word>();
}
