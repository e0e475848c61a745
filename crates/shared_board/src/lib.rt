//! A board that the workers of a run share, each by a pass for its channel.
//!
//! [`SharedBoard`] keeps it under a lock. A call is to make one turn at the board, or more where it waits: [`act_turn`],
//! [`look_turn`] and [`close_turn`] say what a turn does. What the board under the lock was at a call no contract can
//! name, so a pass of it tells nothing, and that a call makes such a turn rests on tests. [`MemoryDesk`] has one caller, and
//! its pass tells all.
#![tactic(auto)]

mod held;
mod memory;
mod shared;
mod threads;

pub use coord_core::{Locked, act_turn, close_turn, look_turn};
pub use memory::{MemoryDesk, MemoryPass};
pub use shared::{Pass, SharedBoard};
