//! The board on which the channels of a run meet: each step, who goes on in it, and with what.
#![tactic(auto)]

mod activities;
mod alarms;
mod board;
mod desk;
mod effects;
mod ends;
mod goings;
mod laws;
mod locked;
mod outcome;
mod sets;
mod start;
mod state;
mod table;
mod threads;
mod turns;
mod zones;

pub use board::Board;
pub use desk::Desk;
pub use ends::{end_by, ends_of};
use fault_codes::Alarm;
pub use laws::{a_look_tells_what_is, others_let_a_channel_run};
pub use locked::Locked;
pub use outcome::Outcome;
pub use turns::{act_turn, close_turn, look_turn};

/// What a channel does.
#[derive(Clone, Copy, PartialEq, Eq)]
pub enum ChannelState {
    /// It has not started.
    Idle,
    /// It runs its program.
    Running,
    /// It waits at this line for other channels or for axes.
    Holding(u32),
    /// Its program has ended at this line.
    Ended(u32),
    /// This alarm has stopped it.
    Alarmed(Alarm),
}
