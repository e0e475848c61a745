//! A board that the workers of a run share without a lock, each by a pass for its channel.
//!
//! [`TicketBoard`] keeps it in the slot of a table. A caller draws a ticket, waits until that is served, takes the board
//! out, makes its turn, counts what it did, puts the board back and serves the next ticket. A pass tells how the history
//! of the board begins, which entries of it are its own, and whether the board was closed with it; [`TicketBoard::finish`]
//! gives the board of the one history with which all passes end.
//!
//! Not proved: that a ticket is ever served, how long anybody waits, and that nobody waits longer than others.
#![tactic(auto)]

mod board;
mod ends;
mod held;
mod pass;
mod plays;
mod rule;
mod steps;
mod threads;
mod turn;

pub use board::TicketBoard;
pub use pass::TicketPass;
