//! The run of a job in which each channel has a worker, in a thread of its own.
//!
//! The workers meet at a [`ticket_board::TicketBoard`]. Once all of them are joined the board has their one history: it is how
//! the run begins.
#![tactic(auto)]

mod going;
mod joining;
mod meeting;
mod parts;
mod run;
mod threads;
mod worked;
mod worker;

pub use joining::join_workers;
pub use run::run_threads;
pub use worked::Worked;
pub use worker::{JobChannel, work};
