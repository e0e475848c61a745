//! Why channels stop: alarms, waits for good and races, who could give what is waited for, and what to do; in plain text and as
//! rows.
#![tactic(auto)]

mod alarm_text;
mod ends;
mod holds;
mod lacks;
mod mark_blocks;
mod mark_tables;
mod numbers;
mod passes;
mod race_text;
mod races;
mod remedies;
mod rows;
mod stuck_text;
mod waits;

pub use alarm_text::say_alarm;
pub use ends::end_of;
pub use lacks::Lack;
pub use passes::MarkRow;
pub use race_text::say_race;
pub use races::{race_prize, race_remedy};
pub use remedies::Remedy;
pub use rows::{WaitRow, mark_rows, wait_rows};
pub use stuck_text::say_stuck;
