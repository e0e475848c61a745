//! Refusals of an input and alarms of a channel, by their codes. `nc_faults` has the text of each code.
#![tactic(auto)]

pub mod alarms;
mod threads;

/// A refused input: the code of the rule that it breaks, and the line of the input, counted from 1.
#[derive(Clone, Copy, Debug, PartialEq, Eq)]
pub struct Refusal {
    /// The code of the broken rule.
    pub code: u16,
    /// The line of the input, counted from 1.
    pub line: u32,
}

/// An alarm of a channel: its code and the line of its block.
#[derive(Clone, Copy, PartialEq, Eq)]
pub struct Alarm {
    /// The code of the alarm.
    pub code: u16,
    /// The line of the block, counted from 1.
    pub line: u32,
}
