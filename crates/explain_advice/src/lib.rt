//! What refusals and alarms are called, when they come and what to do, by their codes.
#![tactic(auto)]

mod advice;
mod tables;

pub use advice::{
    alarm_advice, alarm_cause, alarm_name, refusal_advice, refusal_cause, refusal_name,
};
