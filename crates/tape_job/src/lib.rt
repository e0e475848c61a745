//! The job list and the programs after it, read from the bytes of the input.
#![tactic(auto)]

mod adding;
mod draft;
mod fault;
mod job_reader;
mod laws;
mod library;
mod lines;
mod numbered_reader;
mod piece_reader;
mod programs;
mod read;
mod reader;
mod reading;
mod refusals;
mod rules;
mod tool_lines;

pub use fault::JobFault;
pub use job_reader::JobReader;
pub use job_types::{AxisLine, ChannelLine, GeoLine, Job, OffsetLine, Program, Side, ZoneLine};
pub use laws::{accepted_jobs_are_sound, refusals_are_first};
pub use lines::{first_length, text_in};
pub use read::read_job;
pub use refusals::{line_codes, line_refusals};
