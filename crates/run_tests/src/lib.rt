//! Threads: workers that make the run of a job at a board of tickets and at a board under a lock, and a board that is closed. What
//! a whole job shows stands in `rows/`, which are run by threads too.
#![tactic(auto)]

#[cfg(test)]
mod closing;
#[cfg(test)]
mod gates;
#[cfg(test)]
mod jobs;
#[cfg(test)]
mod workers;
