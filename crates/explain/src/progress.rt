//! What is said of work that takes long.
use std::time::{Clock, Duration, Instant};

/// From how many milliseconds on a part of the work is told of.
const PATIENCE: u64 = 1_000;

/// The same of the last part, which may take ten times as long as all before it.
const LAST_PATIENCE: u64 = 100;

/// A part of the work.
#[derive(Clone, Copy, PartialEq, Eq)]
pub(crate) enum Stage {
    /// The input is read.
    Reading,
    /// The job is run.
    Running,
    /// The events of the run are put in order.
    Ordering,
    /// The time of the zones is found.
    Timing,
    /// Boxes are compared.
    Judging,
    /// What is told is gathered.
    Listing,
}

/// Who is told which part of the work begins.
pub(crate) trait Watch {
    /// A part of the work begins.
    fn begins(&mut self, stage: Stage);
}

/// What a part of the work is called.
fn stage_name(stage: Stage) -> &'static str {
    match stage {
        Stage::Reading => "reads the job",
        Stage::Running => "runs the programs",
        Stage::Ordering => "puts events in order",
        Stage::Timing => "finds the time of the zones",
        Stage::Judging => "compares boxes",
        Stage::Listing => "gathers what it tells",
    }
}

/// How long the work has taken as a part of it begins that is told of.
fn patience(stage: Stage) -> Duration {
    Duration::from_millis(match stage {
        Stage::Listing => LAST_PATIENCE,
        Stage::Reading | Stage::Running | Stage::Ordering | Stage::Timing | Stage::Judging => {
            PATIENCE
        }
    })
}

/// Says on standard error which part of the work begins, where the work takes long.
#[derive(Drop)]
pub(crate) struct Progress<'a, R: Eprint + Clock> {
    rt: &'a R,
    start: Option<Instant>,
}

impl<'a, R: Eprint + Clock> Progress<'a, R> {
    /// The work begins. Nothing is said of it where that is not wanted.
    pub(crate) fn start(rt: &'a R, is_wanted: bool) -> Progress<'a, R> {
        let start = if is_wanted {
            Instant::now(rt).ok()
        } else {
            None
        };
        Progress { rt, start }
    }

    /// Whether the work has taken so long, as far as that is wanted to be known.
    fn is_late(&self, patience: Duration) -> bool {
        match &self.start {
            None => false,
            Some(start) => match start.elapsed(self.rt) {
                Ok(taken) => taken >= patience,
                Err(_) => false,
            },
        }
    }
}

impl<R: Eprint + Clock> Watch for Progress<'_, R> {
    fn begins(&mut self, stage: Stage) {
        if self.is_late(patience(stage)) {
            let _ = eprintln!(self.rt; "explain: {} ..", stage_name(stage));
        }
    }
}
