//! A judged job.
ghost use Rattle.std.specs.Prelude.{◌≡◌};

use explain_lines::Lines;
use explain_places::{Meeting, Told};
use job_types::Job;
use order_clocks::Clocks;
use protection_zones::Stretches;
use sync_types::{Run, StartState, Verdict};

/// A judged job, with all that an explanation is made of.
#[derive(Clone, Copy)]
pub(crate) struct Judged<'a> {
    /// The lines of the input that the job was read from.
    pub(crate) lines: &'a Lines<'a>,
    /// The job.
    pub(crate) job: &'a Job,
    /// Its start.
    pub(crate) start: &'a StartState,
    /// Its run in order.
    pub(crate) run: &'a Run,
    /// The time of its zones.
    pub(crate) stretches: &'a Stretches,
    /// The order of the events of the run.
    pub(crate) clocks: &'a Clocks,
    /// The verdict on the run.
    pub(crate) verdict: &'a Verdict,
    /// All boxes that meet, where the verdict is NO; else none.
    pub(crate) met: &'a [Meeting],
}

impl<'a> Judged<'a> {
    /// The job with its run alone.
    pub(crate) fn told(&self) -> Told<'a>
        ensures lines { result.lines.now ≡ self.now.lines.now }
        ensures job { result.job.now ≡ self.now.job.now }
        ensures run { result.run.now ≡ self.now.run.now }
    {
        Told {
            lines: self.lines,
            job: self.job,
            run: self.run,
        }
    }
}
