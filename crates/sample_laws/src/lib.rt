//! A law of the large jobs for trials: each is a job. No code runs here.
#![tactic(auto)]

ghost use Rattle.std.specs.Prelude.{ℕ, IsOk};
ghost use Rattle.sample_jobs.specs.Samples.{sample_bytes};
ghost use Rattle.tape_job.specs.Read.{read_of};

/// A law: the sample of each number is an accepted job: none of its lines is refused, nor its end.
pub fn samples_are_jobs()
    ensures { (number : ℕ) → IsOk (read_of (sample_bytes number)) }
{}
