//! Laws of what an input is.
ghost use Rattle.std.specs.Prelude.{◌≡◌, ℕ, List, Ok};
ghost use Rattle.tape_job.specs.FirstRefusal.{IsReadAs};
ghost use Rattle.job_types.specs.Job.{JobView};
ghost use Rattle.tape_job.specs.Lines.{numbered_lines};
ghost use Rattle.tape_job.specs.Read.{read_of};
ghost use Rattle.job_types.specs.SoundJob.{IsSoundJob};

/// Every accepted job is sound.
pub fn accepted_jobs_are_sound()
    ensures { (input : List ℕ) (job : JobView) → read_of input ≡ Ok job → IsSoundJob job }
{}

/// An input is refused at the first line that is refused after what the lines before it told, or else at its end, and is accepted where neither is refused.
pub fn refusals_are_first()
    ensures { (input : List ℕ) → IsReadAs (numbered_lines input) (read_of input) }
{}
