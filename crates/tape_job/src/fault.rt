//! Why an input gives no job.
use fault_codes::Refusal;
use out_of_memory::NoMemory;
use thiserror::Error;

/// Why an input gives no job.
#[derive(Clone, Copy, Debug, PartialEq, Eq, Error)]
pub enum JobFault {
    /// The input breaks a rule of the job's language.
    #[error("refused")]
    Refused(Refusal),
    /// Memory ran out.
    #[error("out of memory")]
    NoMemory,
}

impl From<NoMemory> for JobFault {
    ghost use Rattle.std.specs.Prelude.{◌≡◌};
    ghost use Rattle.tape_job.specs.declared.fault.JobFault.TheVariants as faults;

    ghost from_gives = { λ _ fault. fault ≡ faults.NoMemory };

    fn from(_: NoMemory) -> JobFault {
        JobFault::NoMemory
    }
}
