//! The jobs that are run.
ghost use Rattle.job_types.specs.SoundJob.{BlocksFit, IsSoundJob};
ghost use Rattle.std.specs.Prelude.{IfOk};

use std::alloc::Global;
use std::test::Fail;
use tape_job::{Job, read_job};

/// Three channels, the third of which is started, meet five times, and an axis goes from the first to the second.
pub(crate) const THREE: &str =
    "JOB 1\nCHANNEL 1 A START\nCHANNEL 2 B START\nCHANNEL 3\nAXIS Z3 1 10\n\
%_N_A_MPF\nINIT(3,\"C\")\nSTART(3)\nFOR R1=1 TO 5\nWAITM(1,2,3)\nENDFOR\nZ3=50\nRELEASE(Z3)\nWAITM(2,2)\nWAITE(3)\nM30\n\
%_N_B_MPF\nFOR R1=1 TO 5\nWAITM(1,1,3)\nENDFOR\nWAITM(2,1)\nGET(Z3)\nZ3=IC(70)\nM30\n\
%_N_C_MPF\nFOR R1=1 TO 5\nWAITM(1,1,2)\nENDFOR\nM30\n";

/// Two channels that wait for nobody, with three steps each.
pub(crate) const TWO: &str =
    "JOB 1\nCHANNEL 1 A START\nCHANNEL 2 B START\n%_N_A_MPF\nSETM(3)\nCLEARM(3)\nM30\n\
%_N_B_MPF\nSETM(4)\nCLEARM(4)\nM30\n";

/// One channel.
pub(crate) const ONE: &str =
    "JOB 1\nCHANNEL 1 A START\nAXIS Z3 1 10\n%_N_A_MPF\nZ3=50\nSETM(3)\nM30\n";

/// The job of this text.
pub(crate) fn job_of(alloc: Global, text: &str) -> Result<Job, Fail>
    ensures sound { IfOk result IsSoundJob }
    ensures fit { IfOk result BlocksFit }
{
    let bytes = text.as_bytes();
    if bytes.len() > 8_388_609 {
        return Err(Fail::from("too long"));
    }
    match read_job(alloc, bytes) {
        Ok(job) => Ok(job),
        Err(_) => Err(Fail::from("no job")),
    }
}
