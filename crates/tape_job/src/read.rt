//! An input, read whole.
ghost use Rattle.std.specs.Prelude.{◌≤◌, length, IfOk, IfErr};
ghost use Rattle.tape_job.specs.Read.{read_of, GivesRead, IsListed};
ghost use Rattle.job_types.specs.SoundJob.{BlocksFit};

use crate::{JobFault, JobReader};
use job_types::Job;
use std::alloc::Global;

/// Reads an input: its job, or the first refusal of a line that is tried and broken.
///
/// Refusal 1: the first line with a token is not `JOB 1`, or none has one. 2: a line is longer than 512 bytes. 3: a byte that may not stand there. 4 to 8: a job line is unknown, out of range, a second declaration, of something that is not declared, or a zone with a carrier of another owner. 9 and 10: a header with the name of an earlier program, and a line with `%` that is no header. 11: a seventeenth axis or a 257th program. 12: a channel's program is not there. 20 to 24, 27 and 40 to 59: a block is not readable or has what is not supported.
///
/// Refusal 25: a block ends or goes on with a structure that is not the innermost open one of its program, at its line; or a program ends, by a line that begins with `%` or by the end of the input, inside a structure, at the line of the one opened last. Refusal 26: a block opens a seventeenth structure.
///
/// The parameter numbers that blocks name are at most 999, and a refusal's code is one of those with a text.
pub fn read_job(alloc: Global, bytes: &[u8]) -> Result<Job, JobFault>
    requires { length bytes.now ≤ 8388609 }
    ensures exact { GivesRead result (read_of bytes.now) }
    ensures indices { IfOk result BlocksFit }
    ensures listed { IfErr result IsListed }
{
    let mut reader = JobReader::new(alloc)?;
    reader.feed(bytes)?;
    reader.finish()
}
