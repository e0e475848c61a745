//! The verdict on a job, by the calls that check an input.
ghost use Rattle.std.specs.Prelude.{IfSome};
ghost use Rattle.job_types.specs.SoundJob.{BlocksFit, IsSoundJob};

use clash_check::judge;
use order_clocks::clocks_of;
use out_of_memory::NoMemory;
use product_run::run_in_order;
use protection_zones::stretches_of;
use std::alloc::Global;
use sync_types::Verdict;
use tape_job::{Job, read_job};

// The job of a text, or none where it is refused or memory runs out.
pub(crate) fn job_of(alloc: Global, text: &str) -> Option<Job>
    ensures sound { IfSome result IsSoundJob }
    ensures fit { IfSome result BlocksFit }
{
    let bytes = text.as_bytes();
    if 1000 < bytes.len() {
        return None;
    }
    match read_job(alloc, bytes) {
        Ok(job) => Some(job),
        Err(_) => None,
    }
}

// The verdict on the run of a job in order.
fn verdict_on(alloc: Global, job: &Job) -> Result<Verdict, NoMemory>
    requires accepted { IsSoundJob job.now }
    requires indices { BlocksFit job.now }
{
    let run = run_in_order(alloc, job)?;
    let clocks = clocks_of(alloc, &run)?;
    let stretches = stretches_of(alloc, job, &run, &clocks)?;
    judge(alloc, job, &run, &stretches, &clocks)
}

// Its word.
pub(crate) fn verdict_word(alloc: Global, job: &Job) -> &'static str
    requires accepted { IsSoundJob job.now }
    requires indices { BlocksFit job.now }
{
    match verdict_on(alloc, job) {
        Ok(Verdict::Yes) => "YES",
        Ok(Verdict::No(_, _)) => "NO",
        Ok(_) => "another verdict",
        Err(_) => "no memory",
    }
}
