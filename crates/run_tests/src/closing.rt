//! A board that is closed while another waits.
ghost use Rattle.std.specs.Prelude.{All};
ghost use Rattle.job_types.specs.SoundJob.{IsSoundJob};
ghost use Rattle.ticket_board.specs.Passes.{IsPassOf};

use crate::jobs::{THREE, job_of};
use channel_machine::start_state;
use coord_core::{Desk, Outcome};
use job_types::Job;
use shared_board::{Pass, SharedBoard};
use std::alloc::{AllocError, Global};
use std::sync::Wait;
use std::test::Fail;
use std::thread;
use std::thread::Threads;
use ticket_board::{TicketBoard, TicketPass};

/// The channel 1 closes the board, and each waits until it is told anything.
fn close_or_wait<R: Wait, D: Desk>(rt: &R, desk: &D, channel: u8, pass: &mut D::Pass) -> Outcome
    requires { D.fits desk.now pass.old }
{
    if channel == 1 {
        desk.close(rt, pass);
    }
    desk.wait_start(rt, pass)
}

/// What channels are told at a board of tickets, each in a thread of its own.
fn wait_all<R: Threads + Wait + Sync>(
    rt: &R,
    desk: &TicketBoard,
    passes: Vec<TicketPass>,
) -> Result<Vec<Outcome>, AllocError>
    requires { All (IsPassOf desk.now) passes.items }
{
    thread::map_vec(
        rt,
        passes,
        &|pass: TicketPass| -> Outcome
            requires { IsPassOf desk.now pass }
        {
            let mut pass = pass;
            let number = pass.channel().number;
            close_or_wait(rt, desk, number, &mut pass)
        },
    )
}

/// What the channels of a job are told at a board of tickets that the first of them closes.
fn told_by_tickets<R: Threads + Wait + Sync>(
    rt: &R,
    alloc: Global,
    job: &Job,
) -> Result<Vec<Outcome>, Fail>
    requires { IsSoundJob job.now }
{
    let start = start_state(job);
    let Ok((desk, passes)) = TicketBoard::new(alloc, &start) else {
        return Err(Fail::from("no memory"));
    };
    Ok(wait_all(rt, &desk, passes)?)
}

/// The same at a board under a lock.
fn told_at_a_lock<R: Threads + Wait + Sync>(
    rt: &R,
    alloc: Global,
    job: &Job,
) -> Result<Vec<Outcome>, Fail>
    requires { IsSoundJob job.now }
{
    let start = start_state(job);
    let Ok((desk, passes)) = SharedBoard::new(alloc, &start) else {
        return Err(Fail::from("no memory"));
    };
    let told = thread::map_vec(
        rt,
        passes,
        &|pass: Pass| {
            let mut pass = pass;
            close_or_wait(rt, &desk, pass.channel.number, &mut pass)
        },
    )?;
    Ok(told)
}

/// The channel 3, which nobody starts, is told of the closing, be it asleep at a lock or turned away from tickets.
#[test]
fn who_waits_is_told_of_the_closing(rt: HostRuntime) -> Result<(), Fail> {
    let job = job_of(rt.alloc(), THREE)?;
    let told = told_at_a_lock(&rt, rt.alloc(), &job)?;
    assert!(rt; told.len() == 3 && told.last() == Some(&Outcome::Closed));
    let told = told_by_tickets(&rt, rt.alloc(), &job)?;
    assert!(rt; told.len() == 3 && told.last() == Some(&Outcome::Closed));
    Ok(())
}
