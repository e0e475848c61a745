//! What the channels of a run do in each step.
ghost use Rattle.std.specs.Prelude.{◌≡◌, ◌++◌, IfOk, map, take};
ghost use Rattle.explain_pictures.specs.Moments as model;

use crate::kept::keep;
use axis_sets::{CHANNEL_PLACES, ChannelId};
use explain_views::{Deed, Moment};
use job_types::Job;
use out_of_memory::NoMemory;
use std::alloc::Global;
use sync_types::{Action, Entry, Go};

/// What a channel does with a step.
pub(crate) fn deed_of(action: &Action) -> Deed
    ensures { result ≡ model.deed_of action.now }
{
    match action {
        Action::WaitM(_, _) | Action::WaitE(_) | Action::Get(_) => Deed::Waits,
        Action::End | Action::Alarm(_) => Deed::Ends,
        Action::SetM(_)
        | Action::ClearM(_)
        | Action::Init(_, _)
        | Action::Start(_)
        | Action::Release(_) => Deed::Acts,
    }
}

/// The block that makes a step.
fn moment_of(step: u32, entry: &Entry) -> Moment
    ensures { result ≡ model.moment_of step entry.now }
{
    Moment {
        step,
        channel: entry.channel.number,
        actor: entry.channel.number,
        line: entry.step.line,
        deed: deed_of(&entry.step.action),
    }
}

/// One that goes on in a step.
fn going_of(step: u32, actor: u8, go: &Go) -> Moment
    ensures { result ≡ model.going_of step actor go.now }
{
    Moment {
        step,
        channel: go.channel.number,
        actor,
        line: 0,
        deed: Deed::GoesOn,
    }
}

/// Adds those that go on in a step.
fn add_goings(
    moments: &mut Vec<Moment>,
    limit: usize,
    step: u32,
    actor: u8,
    goes: &[Go],
) -> Result<(), NoMemory>
    ensures { IfOk result (λ _. take limit moments.new.items
        ≡ take limit (moments.old.items ++ map (model.going_of step actor) goes.now)) }
{
    for go in goes {
        keep(moments, limit, going_of(step, actor, go))?;
    }
    Ok(())
}

/// Adds a step.
fn add_entry(
    moments: &mut Vec<Moment>,
    limit: usize,
    step: u32,
    entry: &Entry,
) -> Result<(), NoMemory>
    ensures { IfOk result (λ _. take limit moments.new.items
        ≡ take limit (moments.old.items ++ model.moments_of step entry.now)) }
{
    let acts = moment_of(step, entry);
    keep(moments, limit, acts)?;
    add_goings(moments, limit, step, acts.actor, entry.goes.as_slice())?;
    Ok(())
}

/// Adds the steps of a run, while there is room.
pub(crate) fn add_entries(
    moments: &mut Vec<Moment>,
    limit: usize,
    entries: &[Entry],
) -> Result<(), NoMemory>
    ensures { IfOk result (λ _. take limit moments.new.items
        ≡ take limit (moments.old.items ++ model.moments_from 0 entries.now)) }
{
    let mut step: u32 = 0;
    for entry in entries {
        add_entry(moments, limit, step, entry)?;
        step = step.saturating_add(1);
    }
    Ok(())
}

/// The numbers of the channels of a job, ascending.
#[tactic(auto, unfolding(crate::specs::Moments::channels_of))]
pub(crate) fn channels_of(alloc: Global, job: &Job) -> Result<Vec<u8>, NoMemory>
    ensures { IfOk result (λ channels. channels.items ≡ model.channels_of job.now) }
{
    let mut channels = Vec::new(alloc);
    for index in 0..CHANNEL_PLACES as u8 - 1 {
        let channel = ChannelId { number: index + 1 };
        if job.has_channel(channel) {
            channels.push(index + 1)?;
        }
    }
    Ok(channels)
}
