//! What a worker has made of its grants.
ghost use Rattle.std.specs.Prelude.{◌≡◌, ◌≤◌, [], length, IfOk, OnOk};
ghost use Rattle.job_lines.specs.declared.limits.TheConstants.{PROGRAM_LIMIT};
ghost use Rattle.job_types.specs.Job.{JobView};
ghost use Rattle.job_types.specs.SoundJob.{BlocksFit};
ghost use Rattle.parallel_run.specs.Workers.{CanGoOn, HasNoted, IsWorked};

use axis_sets::ChannelId;
use channel_machine::{Local, Segment, next_segment};
use job_types::Job;
use out_of_memory::NoMemory;
use std::alloc::Global;
use std::collections::VecDeque;
use std::marker::Model;
use sync_types::{Grant, Item, Step};

/// What the worker of a channel has made. A contract sees plain lists.
#[derive(Drop)]
pub struct Worked {
    /// The channel.
    pub channel: ChannelId,
    /// What it did before each of its steps.
    pub items: VecDeque<Vec<Item>>,
    /// What is kept of the channel after the last segment.
    pub last: Option<Local>,
}

impl Model for Worked {
    ghost use Rattle.std.specs.Prelude.{map};
    ghost use Rattle.parallel_run.specs.Workers.{WorkedView};

    ghost Value = { WorkedView };

    ghost view = { λ w. record {
      channel = w.channel;
      items = map (λ items. items.items) w.items.items;
      last = w.last;
    } };
}

impl Worked {
    /// A worker that has got nothing yet.
    pub(crate) fn new(alloc: Global, channel: ChannelId) -> Worked
        ensures channel { result.channel ≡ channel }
        ensures worked { (job : JobView) → IsWorked job [] result }
        ensures ready { (job : JobView) → CanGoOn job result }
    {
        Worked {
            channel,
            items: VecDeque::new(alloc),
            last: None,
        }
    }

    /// Makes the segment of one grant more, and keeps what it did. After an error nothing is known of it.
    pub(crate) fn note(&mut self, alloc: Global, job: &Job, grant: &Grant) -> Result<Step, NoMemory>
        requires blocks { BlocksFit job.now }
        requires programs { length job.now.programs ≤ PROGRAM_LIMIT }
        requires ready { CanGoOn job.now self.old }
        ensures ready { OnOk result (CanGoOn job.now self.new) }
        ensures noted { IfOk result (λ step. HasNoted job.now self.old grant.now step self.new) }
    {
        let local = self.last.take();
        let Segment { items, step, after } = next_segment(alloc, job, self.channel, local, grant)?;
        self.items.push_back(items)?;
        self.last = Some(after);
        Ok(step)
    }
}
