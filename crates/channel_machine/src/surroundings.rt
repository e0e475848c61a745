//! What the blocks of a channel find in its job.

ghost use Rattle.std.specs.Prelude.{◌≡◌, ◌==◌, ◌≤◌, find, length, option_copied, MatchOption, None, Some};
ghost use Rattle.channel_machine.specs.Tools as model;
ghost use Rattle.job_lines.specs.declared.limits.TheConstants.{PROGRAM_LIMIT};

use axis_sets::{AxisId, ChannelId};
use block_effects::Setup;
use job_types::{Job, axis_named, offset_line};
use micro_units::Um;
use nc_blocks::NameText;
use tool_offsets::Tools;

/// The job of a channel, as its blocks see it.
#[derive(Drop)]
pub(crate) struct Surroundings<'a> {
    /// The job.
    pub(crate) job: &'a Job,
    /// The channel.
    pub(crate) channel: ChannelId,
    ghost few: { length job.now.programs ≤ PROGRAM_LIMIT },
}

/// The entry of a channel among the tools of a job.
fn entry_of(job: &Job, channel: ChannelId) -> Option<&(ChannelId, Tools)>
    ensures { option_copied result ≡ find (λ tools. tools.0 == channel) job.now.tools }
{
    job.tools.iter().find(|tools| {
        let tools: &(ChannelId, Tools) = tools;
        tools.0.number == channel.number
    })
}

/// The tools of a channel, where a line gives it one.
fn tools_of(job: &Job, channel: ChannelId) -> Option<&Tools>
    ensures { MatchOption result (model.tools_of job.now channel ≡ None)
        (λ found. model.tools_of job.now channel ≡ Some found.now) }
{
    match entry_of(job, channel) {
        Some(entry) => Some(&entry.1),
        None => None,
    }
}

impl<'a> Setup for Surroundings<'a> {
    ghost use Rattle.std.specs.Prelude.{map};
    ghost use Rattle.job_types.specs.Slots.{offset_of};
    ghost use Rattle.job_types.specs.Axes.{axis_named};
    ghost use Rattle.channel_machine.specs.Tools.{tools_of};

    ghost names = { λ s. map (λ p. p.0) s.job.now.programs };

    ghost axis_named = { λ s. axis_named s.job.now.axes };

    ghost offset = { λ s. offset_of s.job.now s.channel };

    ghost tools = { λ s. tools_of s.job.now s.channel };

    fn number_of(&self, name: &NameText) -> Option<u16> {
        let job = self.job;
        match job.programs.get_index_of(name) {
            Some(number) => Some(number as u16),
            None => None,
        }
    }

    fn axis_named(&self, name: &[u8]) -> Option<AxisId> {
        let job = self.job;
        axis_named(job.axes.as_slice(), name)
    }

    fn offset(&self, word: u16, slot: u8) -> Um {
        match offset_line(self.job, self.channel, word, slot) {
            Some(line) => line.by,
            None => Um { micrometres: 0 },
        }
    }

    fn tools(&self) -> Option<&Tools> {
        let job = self.job;
        tools_of(job, self.channel)
    }
}
