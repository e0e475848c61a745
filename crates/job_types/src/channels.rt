//! Look-ups of the channels of a job.
ghost use Rattle.std.specs.Prelude.{◌≡◌};
ghost use Rattle.job_types.specs.Channels as model;

use crate::job::Job;
use axis_sets::ChannelId;

impl Job {
    /// Whether a CHANNEL line of the job declares `channel`.
    pub fn has_channel(&self, channel: ChannelId) -> bool
        ensures { result ≡ model.has_channel self.now channel }
    {
        self.channels.iter().any(|line| line.channel == channel)
    }
}
