//! How a call of either program ends.
#![tactic(auto)]

ghost use Rattle.std.specs.Prelude.{◌≡◌};
ghost use Rattle.exit_statuses.specs.Statuses.{exit_number, status_of};

use std::process::ExitCode;
use sync_types::Verdict;

/// How a call ends. The number of each is the exit status of the program.
#[derive(Clone, Copy, PartialEq, Eq)]
pub enum Status {
    /// No two zones of different groups can meet.
    Yes = 0,
    /// Two zones may meet.
    No = 1,
    /// The order of two channels' actions is open.
    Race = 2,
    /// A channel waits for good.
    Stuck = 3,
    /// A channel is stopped by an alarm.
    Alarm = 4,
    /// More boxes are to be compared than the job allows.
    Undecided = 5,
    /// The input is no job.
    Refused = 6,
    /// The words have no accepted form.
    Usage = 7,
    /// A file could not be opened, or a read failed.
    ReadFault = 8,
    /// A write failed.
    WriteFault = 9,
    /// The input has more than `INPUT_LIMIT` bytes.
    TooLong = 10,
    /// Memory was wanted and not found.
    NoMemory = 11,
}

impl Status {
    /// The status of this verdict.
    pub fn of_verdict(verdict: &Verdict) -> Status
        ensures { result ≡ status_of verdict.now }
    {
        match verdict {
            Verdict::Race(_) => Status::Race,
            Verdict::Alarm(_, _) => Status::Alarm,
            Verdict::Stuck(_, _) => Status::Stuck,
            Verdict::Undecided { .. } => Status::Undecided,
            Verdict::No(_, _) => Status::No,
            Verdict::Yes => Status::Yes,
        }
    }

    /// The number of the status, from 0 to 11: the exit status of the program.
    pub fn number(self) -> u8
        ensures { result ≡ exit_number self }
    {
        self as u8
    }
}

impl From<Status> for ExitCode {
    ghost use Rattle.std.specs.Prelude.{◌≡◌};
    ghost use Rattle.std.specs.Process.{exit_status};
    ghost use Rattle.exit_statuses.specs.Statuses.{exit_number};

    ghost from_gives = { λ status code. exit_status code ≡ exit_number status };

    fn from(status: Status) -> ExitCode {
        ExitCode::from(status.number())
    }
}
