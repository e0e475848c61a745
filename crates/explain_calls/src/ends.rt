//! What a call reads from and writes to, and what it says on standard error.
ghost use Rattle.std.specs.Prelude.{◌≡◌};
ghost use Rattle.exit_statuses.specs.declared.Status.TheVariants as statuses;
ghost use Rattle.explain_calls.specs.Faults.{status_of_fault};

use crate::files::InputFault;
use exit_statuses::Status;
use explain_joins::OtherPart;
use growing_text::Text;
use job_lines::INPUT_LIMIT;
use std::alloc::Global;
use std::rt::Stderr;

/// The forms that the words of a call have.
const USAGE: &str = "usage: explain [--svg | --json | --ready | --lines] JOB
       explain [--svg | --json | --ready | --lines | --join] LIST FILE ..
JOB is a job, LIST a job list and FILE a file of a control; - is standard input; explain --help tells more
";

/// What a call reads from and writes to.
#[derive(Drop)]
pub struct Ends<'a, R> {
    /// Files, standard input, standard output and the clock.
    pub rt: &'a R,
    /// Standard error.
    pub error: &'a Stderr,
    /// Where memory comes from.
    pub alloc: Global,
    /// Whether progress is told.
    pub shows_progress: bool,
}

impl<R> Ends<'_, R> {
    /// Writes these `bytes` to standard error, as they are. A fault is not told: there is nowhere left to tell it.
    pub fn say(&self, bytes: &[u8]) {
        let _ = self.error.write_all(bytes);
    }

    /// Writes a text to standard error. Where memory was too short for it nothing is written.
    fn say_text(&self, text: Text) {
        if let Ok(bytes) = text.finish() {
            self.say(bytes.as_slice());
        }
    }

    /// The beginning of a line on a file.
    fn line_on(&self, name: &str) -> Text {
        let mut text = Text::new(self.alloc);
        text.say("explain: ");
        text.say(name);
        text
    }

    /// Says which forms the words of a call have, and gives the status of words that are none of them.
    pub fn say_usage(&self) -> Status
        ensures { result ≡ statuses.Usage }
    {
        self.say(USAGE.as_bytes());
        Status::Usage
    }

    /// Says that memory was too short, and gives the status of that.
    pub fn say_no_memory(&self) -> Status
        ensures { result ≡ statuses.NoMemory }
    {
        self.say(b"explain: out of memory\n");
        Status::NoMemory
    }

    /// Says that an input is too long.
    pub(crate) fn say_too_long(&self, name: &str) -> Status
        ensures { result ≡ statuses.TooLong }
    {
        let mut text = self.line_on(name);
        text.say(": more than ");
        text.number(INPUT_LIMIT as u64);
        text.say(" bytes\n");
        self.say_text(text);
        Status::TooLong
    }

    /// Says what is wrong with a file.
    pub(crate) fn say_fault(&self, name: &str, fault: &InputFault) -> Status
        ensures { result ≡ status_of_fault fault.now }
    {
        match fault {
            InputFault::Failed(error) => {
                let _ = eprintln!(self.error; "explain: {name}: {error}");
                Status::ReadFault
            }
            InputFault::TooLong => self.say_too_long(name),
            InputFault::NoMemory => self.say_no_memory(),
        }
    }

    /// Says that a job list does not begin as one does.
    pub(crate) fn say_no_job(&self, name: &str) {
        let mut text = self.line_on(name);
        text.say(": the first file does not begin with JOB, as a job list does\n");
        self.say_text(text);
    }

    /// Says of a copy of a job how many refused lines are comments now, `left_out`, and how many stay as they were, `refused`.
    pub fn say_ready(&self, left_out: usize, refused: usize) {
        let mut text = Text::new(self.alloc);
        text.say("explain: refused lines that move nothing, now comments: ");
        text.number(left_out as u64);
        text.say("; refused lines that would move, branch or calculate, as they were: ");
        text.number(refused as u64);
        text.say("\n");
        self.say_text(text);
    }

    /// Says that a part of a file is left out.
    pub(crate) fn say_part(&self, name: &str, part: &OtherPart) {
        let mut text = self.line_on(name);
        text.say(" line ");
        text.number(part.line);
        text.say(": the part ");
        text.bytes(part.header);
        text.say(" is no program, and is left out\n");
        self.say_text(text);
    }
}
