//! The rules that a line can break.
ghost use Rattle.std.specs.Prelude.{◌≡◌};
ghost use Rattle.job_lines.specs.Code.{refusal_code};
ghost use Rattle.fault_codes.specs.Codes.{IsRefusalCode};

/// A rule that a line can break. The rules that a block breaks by itself have no name here.
#[derive(Clone, Copy, PartialEq, Eq)]
pub enum Code {
    /// The first line with a token is not `JOB 1`, or no line has a token.
    NoJobLine,
    /// The line is longer than 512 bytes.
    LineTooLong,
    /// A byte that the line may not have.
    BadByte,
    /// A job line whose first word, number of words or option is unknown.
    UnknownJobLine,
    /// A number, name or length that is not of its form or range.
    OutOfRange,
    /// Something is declared a second time.
    DeclaredTwice,
    /// A channel or an axis that no earlier line declares.
    NotDeclared,
    /// A carrier that the zone's holder does not own.
    OwnerDiffers,
    /// A second program of one name.
    NameRepeated,
    /// A line that begins with `%` and is no program header.
    BadHeader,
    /// A seventeenth axis or a 257th program.
    TooMany,
    /// A channel's program that the library does not have.
    NotInLibrary,
    /// A text of a block that no quote closes.
    OpenText,
}

impl Code {
    /// The code that a refusal shows.
    #[tactic(auto, unfolding(crate::specs::Code::refusal_code, fault_codes::specs::Codes::IsRefusalCode, fault_codes::specs::Codes::refusal_codes))]
    pub fn shown(self) -> u16
        ensures value { result ≡ refusal_code self }
        ensures listed { IsRefusalCode result }
    {
        match self {
            Code::NoJobLine => 1,
            Code::LineTooLong => 2,
            Code::BadByte => 3,
            Code::UnknownJobLine => 4,
            Code::OutOfRange => 5,
            Code::DeclaredTwice => 6,
            Code::NotDeclared => 7,
            Code::OwnerDiffers => 8,
            Code::NameRepeated => 9,
            Code::BadHeader => 10,
            Code::TooMany => 11,
            Code::NotInLibrary => 12,
            Code::OpenText => 20,
        }
    }
}
