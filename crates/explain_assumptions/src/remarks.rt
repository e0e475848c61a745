//! Remarks on executed blocks.
ghost use Rattle.std.specs.Prelude.{◌≡◌};
ghost use Rattle.explain_assumptions.specs.Firsts as model;

/// What an executed block says or does that may rest on how its channel begins.
#[derive(Clone, Copy)]
pub(crate) enum RemarkKind {
    /// It says what values of X are: DIAMON, DIAM90 or DIAMOF.
    SaysDiameters,
    /// It programs X.
    ProgramsX,
    /// It reads the parameter of this number.
    Reads(u16),
    /// It gives the parameter of this number a value.
    Sets(u16),
    /// It moves axes, and this is the number of the word that chooses the settable offset.
    MovesUnder(u16),
    /// It has a T word.
    HasTool,
    /// It has a D word.
    HasToolOffset,
}

/// A remark on an executed block.
#[derive(Clone, Copy)]
pub(crate) struct Remark {
    /// Its line.
    pub line: u32,
    /// What it says or does.
    pub kind: RemarkKind,
}

impl Remark {
    /// Whether it is about X.
    pub(crate) fn is_of_x(&self) -> bool
        ensures { result ≡ model.is_of_x self.now }
    {
        match self.kind {
            RemarkKind::SaysDiameters | RemarkKind::ProgramsX => true,
            RemarkKind::Reads(_)
            | RemarkKind::Sets(_)
            | RemarkKind::MovesUnder(_)
            | RemarkKind::HasTool
            | RemarkKind::HasToolOffset => false,
        }
    }

    /// Whether it is about a T word.
    pub(crate) fn is_of_tool(&self) -> bool
        ensures { result ≡ model.is_of_tool self.now }
    {
        match self.kind {
            RemarkKind::HasTool => true,
            RemarkKind::SaysDiameters
            | RemarkKind::ProgramsX
            | RemarkKind::Reads(_)
            | RemarkKind::Sets(_)
            | RemarkKind::MovesUnder(_)
            | RemarkKind::HasToolOffset => false,
        }
    }

    /// Whether it is about a D word.
    pub(crate) fn is_of_tool_offset(&self) -> bool
        ensures { result ≡ model.is_of_tool_offset self.now }
    {
        match self.kind {
            RemarkKind::HasToolOffset => true,
            RemarkKind::SaysDiameters
            | RemarkKind::ProgramsX
            | RemarkKind::Reads(_)
            | RemarkKind::Sets(_)
            | RemarkKind::MovesUnder(_)
            | RemarkKind::HasTool => false,
        }
    }

    /// The parameter that it is about.
    pub(crate) fn parameter(&self) -> Option<u16>
        ensures { result ≡ model.parameter_of self.now }
    {
        match self.kind {
            RemarkKind::Reads(number) | RemarkKind::Sets(number) => Some(number),
            RemarkKind::SaysDiameters
            | RemarkKind::ProgramsX
            | RemarkKind::MovesUnder(_)
            | RemarkKind::HasTool
            | RemarkKind::HasToolOffset => None,
        }
    }

    /// The word under which axes move.
    pub(crate) fn word(&self) -> Option<u16>
        ensures { result ≡ model.word_of self.now }
    {
        match self.kind {
            RemarkKind::MovesUnder(word) => Some(word),
            RemarkKind::SaysDiameters
            | RemarkKind::ProgramsX
            | RemarkKind::Reads(_)
            | RemarkKind::Sets(_)
            | RemarkKind::HasTool
            | RemarkKind::HasToolOffset => None,
        }
    }
}
