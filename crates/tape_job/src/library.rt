//! What headers and the end of the input break.
ghost use Rattle.std.specs.Prelude.{◌≡◌};
ghost use Rattle.fault_codes.specs.Codes.{IsRefusalCode};
ghost use Rattle.tape_job.specs.Rules.{refusal};

use crate::draft::Draft;
use crate::reading::Reading;
use fault_codes::Refusal;
use job_lines::Code;
use nc_blocks::NameText;

/// The refusal of a line by this rule.
#[tactic(auto, unfolding(crate::specs::Rules::refusal))]
pub(crate) fn refusal(code: Code, line: u32) -> Refusal
    ensures value { result ≡ refusal code line }
    ensures listed { IsRefusalCode result.code }
{
    Refusal {
        code: code.shown(),
        line,
    }
}

impl Draft {
    ghost use Rattle.std.specs.Prelude.{◌≡◌, IfSome};
    ghost use Rattle.fault_codes.specs.Codes.{IsRefusalCode};
    ghost use Rattle.tape_job.specs.Reading.{reading_view};
    ghost use Rattle.tape_job.specs.Rules.{header_rule, rule_of, is_known, missing_program_refusal, open_structure_refusal};

    /// What a header breaks.
    #[tactic(auto, unfolding(crate::specs::Rules::header_rule))]
    fn header_rule(&self, name: &NameText) -> Option<Code>
        ensures { result ≡ header_rule self.now.job name.now }
    {
        if self.programs.has(name) {
            Some(Code::NameRepeated)
        } else if self.programs.is_full() {
            Some(Code::TooMany)
        } else {
            None
        }
    }

    /// What a line breaks.
    #[tactic(auto, unfolding(crate::specs::Rules::rule_of))]
    pub(crate) fn rule(&self, reading: &Reading) -> Option<Code>
        ensures { result ≡ rule_of self.now.options self.now.job (reading_view reading.now) }
    {
        match reading {
            Reading::DeclarationLine(declaration) => self.declaration_rule(declaration),
            Reading::Header(name) => self.header_rule(name),
            Reading::Blank | Reading::First | Reading::BlockLine(_) => None,
        }
    }

    /// Whether the library has the program, if there is one.
    fn is_known(&self, program: &Option<NameText>) -> bool
        ensures { result ≡ is_known self.now.job.programs program.now }
    {
        match program {
            Some(name) => self.programs.has(name),
            None => true,
        }
    }

    /// The refusal of a structure that the end of the last program leaves open.
    #[tactic(auto, unfolding(crate::specs::Rules::open_structure_refusal, fault_codes::specs::Codes::IsRefusalCode, fault_codes::specs::Codes::refusal_codes))]
    pub(crate) fn unmatched(&self) -> Option<Refusal>
        ensures value { result ≡ open_structure_refusal self.now.job }
        ensures listed { IfSome result (λ refused. IsRefusalCode refused.code) }
    {
        match self.programs.left_open() {
            Some(line) => Some(Refusal { code: 25, line }),
            None => None,
        }
    }

    /// The refusal of the first channel whose program is not in the library.
    #[tactic(auto, unfolding(crate::specs::Rules::missing_program_refusal))]
    pub(crate) fn missing(&self) -> Option<Refusal>
        ensures value { result ≡ missing_program_refusal self.now.job }
        ensures listed { IfSome result (λ refused. IsRefusalCode refused.code) }
    {
        let line = self
            .job
            .channels
            .iter()
            .find(|line| !self.is_known(&line.program))?;
        Some(refusal(Code::NotInLibrary, line.line))
    }
}
