//! What becomes of control after a block.

use axis_sets::AxisId;
use micro_units::Um;
use nc_blocks::NameText;
use nc_control_flow::Outcome;
use out_of_memory::NoMemory;
use sync_types::Item;
use thiserror::Error;
use tool_offsets::Tools;

/// What becomes of control after a block.
#[derive(Clone, Copy)]
pub enum Course<'a> {
    /// It goes on in its program, by what came of the block.
    Goes(Outcome<'a>),
    /// The program ends, which is a return where it was called.
    Ends,
    /// The program of this number is called, so many times.
    Calls(u16, u16),
}

/// What a block has done, besides what it left in its situation.
#[derive(Drop)]
pub struct Done<'a> {
    /// Its motion, if it has one: a straight line, a rapid or an arc.
    pub item: Option<Item>,
    /// What becomes of control.
    pub course: Course<'a>,
}

/// Why a block does nothing.
#[derive(Clone, Copy, Debug, PartialEq, Eq, Error)]
pub enum BlockFault {
    /// It has an alarm with this code.
    #[error("alarm")]
    Alarm(u16),
    /// Memory ran out.
    #[error("out of memory")]
    NoMemory,
}

/// What the blocks of a channel find in its job.
pub trait Setup {
    ghost use Rattle.std.specs.Prelude.{◌≡◌, ℕ, ℤ, List, Option, MatchOption, None, Some};
    ghost use Rattle.tool_offsets.specs.declared.tools.ToolEdge.{ToolEdge};
    ghost use Rattle.block_effects.specs.Effects.{number_of};

    /// The names of the programs, in the order of their numbers from 0 on.
    ghost names: { Self → List (List ℕ) };

    /// The axis with a name.
    ghost axis_named: { Self → List ℕ → Option ℕ };

    /// The settable offset of a slot under a word of group 8, in micrometres.
    ghost offset: { Self → ℕ → ℕ → ℤ };

    /// The edges of the tools of the channel, or none where it has no tools.
    ghost tools: { Self → Option (List ToolEdge) };

    /// The number of the program of this name, the first where several have it, or `None` where there is none.
    fn number_of(&self, name: &NameText) -> Option<u16>
        ensures { result ≡ number_of (names self.now) name.now };

    /// The axis with this name, in upper case, or `None` where the job has none.
    fn axis_named(&self, name: &[u8]) -> Option<AxisId>
        ensures { result ≡ axis_named self.now name.now };

    /// The settable offset of a slot, 0, 1 and 2 for X, Y and Z, under this word of group 8; 0 where none is set.
    fn offset(&self, word: u16, slot: u8) -> Um
        ensures { result ≡ offset self.now word slot };

    /// The tools of the channel, or `None` where it has none: then T and D choose nothing.
    fn tools(&self) -> Option<&Tools>
        ensures { MatchOption result (tools self.now ≡ None) (λ found. tools self.now ≡ Some found.now) };
}
