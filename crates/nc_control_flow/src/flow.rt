//! A resolved program, and what follows each of its blocks.

ghost use Rattle.std.specs.Prelude.{◌≡◌, ◌+◌, ◌<◌, ◌^◌, length, vec_len, option_copied, slice_get, IfOk, IsSome, ◌↔◌};
ghost use Rattle.nc_control_flow.specs.Parts.{views};

use crate::counted::plain_places;
use crate::index::Index;
use crate::parts::{Sought, parts};
use crate::repeats::{Control, Repeats, Running};
use crate::structures::{found_ahead, found_before};
use fault_codes::alarms::TOO_MANY_REPETITIONS;
use nc_blocks::{Block, Target, Way};
use out_of_memory::NoMemory;
use std::alloc::Global;
use std::marker::Model;

/// What came of a block.
#[derive(Clone, Copy)]
pub enum Outcome<'a> {
    /// It has no condition, or one by which it does not jump.
    Plain,
    /// It has a condition with this value: of FOR that its bound is not passed, of ENDFOR that it
    /// goes round once more.
    Truth(bool),
    /// It jumps.
    Jump(Way, &'a Target),
    /// It repeats, so many times.
    Again(u16),
    /// It is passed over.
    Skipped,
}

/// What follows a block.
#[derive(Clone, Copy, PartialEq, Eq)]
pub enum Next {
    /// The block at this place.
    At(u32),
    /// None: control is past the last block.
    Past,
}

/// What a block asks for.
#[derive(Clone, Copy)]
pub(crate) enum Move {
    /// To go on after it.
    Onward,
    /// To leave it for this place.
    Leap(u32),
    /// To run a repetition.
    Start(Running),
}

/// A program whose structures, labels and block numbers are found; a contract sees it as the list of
/// its blocks with their lines.
#[derive(Drop)]
pub struct Flow {
    pub(crate) blocks: Vec<(u32, Block)>,
    pub(crate) ends: Vec<u32>,
    pub(crate) branches: Vec<u32>,
    pub(crate) openers: Vec<u32>,
    pub(crate) plain: Vec<u32>,
    pub(crate) index: Index,
}

impl Model for Flow {
    ghost use Rattle.std.specs.Prelude.{List, ℕ};
    ghost use Rattle.std.specs.Coded.{codes};
    ghost use Rattle.nc_expressions.specs.contracts.trees.Expr as expression;
    ghost use Rattle.nc_blocks.specs.declared.blocks.Block.{Block};
    ghost use Rattle.nc_control_flow.specs.Parts.{views};
    ghost use Rattle.nc_control_flow.specs.Resolved.{IsResolved};

    ghost Value = { List (ℕ × Block) };

    ghost coded = { Prim.hlevel (codes, expression.the_row.coded) };

    ghost view = { λ f. f.blocks.items };

    ghost invariant = { λ f. IsResolved (views f.blocks.items) f.ends.items f.branches.items f.openers.items
        f.plain.items f.index.labels f.index.numbers };
}

/// Finds the structures, the labels and the block numbers of a program, whose blocks come with their
/// lines.
#[tactic(auto, unfolding(crate::specs::Structures::closing, crate::specs::Structures::branching, crate::specs::Structures::opening))]
pub fn resolve(alloc: Global, blocks: Vec<(u32, Block)>) -> Result<Flow, NoMemory>
    requires { vec_len blocks < 2 ^ 32 }
    ensures { IfOk result (λ flow. flow ≡ blocks.items) }
{
    let parts = parts(alloc, &blocks)?;
    let ends = found_ahead(alloc, &parts, Sought::End)?;
    let branches = found_ahead(alloc, &parts, Sought::Branch)?;
    let openers = found_before(alloc, &parts, Sought::Opener)?;
    let plain = plain_places(alloc, &blocks)?;
    let index = Index::of(alloc, &blocks)?;
    Ok(Flow {
        blocks,
        ends,
        branches,
        openers,
        plain,
        index,
    })
}

impl Flow {
    ghost use Rattle.nc_control_flow.specs.Flow.{next_block, next_at, going_by_move, Leads};
    ghost use Rattle.nc_control_flow.specs.Moves.{MoveFits, outcome_view};

    /// All blocks, each with its line.
    pub fn blocks(&self) -> &[(u32, Block)]
        ensures { result.now ≡ self.now }
    {
        self.blocks.as_slice()
    }

    /// The block at a place, with its line; None past the last block.
    pub fn block(&self, pc: u32) -> Option<&(u32, Block)>
        ensures block { option_copied result ≡ slice_get self.now pc }
        ensures found { IsSome result ↔ (pc < length self.now) }
    {
        self.blocks.get(pc as usize)
    }

    /// Goes on from the block at a place by what came of it.
    ///
    /// Alarm 5: a label or block number stands where none is found. Alarm 32: a seventeenth
    /// repetition would run. The repetitions are then unchanged.
    #[tactic(auto, unfolding(crate::specs::Flow::next_block))]
    pub fn next(&self, pc: u32, repeats: &mut Repeats, outcome: Outcome) -> Result<Next, u16>
        requires { pc < length self.now }
        ensures { Leads (views self.now) (next_block pc (views self.now) repeats.old (outcome_view outcome.entry))
            result repeats.old repeats.new }
    {
        match self.move_of(pc, &self.blocks[pc as usize].1.stmt, outcome) {
            Ok(asked) => self.go(pc, repeats, asked),
            Err(code) => Err(code),
        }
    }

    /// Does what a block asks for.
    #[tactic(auto, unfolding(crate::specs::Flow::going_by_move))]
    fn go(&self, pc: u32, repeats: &mut Repeats, asked: Move) -> Result<Next, u16>
        requires place { pc + 1 < 2 ^ 32 }
        requires fits { MoveFits asked }
        ensures { Leads (views self.now) (going_by_move pc repeats.old asked) result repeats.old repeats.new }
    {
        match asked {
            Move::Onward => Ok(self.at(repeats.settle(Control::Done(pc)))),
            Move::Leap(place) => {
                repeats.leave(place);
                Ok(self.at(repeats.settle(Control::Comes(place))))
            }
            Move::Start(repetition) => {
                if repeats.is_full() {
                    return Err(TOO_MANY_REPETITIONS);
                }
                repeats.begin(repetition);
                Ok(self.at(repeats.settle(Control::Comes(repetition.first))))
            }
        }
    }

    /// What stands at a place.
    pub(crate) fn at(&self, place: u32) -> Next
        ensures { result ≡ next_at (views self.now) place }
    {
        if (place as usize) < self.blocks.len() {
            Next::At(place)
        } else {
            Next::Past
        }
    }
}
