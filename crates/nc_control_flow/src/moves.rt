//! What blocks ask for.

ghost use Rattle.std.specs.Prelude.{◌≡◌, ℕ, ◌+◌, ◌<◌, ◌^◌, length, AllPairs, IfOk};
ghost use Rattle.nc_blocks.specs.Statement.{statement_view};
ghost use Rattle.nc_control_flow.specs.Parts.{views};
ghost use Rattle.nc_control_flow.specs.Moves.{plain_move as plain_move_of, choice as choice_of, onward_if as onward_move, leap_if as leap_move, jump as jump_of, range as range_of, single as single_of, repetition as repetition_of, move_of as asked_by, outcome_view, MoveFits};

use crate::flow::{Flow, Move, Outcome};
use crate::index::{places_of_label, places_of_number};
use crate::places::{first_after, last_before};
use crate::repeats::Running;
use fault_codes::alarms::JUMP_TARGET_MISSING;
use nc_blocks::{NameText, Stmt, Target, Way};

impl Flow {
    ghost use Rattle.nc_control_flow.specs.Structures.{closing, branching, opening};
    ghost use Rattle.nc_control_flow.specs.Places.{with_places};
    ghost use Rattle.nc_control_flow.specs.Index.{places_by};
    ghost use Rattle.nc_control_flow.specs.Targets.{has_label, is_target, nearest_ahead, nearest_before, target_of, first_of_range, single_block};

    /// What a block asks for by what came of it.
    #[tactic(auto, unfolding(crate::specs::Moves::move_of))]
    pub(crate) fn move_of(&self, pc: u32, stmt: &Stmt, outcome: Outcome) -> Result<Move, u16>
        requires within { pc < length self.now }
        requires place { pc + 1 < 2 ^ 32 }
        ensures asked { result ≡ asked_by pc (views self.now) (statement_view stmt.now) (outcome_view outcome.entry) }
        ensures fits { IfOk result MoveFits }
    {
        match outcome {
            Outcome::Plain => Ok(self.plain_move(pc, stmt)),
            Outcome::Truth(holds) => Ok(self.choice(pc, stmt, holds)),
            Outcome::Jump(way, target) => jump(way, self.target(way, target, pc)),
            Outcome::Again(times) => self.repetition(pc, stmt, times),
            Outcome::Skipped => Ok(Move::Onward),
        }
    }

    /// What a block without a condition asks for.
    #[tactic(auto, unfolding(crate::specs::Moves::plain_move))]
    fn plain_move(&self, pc: u32, stmt: &Stmt) -> Move
        requires { pc < length self.now }
        ensures asked { result ≡ plain_move_of pc (views self.now) (statement_view stmt.now) }
        ensures fits { MoveFits result }
    {
        match stmt {
            Stmt::Else => Move::Leap(self.closing(pc) + 1),
            Stmt::EndWhile | Stmt::EndLoop => Move::Leap(self.opening(pc)),
            _ => Move::Onward,
        }
    }

    /// What a block with a condition asks for.
    #[tactic(auto, unfolding(crate::specs::Moves::choice))]
    fn choice(&self, pc: u32, stmt: &Stmt, holds: bool) -> Move
        requires { pc < length self.now }
        ensures asked { result ≡ choice_of pc (views self.now) (statement_view stmt.now) holds }
        ensures fits { MoveFits result }
    {
        match stmt {
            Stmt::If(_) => onward_if(holds, self.branching(pc) + 1),
            Stmt::While(_) | Stmt::For(_, _, _) => onward_if(holds, self.closing(pc) + 1),
            Stmt::Until(_) => onward_if(holds, self.opening(pc) + 1),
            Stmt::EndFor => leap_if(holds, self.opening(pc) + 1),
            _ => Move::Onward,
        }
    }

    /// The repetition that a REPEAT or REPEATB asks for.
    #[tactic(auto, unfolding(crate::specs::Moves::repetition))]
    fn repetition(&self, pc: u32, stmt: &Stmt, times: u16) -> Result<Move, u16>
        requires { pc + 1 < 2 ^ 32 }
        ensures asked { result ≡ repetition_of pc (views self.now) (statement_view stmt.now) times }
        ensures fits { IfOk result MoveFits }
    {
        match stmt {
            Stmt::RepeatFrom(name, _) => range(pc, times, self.first_of_range(name, pc)),
            Stmt::RepeatBlock(name, _) => single(pc, times, self.single_block(name, pc)),
            _ => Ok(Move::Onward),
        }
    }

    /// The end of the structure round a place, or 0.
    fn closing(&self, pc: u32) -> u32
        requires { pc < length self.now }
        ensures place { result ≡ closing pc (views self.now) }
        ensures fits { result + 1 < 2 ^ 32 }
    {
        self.ends[pc as usize]
    }

    /// The ELSE of the structure round a place, or its end, or 0.
    fn branching(&self, pc: u32) -> u32
        requires { pc < length self.now }
        ensures place { result ≡ branching pc (views self.now) }
        ensures fits { result + 1 < 2 ^ 32 }
    {
        self.branches[pc as usize]
    }

    /// The place of the beginning of the structure round a place, or 0 where none is round it.
    pub fn opening(&self, pc: u32) -> u32
        requires { pc < length self.now }
        ensures place { result ≡ opening pc (views self.now) }
        ensures fits { result + 1 < 2 ^ 32 }
    {
        self.openers[pc as usize]
    }

    /// The place to which a jump goes.
    #[tactic(auto, unfolding(crate::specs::Targets::target_of))]
    fn target(&self, way: Way, target: &Target, pc: u32) -> Option<u32>
        ensures { result ≡ target_of way target.now pc (views self.now) }
    {
        match way {
            Way::Forward => self.ahead(target, pc),
            Way::Backward => self.before(target, pc),
            Way::Either | Way::Optional => match self.ahead(target, pc) {
                Some(place) => Some(place),
                None => self.before(target, pc),
            },
        }
    }

    /// The nearest target after a place in the text.
    fn ahead(&self, target: &Target, pc: u32) -> Option<u32>
        ensures { result ≡ nearest_ahead (is_target target.now) pc (views self.now) }
    {
        first_after(self.targets(target), pc)
    }

    /// The nearest target before a place in the text.
    fn before(&self, target: &Target, pc: u32) -> Option<u32>
        ensures { result ≡ nearest_before (is_target target.now) pc (views self.now) }
    {
        last_before(self.targets(target), pc)
    }

    /// The first block of a REPEAT with a label.
    #[tactic(auto, unfolding(crate::specs::Targets::first_of_range))]
    fn first_of_range(&self, name: &NameText, pc: u32) -> Option<u32>
        ensures { result ≡ first_of_range name.now pc (views self.now) }
    {
        last_before(self.labelled(name), pc)
    }

    /// The block of a REPEATB.
    #[tactic(auto, unfolding(crate::specs::Targets::single_block))]
    fn single_block(&self, name: &NameText, pc: u32) -> Option<u32>
        ensures { result ≡ single_block name.now pc (views self.now) }
    {
        match last_before(self.labelled(name), pc) {
            Some(place) => Some(place),
            None => first_after(self.labelled(name), pc),
        }
    }

    /// The places that a target means.
    fn targets(&self, target: &Target) -> &[u32]
        ensures places { result.now ≡ places_by (is_target target.now) (with_places (views self.now)) }
        ensures ascend { AllPairs (λ a b. a < b) result.now }
    {
        match target {
            Target::Label(name) => self.labelled(name),
            Target::Number(number) => places_of_number(&self.index.numbers, *number),
        }
    }

    /// The places with a label.
    fn labelled(&self, name: &NameText) -> &[u32]
        ensures places { result.now ≡ places_by (has_label name.now) (with_places (views self.now)) }
        ensures ascend { AllPairs (λ a b. a < b) result.now }
    {
        places_of_label(&self.index.labels, name.as_bytes())
    }
}

/// To go on where a condition holds, and else to leave for a place.
fn onward_if(holds: bool, place: u32) -> Move
    ensures asked { result ≡ onward_move holds place }
    ensures fits { MoveFits result }
{
    if holds {
        Move::Onward
    } else {
        Move::Leap(place)
    }
}

/// To leave for a place where a condition holds.
fn leap_if(holds: bool, place: u32) -> Move
    ensures asked { result ≡ leap_move holds place }
    ensures fits { MoveFits result }
{
    if holds {
        Move::Leap(place)
    } else {
        Move::Onward
    }
}

/// To leave for a target, if there is one.
fn jump(way: Way, target: Option<u32>) -> Result<Move, u16>
    ensures asked { result ≡ jump_of way target }
    ensures fits { IfOk result MoveFits }
{
    match (target, way) {
        (Some(place), _) => Ok(Move::Leap(place)),
        (None, Way::Optional) => Ok(Move::Onward),
        (None, _) => Err(JUMP_TARGET_MISSING),
    }
}

/// To repeat the blocks from the first one to a REPEAT.
fn range(pc: u32, times: u16, first: Option<u32>) -> Result<Move, u16>
    requires { pc + 1 < 2 ^ 32 }
    ensures asked { result ≡ range_of pc times first }
    ensures fits { IfOk result MoveFits }
{
    match first {
        None => Err(JUMP_TARGET_MISSING),
        Some(_) if times == 0 => Ok(Move::Onward),
        Some(first) => Ok(Move::Start(Running {
            single: false,
            first,
            last: pc,
            own: pc,
            left: times - 1,
        })),
    }
}

/// To repeat the one block of a REPEATB.
fn single(pc: u32, times: u16, block: Option<u32>) -> Result<Move, u16>
    requires { pc + 1 < 2 ^ 32 }
    ensures asked { result ≡ single_of pc times block }
    ensures fits { IfOk result MoveFits }
{
    match block {
        None => Err(JUMP_TARGET_MISSING),
        Some(_) if times == 0 => Ok(Move::Onward),
        Some(first) => Ok(Move::Start(Running {
            single: true,
            first,
            last: first,
            own: pc,
            left: times - 1,
        })),
    }
}
