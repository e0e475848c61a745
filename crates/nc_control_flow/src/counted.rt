//! The next block that counts, where blocks with `/` are passed over.
//!
//! Control is led over them at once: from a place to the nearest block without `/`, by a table, and
//! from there by the repetitions that end or begin again. So the time of a call grows with the
//! repetitions and not with the blocks that are passed over.

ghost use Rattle.std.specs.Prelude.{◌≡◌, ℕ, ◌+◌, ◌^◌, ◌<◌, true, length, vec_len, nat_le, slice_index, IfOk};
ghost use Rattle.nc_control_flow.specs.Parts.{views};
ghost use Rattle.nc_control_flow.specs.Counted.{plain_from, end_of};

use crate::flow::{Flow, Move, Next, Outcome};
use crate::repeats::{Control, Repeats, Running};
use fault_codes::alarms::TOO_MANY_REPETITIONS;
use nc_blocks::Block;
use std::alloc::{AllocError, Global};

/// For each block the place of the nearest one without `/` at or after it; without one the place
/// after the last block.
pub(crate) fn plain_places(alloc: Global, blocks: &[(u32, Block)]) -> Result<Vec<u32>, AllocError>
    requires { length blocks.now < 2 ^ 32 }
    ensures len { IfOk result (λ v. vec_len v ≡ length blocks.now) }
    ensures each { IfOk result (λ v. (k : ℕ) → k < length blocks.now
        → slice_index v.items k ≡ plain_from (views blocks.now) k) }
{
    let mut plain = vec![in alloc; 0; blocks.len()]?;
    let mut nearest = blocks.len() as u32;
    let mut place = blocks.len();
    while place > 0 {
        place -= 1;
        if !blocks[place].1.skip {
            nearest = place as u32;
        }
        plain[place] = nearest;
    }
    Ok(plain)
}

impl Flow {
    ghost use Rattle.nc_control_flow.specs.Flow.{going_by_move, next_at, Leads};
    ghost use Rattle.nc_control_flow.specs.Moves.{MoveFits, outcome_view};
    ghost use Rattle.nc_control_flow.specs.Repetitions.{going_after_passes, Fits};
    ghost use Rattle.nc_control_flow.specs.Counted.{going_to_counted, counts_at, first_going, next_going, up_to_counting, has_counting as has_counting_block, CountRepeats, MoveStarts};

    /// Goes on from the block at a place by what came of it, as `next`, and then over the blocks with
    /// `/` where they are passed over. Those keep their labels, numbers and places in structures.
    ///
    /// Alarm 5: a label or block number stands where none is found. Alarm 32: a seventeenth
    /// repetition would run. The repetitions are then unchanged.
    pub fn next_counted(
        &self,
        pc: u32,
        repeats: &mut Repeats,
        outcome: Outcome,
        skip: bool,
    ) -> Result<Next, u16>
        requires counts { counts_at skip (views self.now) pc ≡ true }
        requires repeat { CountRepeats skip (views self.now) repeats.old }
        ensures leads { Leads (views self.now) (next_going skip pc (views self.now) repeats.old
            (outcome_view outcome.entry)) result repeats.old repeats.new }
        ensures kept { CountRepeats skip (views self.now) repeats.new }
    {
        if skip {
            self.next_plain(pc, repeats, outcome)
        } else {
            self.next(pc, repeats, outcome)
        }
    }

    /// The first block that counts.
    pub fn first_counted(&self, skip: bool) -> Next
        ensures { result ≡ next_at (views self.now) (first_going skip (views self.now)).place }
    {
        if skip {
            self.at(self.plain(0))
        } else {
            self.at(0)
        }
    }

    /// Whether some block counts.
    pub fn has_counting(&self, skip: bool) -> bool
        ensures { result ≡ has_counting_block skip (views self.now) }
    {
        match self.first_counted(skip) {
            Next::At(_) => true,
            Next::Past => false,
        }
    }

    /// Goes on as `next`, and then over the blocks with `/`.
    fn next_plain(&self, pc: u32, repeats: &mut Repeats, outcome: Outcome) -> Result<Next, u16>
        requires counts { counts_at true (views self.now) pc ≡ true }
        requires repeat { CountRepeats true (views self.now) repeats.old }
        ensures leads { Leads (views self.now) (next_going true pc (views self.now) repeats.old
            (outcome_view outcome.entry)) result repeats.old repeats.new }
        ensures kept { CountRepeats true (views self.now) repeats.new }
    {
        match self.move_of(pc, &self.blocks[pc as usize].1.stmt, outcome) {
            Ok(asked) => self.go_over(pc, repeats, asked),
            Err(code) => Err(code),
        }
    }

    /// Does what a block asks for, and goes on over the blocks with `/`. A repetition of those alone is
    /// not begun.
    #[tactic(auto, unfolding(crate::specs::Flow::going_by_move))]
    fn go_over(&self, pc: u32, repeats: &mut Repeats, asked: Move) -> Result<Next, u16>
        requires place { pc + 1 < 2 ^ 32 }
        requires fits { MoveFits asked }
        requires counts { counts_at true (views self.now) pc ≡ true }
        requires starts { MoveStarts pc asked }
        requires repeat { CountRepeats true (views self.now) repeats.old }
        ensures leads { Leads (views self.now) (up_to_counting true (views self.now)
            (going_by_move pc repeats.old asked)) result repeats.old repeats.new }
        ensures kept { CountRepeats true (views self.now) repeats.new }
    {
        match asked {
            Move::Onward => Ok(self.walk(repeats, Control::Done(pc))),
            Move::Leap(place) => {
                repeats.leave(place);
                Ok(self.walk(repeats, Control::Comes(place)))
            }
            Move::Start(repetition) => {
                if repeats.is_full() {
                    return Err(TOO_MANY_REPETITIONS);
                }
                if self.is_idle(&repetition) {
                    return Ok(self.walk(repeats, Control::Done(pc)));
                }
                repeats.begin(repetition);
                Ok(self.walk(repeats, Control::Comes(repetition.first)))
            }
        }
    }

    /// Goes on until no pass of a repetition is over and a block without `/` comes, or none.
    fn walk(&self, repeats: &mut Repeats, control: Control) -> Next
        requires fits { Fits control }
        requires repeat { CountRepeats true (views self.now) repeats.old }
        ensures next { result ≡ next_at (views self.now)
            (going_to_counted true (views self.now) (going_after_passes control repeats.old)).place }
        ensures running { repeats.new ≡ (going_to_counted true (views self.now)
            (going_after_passes control repeats.old)).running }
        ensures kept { CountRepeats true (views self.now) repeats.new }
    {
        let mut place = repeats.settle(control);
        loop {
            let there = self.plain(place);
            if there == place {
                return self.at(place);
            }
            place = repeats.settle(Control::Comes(there));
        }
    }

    /// Whether each block that a repetition repeats has a `/`.
    fn is_idle(&self, repetition: &Running) -> bool
        ensures { result ≡ nat_le (end_of repetition.now) (plain_from (views self.now) repetition.now.first) }
    {
        let plain = self.plain(repetition.first);
        if repetition.single {
            repetition.first < plain
        } else {
            repetition.own <= plain
        }
    }

    /// The place of the nearest block without `/` at or after a place; without one a place after the
    /// last block.
    fn plain(&self, place: u32) -> u32
        ensures { result ≡ plain_from (views self.now) place }
    {
        match self.plain.get(place as usize) {
            Some(nearest) => *nearest,
            None => place,
        }
    }
}
