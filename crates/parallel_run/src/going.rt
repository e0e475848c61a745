//! What still runs after the workers are joined goes on.
ghost use Rattle.std.specs.Prelude.{◌≡◌, ◌≤◌, ◌++◌, List, length, map, Some, IfOk, OnOk};
ghost use Rattle.channel_machine.specs.Scripts.{IsMaximalRunOf};
ghost use Rattle.coord_core.specs.Boards.{replayed};
ghost use Rattle.job_lines.specs.declared.limits.TheConstants.{PROGRAM_LIMIT};
ghost use Rattle.job_types.specs.SoundJob.{BlocksFit};
ghost use Rattle.parallel_run.specs.Joining.{AreReady, IsMadeByScript, IsTurn};
ghost use Rattle.parallel_run.specs.ThreadRuns.{GoOnWith};
ghost use Rattle.sync_types.specs.Boards.{grant_in};

use arrayvec::ArrayVec;
use axis_sets::{CHANNEL_LIMIT, ChannelId};
use channel_machine::{Locals, Segment, next_segment};
use coord_core::{Board, ends_of};
use job_types::Job;
use out_of_memory::NoMemory;
use std::alloc::Global;
use std::sync::Wait;
use sync_types::{ChannelEnd, Grant, Item, Run, StartState};

/// A run that is not over.
#[derive(Drop)]
pub(crate) struct RunSoFar {
    /// The board of its entries.
    pub(crate) board: Board,
    /// What is kept of each channel after its last segment.
    pub(crate) locals: Locals,
    /// What the channel of each entry did before it.
    pub(crate) items: Vec<Vec<Item>>,
}

impl RunSoFar {
    /// A channel that runs with this grant makes its segment and its step.
    fn turn(
        &mut self,
        alloc: Global,
        job: &Job,
        channel: ChannelId,
        grant: &Grant,
    ) -> Result<(), NoMemory>
        requires blocks { BlocksFit job.now }
        requires programs { length job.now.programs ≤ PROGRAM_LIMIT }
        requires runs { grant_in ((replayed self.old.board).state channel) ≡ Some grant.now }
        requires ready { AreReady job.now self.old.locals.items }
        ensures ready { OnOk result (AreReady job.now self.new.locals.items) }
        ensures turn { OnOk result (IsTurn job.now channel grant.now self.old.board
            (map (λ items. items.items) self.old.items.items) self.old.locals.items self.new.board
            (map (λ items. items.items) self.new.items.items) self.new.locals.items) }
    {
        let place = usize::from(channel.number);
        let local = self.locals[place].take();
        let Segment {
            items: done,
            step,
            after,
        } = next_segment(alloc, job, channel, local, grant)?;
        self.board.act(channel, step)?;
        self.items.push(done)?;
        self.locals[place] = Some(after);
        Ok(())
    }

    /// The run of the board, with these ends.
    fn whole(self, ends: ArrayVec<ChannelEnd, CHANNEL_LIMIT>) -> Run
        ensures entries { result.entries ≡ self.board.entries }
        ensures items { result.items ≡ map (λ items. items.items) self.items.items }
        ensures ends { result.ends ≡ ends.items }
    {
        let RunSoFar {
            board,
            locals,
            items,
        } = self;
        drop(locals);
        Run {
            entries: board.into_entries(),
            items,
            ends,
        }
    }

    /// Lets what still runs go on, the lowest channel first, until none runs: the whole run. Each channel runs with a grant that
    /// fits it, since the run so far is one of the job.
    pub(crate) fn go_on<R: Wait>(
        self,
        rt: &R,
        alloc: Global,
        job: &Job,
        start: &StartState,
    ) -> Result<Run, NoMemory>
        requires blocks { BlocksFit job.now }
        requires programs { length job.now.programs ≤ PROGRAM_LIMIT }
        requires ready { AreReady job.now self.locals.items }
        requires start { self.board.start ≡ start.now }
        requires made { IsMadeByScript job.now start.now self.board.entries
            (map (λ items. items.items) self.items.items) self.locals.items }
        ensures maximal { IfOk result (IsMaximalRunOf job.now start.now) }
        ensures goes_on { IfOk result (λ run. GoOnWith start.now self.board.entries run.entries) }
    {
        let mut run = self;
        'turns: for _ in rt.forever() {
            let Some(channel) = run.board.lowest_running() else {
                let ends = ends_of(&run.board, start);
                return Ok(run.whole(ends));
            };
            let Some(grant) = run.board.grant_of(channel) else {
                unreachable!()
            };
            run.turn(alloc, job, channel, &grant)?;
        }
        unreachable!()
    }
}
