//! The turns at a board that may be closed. Each is made by one caller, to whom the board is lent for it.
ghost use Rattle.std.specs.Prelude.{◌≡◌};
ghost use Rattle.coord_core.specs.BoardTurns.{Brings, IsTurnOfRun, closed_after};
ghost use Rattle.coord_core.specs.Closing.{StaysClosed};
ghost use Rattle.coord_core.specs.Histories.{history_of, answer_of};

use crate::{ChannelState, Locked, Outcome};
use axis_sets::ChannelId;
use out_of_memory::NoMemory;
use sync_types::Step;

/// What a channel is told, or `None` where it has to wait. One that the board has not is idle.
#[tactic(auto, using(crate::proofs::ClosedBoards::stays_closed))]
pub fn look_turn(locked: &Locked, channel: ChannelId) -> Option<Outcome>
    ensures answer { result ≡ answer_of locked.now.board.start (history_of locked.now) channel }
    ensures stays_closed { StaysClosed locked.now.board.start (history_of locked.now) }
{
    if locked.closed {
        return Some(Outcome::Closed);
    }
    if let Some(grant) = locked.board.grant_of(channel) {
        return Some(Outcome::Granted(grant));
    }
    match locked.board.state_of(channel) {
        ChannelState::Ended(_) | ChannelState::Alarmed(_) => Some(Outcome::Done),
        _ if locked.board.is_over() => Some(Outcome::Over),
        _ => None,
    }
}

/// Brings a step of a channel, and answers what [`look_turn`] then does. Where the board was closed before, or the
/// channel does not run, the step is dropped. Where no memory is found for it the board is closed, and the answer
/// is `NoMemory`.
#[tactic(auto, using(crate::proofs::ClosedBoards::stays_closed, crate::proofs::RunTurns::is_turn_of_run))]
pub fn act_turn(locked: &mut Locked, channel: ChannelId, step: Step) -> Option<Outcome>
    ensures start { locked.new.board.start ≡ locked.old.board.start }
    ensures turn { Brings locked.old.board.start channel step (history_of locked.old) result (history_of locked.new) }
    ensures run { IsTurnOfRun locked.old.board.start channel step (history_of locked.old) (history_of locked.new) }
    ensures stays_closed { StaysClosed locked.new.board.start (history_of locked.new) }
{
    if locked.closed || locked.board.grant_of(channel).is_none() {
        return look_turn(locked, channel);
    }
    match locked.board.act(channel, step) {
        Ok(()) => look_turn(locked, channel),
        Err(NoMemory) => {
            close_turn(locked);
            Some(Outcome::NoMemory)
        }
    }
}

/// Closes the board. It takes no memory.
pub fn close_turn(locked: &mut Locked)
    ensures board { locked.new.board ≡ locked.old.board }
    ensures turn { history_of locked.new ≡ closed_after (history_of locked.old) }
{
    locked.closed = true;
}
