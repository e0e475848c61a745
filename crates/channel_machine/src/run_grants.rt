//! With which grants a channel makes its steps in a run.
ghost use Rattle.std.specs.Prelude.{◌≡◌, ◌==◌, ◌++◌, IfOk, OnOk};
ghost use Rattle.channel_machine.specs.RunGrants as model;
ghost use Rattle.sync_types.specs.Boards.{first_board};
ghost use Rattle.sync_types.specs.Starts.{IsSound};
ghost use Rattle.sync_types.specs.Turns.{AreEntries};

use axis_sets::ChannelId;
use coord_core::Board;
use out_of_memory::NoMemory;
use std::alloc::{AllocError, Global};
use sync_types::{Entry, Grant, StartState};

/// Whether the channel that acts is this one.
fn is_own(acting: ChannelId, channel: ChannelId) -> bool
    ensures { result ≡ (acting == channel) }
{
    acting == channel
}

/// Adds the grant of the channel that acts, where it is this one.
fn push_own(
    grants: &mut Vec<Grant>,
    channel: ChannelId,
    acting: ChannelId,
    grant: &Grant,
) -> Result<(), AllocError>
    ensures { OnOk result (grants.new.items ≡ grants.old.items ++ model.own_grant channel acting grant.now) }
{
    if is_own(acting, channel) {
        grants.push(*grant)?;
    }
    Ok(())
}

/// The grants with which a channel makes its steps in a run from this start, in order: the board has one for each of its steps.
/// The only error is want of memory.
pub fn grants_in(
    alloc: Global,
    start: &StartState,
    entries: &[Entry],
    channel: ChannelId,
) -> Result<Vec<Grant>, NoMemory>
    requires sound { IsSound start.now }
    ensures { IfOk result (λ grants. AreEntries (first_board start.now) entries.now
        → grants.items ≡ model.grants_of start.now entries.now channel) }
{
    let mut board = Board::new(alloc, start)?;
    let mut grants = Vec::new(alloc);
    for entry in entries {
        let acting = entry.channel();
        let Some(grant) = board.grant_of(acting) else {
            return Ok(grants);
        };
        push_own(&mut grants, channel, acting, &grant)?;
        board.act(acting, *entry.step())?;
    }
    Ok(grants)
}
