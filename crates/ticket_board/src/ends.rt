//! A board is made, and given back.
ghost use Rattle.std.specs.Prelude.{◌≡◌, [], map, IfOk, length, All};
ghost use Rattle.sync_types.specs.Boards.{first_board};
ghost use Rattle.sync_types.specs.Starts.{IsSound, has_channel};
ghost use Rattle.sync_types.specs.Turns.{AreEntries};
ghost use Rattle.ticket_board.specs.Passes.{HasOneHistory, IsPassOf, channels_of, fresh_passes};
ghost use Rattle.ticket_board.specs.Rule.{first_view};

use crate::board::TicketBoard;
use crate::held::HeldBoard;
use crate::pass::TicketPass;
use crate::plays::SeatPlay;
use crate::rule::{Rules, SeatAt, View};
use atomic_table::Table;
use axis_sets::{CHANNEL_PLACES, ChannelId};
use coord_core::Board;
use out_of_memory::NoMemory;
use std::alloc::Global;
use sync_types::StartState;

/// The table at its start, with a seat that has the parts of all channels.
fn make_table(
    alloc: Global,
    start: &StartState,
) -> Result<
    (
        Table<Option<HeldBoard>, View, StartState, Rules, Global>,
        SeatAt,
    ),
    NoMemory,
>
    requires { IsSound start.now }
    ensures { IfOk result (λ t. (t.0.shared.table_id.words ≡ 3) × (t.0.shared.table_id.slots ≡ 1)
        × (t.1.table_id ≡ t.0.shared.table_id)
        × (t.1.me ≡ (first_view start.now, [])) × (t.0.shared.key ≡ start.now)) }
{
    let held = HeldBoard::new(alloc, start)?;
    let mut slots = Vec::new(alloc);
    slots.push(Some(held))?;
    match Table::new(alloc, &[0, 0, 0], slots, start) {
        Ok(made) => Ok(made),
        Err(_) => Err(NoMemory),
    }
}

/// Whether the start has the channel.
fn has_channel(start: &StartState, channel: ChannelId) -> bool
    ensures { result ≡ has_channel start.now channel }
{
    start.channels.iter().any(|line| line.0 == channel)
}

impl TicketBoard {
    /// A board at this start with no entry yet, and a pass for each of its channels, the lowest first. The only error is want
    /// of memory.
    pub fn new(
        alloc: Global,
        start: &StartState,
    ) -> Result<(TicketBoard, Vec<TicketPass>), NoMemory>
        requires sound { IsSound start.now }
        ensures start { IfOk result (λ made. made.0.start ≡ start.now) }
        ensures passes { IfOk result (λ made. made.1.items ≡ fresh_passes made.0) }
    {
        let (table, mut seat) = make_table(alloc, start)?;
        let mut passes = Vec::new(alloc);
        for number in 1..CHANNEL_PLACES {
            let channel = ChannelId {
                number: number as u8,
            };
            if has_channel(start, channel) {
                passes.push(TicketPass::cut(&table.shared, &mut seat, channel))?;
            }
        }
        Ok((TicketBoard { table }, passes))
    }

    /// The board of the one history, once all its passes are back. It takes no memory.
    pub fn finish(self, passes: Vec<TicketPass>) -> Board
        requires own { All (IsPassOf self) passes.items }
        requires all { length passes.items ≡ length (channels_of self.start) }
        ensures start { result.start ≡ self.start }
        ensures lawful { AreEntries (first_board result.start) result.entries }
        ensures history { HasOneHistory passes.items result }
    {
        let TicketBoard { table } = self;
        let (_, mut all) = table.shared.load_new_seat::<SeatPlay>(0);
        let mut passes = passes;
        while let Some(pass) = passes.pop() {
            pass.give_up(&table.shared, &mut all);
        }
        let mut closed = table.close_with(all);
        let slot = closed.take(0);
        closed.free();
        match slot {
            Some(held) => held.into_board(),
            None => unreachable!(),
        }
    }
}
