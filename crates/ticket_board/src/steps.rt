//! The kinds of step at the table, each by a seat. The slot is moved by two of them, which change no view.
ghost use Rattle.std.specs.Prelude.{◌≡◌, ℕ, ◌+◌, ◌<◌, [], ◌∷◌, length, Some, None};
ghost use Rattle.coord_core.specs.Histories.{history_of};
ghost use Rattle.coord_core.specs.declared.locked.Locked.{Locked};
ghost use Rattle.ticket_board.specs.Rule.{length_with_mark};
ghost use Rattle.ticket_board.specs.Steps.{Draws, Reads, Counts, Goes, Serves, all_but_first, only_first, both_views};
ghost use Rattle.ticket_board.specs.declared.rule.ChannelPart.{ChannelPart};
ghost use Rattle.ticket_board.specs.declared.rule.Stage.TheVariants.{Idle, Waiting, Holding};

use crate::held::HeldBoard;
use crate::plays::{After, Count, Draw, JoinParts, Read, Serve, SplitFirst};
use crate::rule::{SeatAt, Tickets};

/// Draws a ticket.
pub(crate) fn draw(table: &Tickets, seat: &mut SeatAt) -> u64
    requires table { (seat.old.table_id ≡ table.now.table_id) × (table.now.table_id.words ≡ 3) }
    requires idle { (seat.old.me.0.stage ≡ Idle) × (0 < length seat.old.me.0.parts) }
    ensures same { (seat.new.table_id ≡ seat.old.table_id) × (seat.new.id ≡ seat.old.id) }
    ensures drawn { Draws seat.old.me result seat.new.me }
{
    table.fetch_add::<Draw>(seat, 0, 1)
}

/// Reads the number that is served, and takes the slot where it is the ticket of the seat.
pub(crate) fn read(table: &Tickets, seat: &mut SeatAt) -> u64
    requires table { (seat.old.table_id ≡ table.now.table_id) × (table.now.table_id.words ≡ 3) }
    requires waits { (0 < length seat.old.me.0.parts) × ((n : ℕ) × (seat.old.me.0.stage ≡ Waiting n)) }
    ensures same { (seat.new.table_id ≡ seat.old.table_id) × (seat.new.id ≡ seat.old.id) }
    ensures read { Reads seat.old.me result seat.new.me }
{
    table.load::<Read>(seat, 1)
}

/// Takes the board out of the slot that the seat holds.
pub(crate) fn take_board(table: &Tickets, seat: &mut SeatAt) -> HeldBoard
    requires table { seat.old.table_id ≡ table.now.table_id }
    requires holds { (l : Locked) × (seat.old.me.1 ≡ (0, Some l) ∷ []) }
    ensures same { (seat.new.table_id ≡ seat.old.table_id) × (seat.new.id ≡ seat.old.id) }
    ensures taken { (seat.old.me.1 ≡ (0, Some result) ∷ []) × (seat.new.me ≡ (seat.old.me.0, (0, None) ∷ [])) }
{
    match table.exchange(seat, 0, None) {
        Some(held) => held,
        None => unreachable!(),
    }
}

/// Counts what the caller has done to the board that it has taken out.
pub(crate) fn count<E: After>(table: &Tickets, seat: &mut SeatAt, held: &HeldBoard, more: u64)
    requires table { (seat.old.table_id ≡ table.now.table_id) × (table.now.table_id.words ≡ 3) }
    requires after { E.after ≡ history_of held.now }
    requires holds { (n : ℕ) × (seat.old.me.0.stage ≡ Holding n) }
    requires goes { (p : ChannelPart) × (seat.old.me.0.parts ≡ p ∷ []) × Goes seat.old.me.0.start p E.after more
        × (length_with_mark p.seen + more < 18446744073709551616) }
    ensures same { (seat.new.table_id ≡ seat.old.table_id) × (seat.new.id ≡ seat.old.id) }
    ensures counted { Counts E.after seat.old.me seat.new.me }
{
    let _ = held;
    table.fetch_add::<Count<E>>(seat, 2, more);
}

/// Puts the board back into the slot that the seat holds.
pub(crate) fn put_back(table: &Tickets, seat: &mut SeatAt, held: HeldBoard)
    requires table { seat.old.table_id ≡ table.now.table_id }
    requires holds { seat.old.me.1 ≡ (0, None) ∷ [] }
    ensures same { (seat.new.table_id ≡ seat.old.table_id) × (seat.new.id ≡ seat.old.id) }
    ensures put { seat.new.me ≡ (seat.old.me.0, (0, Some held) ∷ []) }
{
    table.exchange(seat, 0, Some(held));
}

/// Serves the next ticket, and gives the slot back.
pub(crate) fn serve(table: &Tickets, seat: &mut SeatAt)
    requires table { (seat.old.table_id ≡ table.now.table_id) × (table.now.table_id.words ≡ 3) }
    requires holds { (n : ℕ) × (l : Locked) × (p : ChannelPart) × (seat.old.me.0.stage ≡ Holding n)
        × (seat.old.me.0.parts ≡ p ∷ [])
        × (seat.old.me.1 ≡ (0, Some l) ∷ []) × (l.board.start ≡ seat.old.me.0.start) × (p.seen ≡ history_of l) }
    ensures same { (seat.new.table_id ≡ seat.old.table_id) × (seat.new.id ≡ seat.old.id) }
    ensures served { Serves seat.old.me seat.new.me }
{
    table.fetch_add::<Serve>(seat, 1, 1);
}

/// Cuts off a seat that has the part of the first channel.
pub(crate) fn split(table: &Tickets, seat: &mut SeatAt) -> SeatAt
    requires table { (seat.old.table_id ≡ table.now.table_id) × (table.now.table_id.words ≡ 3) }
    requires idle { seat.old.me.0.stage ≡ Idle }
    ensures same { (seat.new.table_id ≡ seat.old.table_id) × (result.table_id ≡ seat.old.table_id) }
    ensures cut { (seat.new.me ≡ (all_but_first seat.old.me.0, seat.old.me.1))
        × (result.me ≡ (only_first seat.old.me.0, [])) }
{
    table.split_seat::<SplitFirst>(seat)
}

/// Takes in the parts of another seat, before its own.
pub(crate) fn join(table: &Tickets, seat: &mut SeatAt, other: SeatAt)
    requires table { (seat.old.table_id ≡ table.now.table_id) × (other.table_id ≡ table.now.table_id)
        × (table.now.table_id.words ≡ 3) }
    requires idle { (seat.old.me.0.stage ≡ Idle) × (other.me.0.stage ≡ Idle) × (other.me.1 ≡ []) }
    ensures same { (seat.new.table_id ≡ seat.old.table_id) × (seat.new.id ≡ seat.old.id) }
    ensures glued { seat.new.me ≡ (both_views seat.old.me.0 other.me.0, seat.old.me.1) }
{
    table.join_seat::<JoinParts>(seat, other);
}
