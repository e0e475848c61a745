//! A turn at the board, by a seat: what comes before it and after it.
ghost use Rattle.std.specs.Prelude.{◌≡◌, ℕ, ◌+◌, ◌<◌, [], ◌∷◌, length, Some, None};
ghost use Rattle.coord_core.specs.Histories.{history_of};
ghost use Rattle.ticket_board.specs.Rule.{AreLawful, Fits, length_with_mark};
ghost use Rattle.ticket_board.specs.Steps.{Goes, with_seen, with_count};
ghost use Rattle.ticket_board.specs.Turns.{part_of};
ghost use Rattle.ticket_board.specs.declared.rule.ChannelPart.{ChannelPart};
ghost use Rattle.ticket_board.specs.declared.rule.Stage.TheVariants.{Idle, Waiting, Holding};

use crate::held::HeldBoard;
use crate::rule::{SeatAt, Tickets};
use crate::steps::{count, draw, put_back, read, serve, take_board};
use crossbeam_utils::Backoff;
use std::marker::Brand;
use std::sync::Wait;

/// Draws a ticket, reads the number served until it is the ticket, and takes the board out.
pub(crate) fn enter<R: Wait>(rt: &R, table: &Tickets, seat: &mut SeatAt) -> HeldBoard
    requires table { (seat.old.table_id ≡ table.now.table_id) × (table.now.table_id.words ≡ 3) }
    requires idle { (seat.old.me.0.stage ≡ Idle) × (seat.old.me.1 ≡ [])
        × (seat.old.me.0.parts ≡ part_of seat.old.me.0 ∷ []) }
    ensures same { (seat.new.table_id ≡ seat.old.table_id) × (seat.new.id ≡ seat.old.id) }
    ensures entered { (n : ℕ)
        × (seat.new.me ≡ (
          record {
            start = seat.old.me.0.start;
            parts = with_seen (history_of result) (part_of seat.old.me.0) ∷ [];
            stage = Holding n;
          },
          (0, None) ∷ [],
        )) }
    ensures board { (result.board.start ≡ seat.old.me.0.start) × AreLawful seat.old.me.0.start result.board.entries
        × Fits seat.old.me.0.start (history_of result) (part_of seat.old.me.0) }
{
    let ticket = draw(table, seat);
    let backoff = Backoff::new();
    for _ in rt.forever() {
        if read(table, seat) == ticket {
            return take_board(table, seat);
        }
        backoff.snooze();
    }
    unreachable!()
}

/// Counts what was done to the board, puts it back and serves the next ticket.
pub(crate) fn leave(table: &Tickets, seat: &mut SeatAt, held: HeldBoard, more: u64)
    requires table { (seat.old.table_id ≡ table.now.table_id) × (table.now.table_id.words ≡ 3) }
    requires holds { (n : ℕ) × (seat.old.me.0.stage ≡ Holding n) }
    requires slot { (seat.old.me.1 ≡ (0, None) ∷ []) × (seat.old.me.0.parts ≡ part_of seat.old.me.0 ∷ []) }
    requires board { (held.board.start ≡ seat.old.me.0.start)
        × Goes seat.old.me.0.start (part_of seat.old.me.0) (history_of held) more
        × (length_with_mark (part_of seat.old.me.0).seen + more < 18446744073709551616) }
    ensures same { (seat.new.table_id ≡ seat.old.table_id) × (seat.new.id ≡ seat.old.id) }
    ensures left { seat.new.me ≡ (
      record {
        start = seat.old.me.0.start;
        parts = with_count (history_of held) (part_of seat.old.me.0) ∷ [];
        stage = Idle;
      },
      [],
    ) }
{
    count::<Brand>(table, seat, &held, more);
    put_back(table, seat, held);
    serve(table, seat);
}
