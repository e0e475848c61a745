//! The table: word 0 counts the tickets that were drawn, word 1 those that were served, and word 2 the entries of the
//! history with its closing mark. The slot holds the board, while no caller has taken it out.
use crate::held::HeldBoard;
use atomic_table::{Seat, Shared, TableRule};
use axis_sets::ChannelId;
use std::collections::LinkedList;
use std::marker::Model;
use sync_types::{Entry, StartState};

/// A beginning of the history. No value of it is made.
pub(crate) struct SeenHistory {
    entries: LinkedList<Entry>,
    closed: bool,
}

impl Model for SeenHistory {
    ghost use Rattle.coord_core.specs.Histories.{History};

    ghost Value = { History };

    ghost view = { λ h. record { entries = h.entries; closed = h.closed } };
}

/// What is known for one channel: what was seen of the history, the channel's own entries, and whether the closing mark was
/// put for it. No value of it is made.
pub(crate) struct ChannelPart {
    pub channel: ChannelId,
    pub seen: SeenHistory,
    pub mine: LinkedList<Entry>,
    pub shut: bool,
}

/// Whether a seat has a ticket, and whether that is served.
pub(crate) enum Stage {
    /// It has none.
    Idle,
    /// This one, which is not served yet.
    Waiting(u64),
    /// This one, which is served: it holds the slot.
    Holding(u64),
}

/// What a seat knows: where the board started, and a part for each channel that it speaks for. No value of it is made.
pub(crate) struct View {
    pub start: StartState,
    pub parts: LinkedList<ChannelPart>,
    pub stage: Stage,
}

/// The rule of the table.
pub(crate) struct Rules;

impl TableRule<Option<HeldBoard>, View, StartState> for Rules {
    ghost use Rattle.ticket_board.specs.Rule.{IsKept, first_view};

    ghost holds = { IsKept };

    ghost first = { first_view };
}

/// The table as callers share it.
pub(crate) type Tickets = Shared<Option<HeldBoard>, View, StartState, Rules>;

/// A seat at it.
pub(crate) type SeatAt = Seat<Option<HeldBoard>, View>;
