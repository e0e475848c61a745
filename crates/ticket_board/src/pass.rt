//! A pass: what the caller of a channel knows of a board, and its turns.
ghost use Rattle.std.specs.Prelude.{◌≡◌, ◌||◌, true, [], ◌∷◌, List, Some};
ghost use Rattle.coord_core.specs.Desks.{Looks, Acts, Closes, own_entries};
ghost use Rattle.coord_core.specs.Histories.{runs};
ghost use Rattle.sync_types.specs.Boards.{first_board};
ghost use Rattle.sync_types.specs.Turns.{AreEntries};
ghost use Rattle.ticket_board.specs.Passes.{Makes, PutsMark, told_of};
ghost use Rattle.ticket_board.specs.Rule.{fresh_part};
ghost use Rattle.ticket_board.specs.Steps.{all_but_first};
ghost use Rattle.ticket_board.specs.Turns.{part_in, first_pass, wants_memory};
ghost use Rattle.ticket_board.specs.declared.rule.ChannelPart.{ChannelPart};
ghost use Rattle.ticket_board.specs.declared.rule.Stage.TheVariants.{Idle};

use crate::rule::{SeatAt, Tickets};
use crate::steps::{join, split};
use crate::turn::{enter, leave};
use axis_sets::ChannelId;
use coord_core::Outcome;
use std::marker::Model;
use std::sync::Wait;
use sync_types::Step;

/// Names a channel at a [`TicketBoard`](crate::TicketBoard), with a seat at its table. A contract sees what the pass has
/// seen of the history, the entries that were made with it, and whether the closing mark was put with it.
#[derive(Drop)]
pub struct TicketPass {
    seat: SeatAt,
    channel: ChannelId,
}

impl Model for TicketPass {
    ghost use Rattle.ticket_board.specs.Passes.{TicketPassView};
    ghost use Rattle.ticket_board.specs.Turns.{IsPass, pass_view};

    ghost Value = { TicketPassView };

    ghost view = { λ p. pass_view p.seat.table_id p.seat.me p.channel };

    ghost invariant = { λ p. IsPass p.seat.me p.channel };
}

impl TicketPass {
    /// The channel. What the pass has seen is lawful, and its own entries are all that its channel has there. Where the closing
    /// mark was put with the pass, it has seen that.
    pub fn channel(&self) -> ChannelId
        ensures channel { result ≡ self.now.channel }
        ensures lawful { AreEntries (first_board self.now.start) self.now.seen.entries }
        ensures mine { own_entries self.now.channel self.now.seen.entries ≡ self.now.mine }
        ensures shut { self.now.shut ≡ true → self.now.seen.closed ≡ true }
    {
        self.channel
    }

    /// One turn that brings a step. The closing mark is put in it exactly where no memory is found.
    pub(crate) fn act_once<R: Wait>(
        &mut self,
        rt: &R,
        table: &Tickets,
        step: Step,
    ) -> Option<Outcome>
        requires table { (self.old.table_id ≡ table.now.table_id) × (table.now.table_id.words ≡ 3) }
        requires runs { runs self.old.start self.old.seen self.old.channel ≡ true }
        ensures table { self.new.table_id ≡ self.old.table_id }
        ensures mine { Makes self.old step result self.new }
        ensures acted { Acts (told_of self.old) step result (told_of self.new) }
        ensures seen { self.old.shut ≡ true → self.old.seen.closed ≡ true }
        ensures shut { self.new.shut ≡ (self.old.shut || wants_memory result) }
    {
        let mut held = enter(rt, table, &mut self.seat);
        let more = held.to_count();
        let answer = held.act(self.channel, step);
        leave(table, &mut self.seat, held, more);
        answer
    }

    /// One turn that looks.
    pub(crate) fn look_once<R: Wait>(&mut self, rt: &R, table: &Tickets) -> Option<Outcome>
        requires { (self.old.table_id ≡ table.now.table_id) × (table.now.table_id.words ≡ 3) }
        ensures table { self.new.table_id ≡ self.old.table_id }
        ensures mine { self.new.mine ≡ self.old.mine }
        ensures looked { Looks (told_of self.old) result (told_of self.new) }
        ensures shut { self.new.shut ≡ self.old.shut }
    {
        let held = enter(rt, table, &mut self.seat);
        let _more = held.to_count();
        let answer = held.look(self.channel);
        leave(table, &mut self.seat, held, 0);
        answer
    }

    /// One turn that closes the board.
    pub(crate) fn close_once<R: Wait>(&mut self, rt: &R, table: &Tickets)
        requires { (self.old.table_id ≡ table.now.table_id) × (table.now.table_id.words ≡ 3) }
        ensures table { self.new.table_id ≡ self.old.table_id }
        ensures mine { self.new.mine ≡ self.old.mine }
        ensures closes { Closes (told_of self.old) (told_of self.new) }
        ensures shut { PutsMark self.old self.new }
    {
        let mut held = enter(rt, table, &mut self.seat);
        let more = held.to_count();
        held.close();
        leave(table, &mut self.seat, held, more);
    }

    /// The first part of a seat that nobody has used, as a pass.
    pub(crate) fn cut(table: &Tickets, seat: &mut SeatAt, channel: ChannelId) -> TicketPass
        requires table { (seat.old.table_id ≡ table.now.table_id) × (table.now.table_id.words ≡ 3) }
        requires first { (seat.old.me.0.stage ≡ Idle)
            × ((ps : List ChannelPart) × (seat.old.me.0.parts ≡ fresh_part channel ∷ ps)) }
        ensures pass { result ≡ first_pass seat.old.table_id seat.old.me.0.start channel }
        ensures seat { (seat.new.table_id ≡ seat.old.table_id)
            × (seat.new.me ≡ (all_but_first seat.old.me.0, seat.old.me.1)) }
    {
        let mine = split(table, seat);
        let pass = TicketPass {
            seat: mine,
            channel,
        };
        pass
    }

    /// Gives its part to a seat that gathers them.
    pub(crate) fn give_up(self, table: &Tickets, all: &mut SeatAt)
        requires table { (self.table_id ≡ table.now.table_id) × (all.old.table_id ≡ table.now.table_id)
            × (table.now.table_id.words ≡ 3) }
        requires idle { all.old.me.0.stage ≡ Idle }
        ensures same { (all.new.table_id ≡ all.old.table_id) × (all.new.id ≡ all.old.id)
            × (all.new.me.1 ≡ all.old.me.1) }
        ensures joined { (all.new.me.0.stage ≡ Idle) × (all.new.me.0.parts ≡ part_in self ∷ all.old.me.0.parts) }
    {
        let TicketPass { seat, channel: _ } = self;
        join(table, all, seat);
    }
}
