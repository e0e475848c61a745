//! What each kind of step tells the seat that makes it.
use crate::held::HeldBoard;
use crate::rule::View;
use atomic_table::{Join, Play, Split};
use std::marker::{Brand, PhantomData};

/// A ticket is drawn.
pub(crate) struct Draw;

impl Play<Option<HeldBoard>, View> for Draw {
    ghost use Rattle.ticket_board.specs.Steps.{Draws};

    ghost then = { λ st m r m'. Draws m r m' };
}

/// The number served is read.
pub(crate) struct Read;

impl Play<Option<HeldBoard>, View> for Read {
    ghost use Rattle.ticket_board.specs.Steps.{Reads};

    ghost then = { λ st m r m'. Reads m r m' };
}

/// The history after a count.
pub(crate) trait After {
    ghost use Rattle.coord_core.specs.Histories.{History};

    ghost after: { History };
}

impl After for Brand {
    ghost use Rattle.ticket_board.specs.Passes.{no_history};

    ghost after = { no_history };
}

/// What was done to the board is counted.
pub(crate) struct Count<E> {
    after: PhantomData<E>,
}

impl<E: After> Play<Option<HeldBoard>, View> for Count<E> {
    ghost use Rattle.ticket_board.specs.Steps.{Counts};

    ghost then = { λ st m r m'. Counts E.after m m' };
}

/// The next ticket is served.
pub(crate) struct Serve;

impl Play<Option<HeldBoard>, View> for Serve {
    ghost use Rattle.ticket_board.specs.Steps.{Serves};

    ghost then = { λ st m r m'. Serves m m' };
}

/// The part of the first channel goes to a seat of its own.
pub(crate) struct SplitFirst;

impl Split<View> for SplitFirst {
    ghost use Rattle.ticket_board.specs.Steps.{all_but_first, only_first};

    ghost left = { all_but_first };

    ghost right = { only_first };
}

/// The parts of two seats come together.
pub(crate) struct JoinParts;

impl Join<View> for JoinParts {
    ghost use Rattle.ticket_board.specs.Steps.{both_views, spent_view};

    ghost both = { both_views };

    ghost spent = { spent_view };
}

/// A seat comes with no part.
pub(crate) struct SeatPlay;

impl Play<Option<HeldBoard>, View> for SeatPlay {
    ghost use Rattle.ticket_board.specs.Steps.{Sits};

    ghost then = { λ st m r m'. Sits m' };
}
