//! What is true of every board that several share.
ghost use Rattle.std.specs.Prelude.{ℕ, List};
ghost use Rattle.coord_core.specs.DeskLaws.{RunsOn, IsSeenRunning, TellsWhatIs};
ghost use Rattle.coord_core.specs.Histories.{History};
ghost use Rattle.sync_types.specs.Boards.{Board};
ghost use Rattle.sync_types.specs.Views.{StartView, EntryView};

/// A law: a channel that runs stays as it is while others make steps, so what a pass has seen to run still runs.
pub fn others_let_a_channel_run()
    ensures board { (b : Board) (c : ℕ) (entries : List EntryView) → RunsOn b c entries }
    ensures seen { (start : StartView) (c : ℕ) (seen later : History) → IsSeenRunning start c seen later }
{}

/// A law: a look tells `Closed` only of a closed board, `Granted` only of a channel that runs, with its grant, and never
/// `NoMemory`.
pub fn a_look_tells_what_is()
    ensures { (start : StartView) (history : History) (c : ℕ) → TellsWhatIs start history c }
{}
