//! What is true of every run that is over.
ghost use Rattle.std.specs.Prelude.{ℕ};
ghost use Rattle.explain_ends.specs.Missing.{WhoWaitsLacks};
ghost use Rattle.sync_types.specs.Boards.{Hold};
ghost use Rattle.sync_types.specs.Views.{RunView, StartView};

/// A law: a channel that still waits when a run is over lacks something. At a WAITM another channel that it names has not
/// raised the mark, at a WAITE a program that it names has not ended, and at a GET another channel owns an axis.
pub fn who_waits_lacks_something()
    ensures { (start : StartView) (run : RunView) (c : ℕ) (hold : Hold) (line : ℕ)
        → WhoWaitsLacks start run c hold line }
{}
