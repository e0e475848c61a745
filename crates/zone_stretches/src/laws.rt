//! What is so of the time of zones in all runs.
ghost use Rattle.job_types.specs.Job.{JobView};
ghost use Rattle.zone_stretches.specs.ActiveParts.{ShareOutPlaces, StretchesShareOutPlaces, ZoneSpan, boxes_in};
ghost use Rattle.zone_stretches.specs.SoundStretches.{BoxesAreFew, BoxesHaveCovers, EndsAreLowestNames, OrdersCompareTheSame, PairsAreFew, StretchesAscend};
ghost use Rattle.zone_stretches.specs.Overlaps.{Order};
ghost use Rattle.sync_types.specs.Boards.{Board};
ghost use Rattle.sync_types.specs.Views.{RunView, StartView};

/// A law: each box of each stretch is the zone box of what the motion of its place covers, which is that of an item of the
/// stretch's entry, or of where the zone stands.
pub fn boxes_have_covers()
    ensures { (job : JobView) (b : Board) (run : RunView) → BoxesHaveCovers job b run }
{}

/// A law: each stretch begins and ends with an event by its lowest channel, where it does not begin with the job or last.
pub fn ends_are_lowest_names()
    ensures { (job : JobView) (b : Board) (run : RunView) → EndsAreLowestNames job b run }
{}

/// A law: in a whole run of fewer than 2^20 steps and 2^20 items each zone has fewer than 2^25 boxes, since a span has at most
/// one box more than items, and serves one zone at one time; so the pairs that are compared can be counted.
pub fn boxes_are_few()
    ensures boxes { (job : JobView) (start : StartView) (run : RunView) → BoxesAreFew job start run }
    ensures pairs { (before : Order) (job : JobView) (start : StartView) (run : RunView)
        → PairsAreFew before job start run }
{}

/// A law: two tests that both tell the order of the events of a run compare the same boxes, since each stretch begins and ends
/// with an event by its lowest channel.
pub fn orders_compare_the_same()
    ensures { (before other : Order) (job : JobView) (b : Board) (run : RunView)
        → OrdersCompareTheSame before other job b run }
{}

/// A law: each stretch of a zone begins with the event with which the one before it ends, and ends with a later event, where it
/// does not last; so the stretches of a zone never overlap.
pub fn stretches_ascend()
    ensures { (job : JobView) (start : StartView) (run : RunView) → StretchesAscend job start run }
{}

/// A law: at each place of a span one box of a zone holds where the zone is on, and none elsewhere. An active part is a longest row of
/// neighbouring places at which it is on. A part without a motion of the zone has one box, which stands; else each of its motions has a
/// box, the first from the part's beginning on and each other one from its own motion's place, up to the place before the next box's
/// motion or to the part's end. The boxes of each stretch of a run are those of such a span.
pub fn boxes_share_out_places()
    ensures spans { (span : ZoneSpan) → ShareOutPlaces span (boxes_in span) }
    ensures stretches { (job : JobView) (b : Board) (run : RunView) → StretchesShareOutPlaces job b run }
{}
