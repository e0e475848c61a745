//! Worked runs of channels that wait for one another: what comes of them by the rules of the board.
//!
//! Each clause is computed from the definitions alone, and no code runs for it.
#![tactic(auto)]

ghost use Rattle.coordination_tests.specs.MarkClocks.{ThreeMeetFiveTimes, LoweredTooSoon, LoweredLater, TwoOfThreeMeet, OwnMarkStands, OwnMarkAlone, SomeMarksLowered, EveryMarkLowered, MarkOutOfRange, ChannelUnknown, OneOfTwoGoes};
ghost use Rattle.coordination_tests.specs.AxisRows.{TurretAndSlide, AxisIsHandedOn, AxisIsTakenBack, AxisStaysFree, TwoAxesInTwoSteps, LowerTakesFirst, OwnAxesAreTaken, NotOwned, ZoneIsSplit, one_slide};
ghost use Rattle.coordination_tests.specs.StartRows.{StartedAndAwaited, StartedTwice, AwaitedInVain, NoneStarts, AwakeBeforeProgram, BothStart, AwaitsItself};
ghost use Rattle.coordination_tests.specs.GrantRows.{WhoLetsGo, WhoTakes, WhoIsStarted, ZoneGoesOff};
ghost use Rattle.coordination_tests.specs.EventRows.{OneByTheThird, TwoInOneStep};
ghost use Rattle.sync_types.specs.Starts.{IsSound};
ghost use Rattle.coordination_tests.specs.Meetings.{OneQuietRunOfTwo};

/// Channels meet at marks.
pub fn channels_meet_at_marks()
    ensures three_meet_five_times { ThreeMeetFiveTimes }
    ensures lowered_too_soon { LoweredTooSoon }
    ensures lowered_later { LoweredLater }
    ensures two_of_three_meet { TwoOfThreeMeet }
    ensures own_mark_stands { OwnMarkStands }
    ensures own_mark_alone { OwnMarkAlone }
    ensures some_marks_lowered { SomeMarksLowered }
    ensures every_mark_lowered { EveryMarkLowered }
    ensures mark_out_of_range { MarkOutOfRange }
    ensures channel_unknown { ChannelUnknown }
    ensures one_of_two_goes { OneOfTwoGoes }
{}

/// Channels let axes go and take them.
pub fn channels_take_axes()
    ensures turret_and_slide { TurretAndSlide }
    ensures axis_is_handed_on { AxisIsHandedOn }
    ensures axis_is_taken_back { AxisIsTakenBack }
    ensures axis_stays_free { AxisStaysFree }
    ensures two_axes_in_two_steps { TwoAxesInTwoSteps }
    ensures lower_takes_first { LowerTakesFirst }
    ensures own_axes_are_taken { OwnAxesAreTaken }
    ensures not_owned { NotOwned }
    ensures zone_is_split { ZoneIsSplit }
{}

/// Channels start one another and await their ends.
pub fn channels_start_one_another()
    ensures started_and_awaited { StartedAndAwaited }
    ensures started_twice { StartedTwice }
    ensures awaited_in_vain { AwaitedInVain }
    ensures none_starts { NoneStarts }
    ensures awake_before_program { AwakeBeforeProgram }
    ensures both_start { BothStart }
    ensures awaits_itself { AwaitsItself }
{}

/// What channels go on with.
pub fn channels_go_on_with_grants()
    ensures who_lets_go { WhoLetsGo }
    ensures who_takes { WhoTakes }
    ensures who_is_started { WhoIsStarted }
    ensures zone_goes_off { ZoneGoesOff }
{}

/// Which events are one.
pub fn events_are_one_or_apart()
    ensures one_by_the_third { OneByTheThird }
    ensures two_in_one_step { TwoInOneStep }
{}

/// A start state that is sound.
pub fn a_start_is_sound()
    ensures { IsSound one_slide }
{}

/// A script has a maximal run without a race, and another maximal run, which has the same result.
pub fn a_quiet_run_is_one_of_two()
    ensures { OneQuietRunOfTwo }
{}
