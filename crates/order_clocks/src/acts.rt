//! What an action changes.
ghost use Rattle.std.specs.Prelude.{◌≡◌, ℕ, ◌&&◌, not, false, true};
ghost use Rattle.axis_sets.specs.Sets.{has, members_of};
ghost use Rattle.order_clocks.specs.Happenings.{channels_touched};
ghost use Rattle.order_clocks.specs.Watching.{IsAct, IsNoAct, BeginIsSound, is_end, begun_shown};
ghost use Rattle.sync_types.specs.BoardActions.{others_than, marks_after, hold_of, axes_to_free, channels_to_start};
ghost use Rattle.sync_types.specs.BoardAlarms.{names_no_mark};
ghost use Rattle.sync_types.specs.Boards.{among};

use axis_sets::{
    AxisSet, ChannelId, ChannelSet, MARK_LIMIT, MarkSet, sets_are_known_by_their_members,
};
use step_deeds::Hold;
use sync_types::Action;

/// What an act of a channel changes.
#[derive(Clone, Copy)]
pub(crate) struct Act {
    /// Its marks that did not stand and now stand.
    pub(crate) raises: MarkSet,
    /// Its marks that stood and now do not.
    pub(crate) lowers: MarkSet,
    /// The axes that it lets go.
    pub(crate) frees: AxisSet,
    /// The channels that it starts.
    pub(crate) starts: ChannelSet,
    /// Whether its program ends.
    pub(crate) ends: bool,
    /// The wait that begins.
    pub(crate) begins: Option<Hold>,
}

/// The own marks that an action raises.
pub(crate) fn raises_of(action: &Action, own: MarkSet) -> MarkSet
    ensures { names_no_mark action.now ≡ false → (m : ℕ)
        → has result m ≡ (marks_after (has own) action.now m && not (has own m)) }
{
    match action {
        Action::WaitM(mark, _) => {
            if usize::from(*mark) < MARK_LIMIT {
                MarkSet::empty().with(*mark).minus(own)
            } else {
                MarkSet::empty()
            }
        }
        Action::SetM(marks) => marks.minus(own),
        _ => MarkSet::empty(),
    }
}

/// The own marks that an action lowers.
pub(crate) fn lowers_of(action: &Action, own: MarkSet) -> MarkSet
    ensures { (m : ℕ) → has result m ≡ (has own m && not (marks_after (has own) action.now m)) }
{
    match action {
        Action::ClearM(marks) => {
            if marks.is_empty() {
                own
            } else {
                own.minus(own.minus(*marks))
            }
        }
        _ => MarkSet::empty(),
    }
}

/// The axes that an action lets go.
pub(crate) fn frees_of(action: &Action) -> AxisSet
    ensures { (x : ℕ) → has result x ≡ among (axes_to_free action.now) x }
{
    sets_are_known_by_their_members();
    match action {
        Action::Release(axes) => *axes,
        _ => AxisSet::empty(),
    }
}

/// The channels that an action starts.
pub(crate) fn starts_of(action: &Action) -> ChannelSet
    ensures { (c : ℕ) → has result c ≡ among (channels_to_start action.now) c }
{
    sets_are_known_by_their_members();
    match action {
        Action::Start(named) => *named,
        _ => ChannelSet::empty(),
    }
}

/// The channels that INIT or START names.
pub(crate) fn touches_of(action: &Action) -> ChannelSet
    ensures { (c : ℕ) → has result c ≡ among (channels_touched action.now) c }
{
    sets_are_known_by_their_members();
    match action {
        Action::Init(target, _) => ChannelSet::empty().with(*target),
        Action::Start(named) => *named,
        _ => ChannelSet::empty(),
    }
}

/// Whether an action is a program end.
pub(crate) fn is_program_end(action: &Action) -> bool
    ensures { result ≡ is_end action.now }
{
    match action {
        Action::End => true,
        _ => false,
    }
}

/// The channels other than this one.
pub(crate) fn others_of(named: &ChannelSet, channel: ChannelId) -> ChannelSet
    ensures { members_of result ≡ others_than channel (members_of named.now) }
{
    if named.contains(channel) {
        named.without(channel)
    } else {
        *named
    }
}

/// The wait that an action begins.
pub(crate) fn begins_of(channel: ChannelId, action: &Action) -> Option<Hold>
    ensures hold { names_no_mark action.now ≡ false → begun_shown result ≡ hold_of channel action.now }
    ensures sound { BeginIsSound result }
{
    match action {
        Action::WaitM(mark, named) => {
            if usize::from(*mark) < MARK_LIMIT {
                Some(Hold::Marks(*mark, others_of(named, channel)))
            } else {
                None
            }
        }
        Action::WaitE(named) => Some(Hold::Ends(*named)),
        Action::Get(axes) => {
            let _size = axes.is_empty();
            Some(Hold::Axes(*axes))
        }
        _ => None,
    }
}

/// What an action that does not alarm changes.
pub(crate) fn act_of(channel: ChannelId, action: &Action, own: MarkSet) -> Act
    ensures act { names_no_mark action.now ≡ false → IsAct result channel (has own) action.now }
    ensures sound { BeginIsSound result.begins }
{
    Act {
        raises: raises_of(action, own),
        lowers: lowers_of(action, own),
        frees: frees_of(action),
        starts: starts_of(action),
        ends: is_program_end(action),
        begins: begins_of(channel, action),
    }
}

/// What an action that alarms changes.
pub(crate) fn no_act() -> Act
    ensures none { IsNoAct result }
    ensures sound { BeginIsSound result.begins }
{
    Act {
        raises: MarkSet::empty(),
        lowers: MarkSet::empty(),
        frees: AxisSet::empty(),
        starts: ChannelSet::empty(),
        ends: false,
        begins: None,
    }
}

/// What an act changes.
pub(crate) fn changes_of(channel: ChannelId, action: &Action, own: MarkSet, alarms: bool) -> Act
    ensures act { alarms ≡ false → names_no_mark action.now ≡ false → IsAct result channel (has own) action.now }
    ensures none { alarms ≡ true → IsNoAct result }
    ensures sound { BeginIsSound result.begins }
{
    if alarms {
        no_act()
    } else {
        act_of(channel, action, own)
    }
}
