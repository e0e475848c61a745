//! How near two groups come to each other, said.
ghost use Rattle.std.specs.Prelude.{◌≡◌, ◌++◌};
ghost use Rattle.explain_texts.specs.Room as room;

use growing_text::Text;

/// By how much two boxes are apart that reach so far into each other; `reach` and the answer are in micrometres.
pub fn apart_of(reach: i64) -> i64
    ensures { result ≡ room.apart_of reach }
{
    (0i64).saturating_sub(reach)
}

/// By how much the margin could be greater where boxes are so far `apart`: both grow at the ends that face each other.
#[tactic(auto, unfolding(crate::specs::Room::margin_left))]
pub fn margin_left(apart: i64) -> i64
    ensures { result ≡ room.margin_left apart }
{
    if apart <= 0 { 0 } else { (apart - 1) / 2 }
}

/// Says two groups by their numbers.
#[tactic(auto, unfolding(crate::specs::Room::groups_text))]
pub fn say_two_groups(text: &mut Text, groups: (u8, u8))
    ensures { text.new ≡ text.old ++ room.groups_text groups }
{
    text.say("Groups ");
    text.number(u64::from(groups.0));
    text.say(" and ");
    text.number(u64::from(groups.1));
}

/// Says that two groups come so near, `apart`, and that the margin could be greater by what is `left`; both in micrometres.
#[tactic(auto, unfolding(crate::specs::Room::room_text))]
pub fn say_room(text: &mut Text, apart: i64, left: i64)
    ensures { text.new ≡ text.old ++ room.room_text apart left }
{
    text.say(" come as near as ");
    text.millimetres(apart);
    text.say(" mm: MARGIN could be ");
    text.millimetres(left);
    text.say(" greater.\n");
}
