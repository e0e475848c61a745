//! Why no boxes of any two zones are compared.
ghost use Rattle.std.specs.Prelude.{◌≡◌, ◌||◌, ◌++◌};
ghost use Rattle.explain_pairs.specs.Reasons as model;

use crate::pairs::{PairKind, ZonePair};
use growing_text::Text;

/// Whether boxes of two zones are compared.
fn is_compared(kind: &PairKind) -> bool
    ensures { result ≡ model.is_compared kind.now }
{
    match kind {
        PairKind::OneGroup => false,
        PairKind::NeverOn(_) => false,
        PairKind::Compared(_) => true,
        PairKind::OneChannel(_) => false,
        PairKind::Coordinated => false,
    }
}

/// Whether two zones are of one group.
fn is_one_group(kind: &PairKind) -> bool
    ensures { result ≡ model.is_one_group kind.now }
{
    match kind {
        PairKind::OneGroup => true,
        PairKind::NeverOn(_) => false,
        PairKind::Compared(_) => false,
        PairKind::OneChannel(_) => false,
        PairKind::Coordinated => false,
    }
}

/// Whether one of two zones is never on.
fn is_never_on(kind: &PairKind) -> bool
    ensures { result ≡ model.is_never_on kind.now }
{
    match kind {
        PairKind::OneGroup => false,
        PairKind::NeverOn(_) => true,
        PairKind::Compared(_) => false,
        PairKind::OneChannel(_) => false,
        PairKind::Coordinated => false,
    }
}

/// Whether the order of one channel's blocks keeps two zones apart.
fn is_one_channel(kind: &PairKind) -> bool
    ensures { result ≡ model.is_one_channel kind.now }
{
    match kind {
        PairKind::OneGroup => false,
        PairKind::NeverOn(_) => false,
        PairKind::Compared(_) => false,
        PairKind::OneChannel(_) => true,
        PairKind::Coordinated => false,
    }
}

/// Whether coordination keeps two zones apart.
fn is_coordinated(kind: &PairKind) -> bool
    ensures { result ≡ model.is_coordinated kind.now }
{
    match kind {
        PairKind::OneGroup => false,
        PairKind::NeverOn(_) => false,
        PairKind::Compared(_) => false,
        PairKind::OneChannel(_) => false,
        PairKind::Coordinated => true,
    }
}

/// Whether boxes of some two zones are compared.
fn has_compared(rows: &[ZonePair]) -> bool
    ensures { result ≡ model.has_kind model.is_compared rows.now }
{
    rows.iter().any(|row| is_compared(&row.kind))
}

/// Whether some two zones are of one group.
fn has_one_group(rows: &[ZonePair]) -> bool
    ensures { result ≡ model.has_kind model.is_one_group rows.now }
{
    rows.iter().any(|row| is_one_group(&row.kind))
}

/// Whether of some two zones one is never on.
fn has_never_on(rows: &[ZonePair]) -> bool
    ensures { result ≡ model.has_kind model.is_never_on rows.now }
{
    rows.iter().any(|row| is_never_on(&row.kind))
}

/// Whether the order of one channel's blocks keeps some two zones apart.
fn has_one_channel(rows: &[ZonePair]) -> bool
    ensures { result ≡ model.has_kind model.is_one_channel rows.now }
{
    rows.iter().any(|row| is_one_channel(&row.kind))
}

/// Whether coordination keeps some two zones apart.
fn has_coordinated(rows: &[ZonePair]) -> bool
    ensures { result ≡ model.has_kind model.is_coordinated rows.now }
{
    rows.iter().any(|row| is_coordinated(&row.kind))
}

/// Whether no boxes of any two zones are compared.
pub fn is_none_compared(rows: &[ZonePair]) -> bool
    ensures { result ≡ model.is_none_compared rows.now }
{
    !has_compared(rows)
}

/// Says what stands before a reason.
fn say_link(text: &mut Text, later: bool)
    ensures { text.new ≡ text.old ++ model.link_text later }
{
    if later {
        text.say(", or ");
    } else {
        text.say(" ");
    }
}

/// Says a reason where it holds: behind the word "or" where another stands before it.
#[tactic(auto, unfolding(crate::specs::Reasons::reason_text))]
fn say_reason(text: &mut Text, later: bool, holds: bool, reason: &str)
    ensures { text.new ≡ text.old ++ model.reason_text later holds reason.now }
{
    if holds {
        say_link(text, later);
        text.say(reason);
    }
}

/// Whether one of two reasons holds.
fn either(one: bool, other: bool) -> bool
    ensures { result ≡ (one || other) }
{
    one || other
}

/// Says each reason that holds.
#[tactic(auto, unfolding(crate::specs::Reasons::reasons_by))]
fn say_reasons_by(text: &mut Text, group: bool, never: bool, channel: bool, marks: bool)
    ensures { text.new ≡ text.old ++ model.reasons_by group never channel marks }
{
    let early = either(group, never);
    let before = either(early, channel);
    say_reason(text, false, group, "are of one group");
    say_reason(text, group, never, "have one that is never on");
    say_reason(
        text,
        early,
        channel,
        "are kept apart in time by the order of one channel's blocks",
    );
    say_reason(
        text,
        before,
        marks,
        "are kept apart in time by marks or other coordination",
    );
}

/// Says each reason that some two zones have.
#[tactic(auto, unfolding(crate::specs::Reasons::reasons_text))]
fn say_reasons(text: &mut Text, rows: &[ZonePair])
    ensures { text.new ≡ text.old ++ model.reasons_text rows.now }
{
    let group = has_one_group(rows);
    let never = has_never_on(rows);
    let channel = has_one_channel(rows);
    let marks = has_coordinated(rows);
    say_reasons_by(text, group, never, channel, marks);
}

/// Says why none are compared.
#[tactic(auto, unfolding(crate::specs::Reasons::why_text))]
fn say_why(text: &mut Text, rows: &[ZonePair])
    ensures { text.new ≡ text.old ++ model.why_text rows.now }
{
    if rows.is_empty() {
        text.say("the job has no two zones");
    } else {
        text.say("each two");
        say_reasons(text, rows);
    }
}

/// Says the verdict YES in one line where no boxes of any two zones were compared, with the reasons for it.
#[tactic(auto, unfolding(crate::specs::Reasons::none_compared_text))]
pub fn say_none_compared(text: &mut Text, rows: &[ZonePair])
    ensures { text.new ≡ text.old ++ model.none_compared_text rows.now }
{
    text.say("YES, but no two zones were compared: ");
    say_why(text, rows);
    text.say(".\n");
}
