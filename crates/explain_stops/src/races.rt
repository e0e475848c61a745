//! What races are for, and which order would close them, by their letters.
ghost use Rattle.std.specs.Prelude.{◌≡◌, ◌==◌, map};
ghost use Rattle.std.specs.List.{find};
ghost use Rattle.explain_stops.specs.Races as model;

/// A race: its letter, what is raced for, and which order would close it.
pub(crate) type RaceRow = (u8, &'static str, &'static str);

/// How a mark is kept up until it was used.
const KEEP_UP: &str =
    "Let the lowering come after the WAITM has gone on. If the first place is a CLEARM, let its channel wait before it for another mark, which the second channel sets after its WAITM. If it is a WAITM, which lowers its own mark when it goes on, let both WAITMs name the same channels, each other among them.";

/// How all meet.
const ALL_MEET: &str =
    "Let all that are to meet at this mark number go on together: name in each WAITM of this number all of these channels, the same in each. If the first place is a CLEARM, let its channel wait before it for another mark, which the second channel sets after its WAITM.";

/// How an axis is taken in one order.
const ONE_AFTER_THE_OTHER: &str =
    "Let the channel that is to have the axis second wait, before its GET, for a mark that the other sets once it has had the axis and released it.";

/// The races.
pub(crate) static RACES: [RaceRow; 7] = [
    (
        b'a',
        "A mark. The first place lowers it, the second is a WAITM of another channel that names it, and nothing says which comes first. A WAITM that comes first can go on by the mark; one that comes after the lowering needs it to be raised again.",
        KEEP_UP,
    ),
    (
        b'b',
        "A mark. The second place is a WAITM that went on since the mark stood, and the first place lowers it. Nothing puts the lowering after that: had it come before, the WAITM would have waited.",
        KEEP_UP,
    ),
    (
        b'c',
        "A mark. The first place lowers it while the second, a WAITM that names it, still waits for other marks. Had those stood before, the second would have gone on too.",
        ALL_MEET,
    ),
    (
        b'd',
        "A mark number. Both places are WAITMs that go on in one step at one number, but they do not name the same channels: in another order one of them could have gone on without the other.",
        "Name in each WAITM of this number all channels that are to meet there, the same in each.",
    ),
    (
        b'e',
        "An axis. Both places are GETs of it, and nothing says which of them comes first.",
        ONE_AFTER_THE_OTHER,
    ),
    (
        b'f',
        "An axis. The first place got it while the second waited for it in a GET too: nothing says which of them gets it first.",
        ONE_AFTER_THE_OTHER,
    ),
    (
        b'g',
        "The start of a channel. Both places do INIT or START on the same channel, and nothing says which of them comes first.",
        "Let one channel alone do INIT and START on it, or let the channel that is to come second wait for a mark that the other sets after its INIT or START.",
    ),
];

/// The row of a letter; none where there is no such race.
fn row_of(rows: &[RaceRow], letter: u8) -> Option<RaceRow>
    ensures { result ≡ find (λ row. row.0 == letter) rows.now }
{
    rows.iter().copied().find(|row| row.0 == letter)
}

/// What the row of a letter says that is raced for; nothing where there is no such race.
fn prize_of(rows: &[RaceRow], letter: u8) -> &'static str
    ensures { result.now ≡ model.prize_of (map (λ row. (row.0, row.1.now, row.2.now)) rows.now) letter }
{
    match row_of(rows, letter) {
        Some(row) => row.1,
        None => "",
    }
}

/// What the row of a letter says that would close the race; nothing where there is no such race.
fn remedy_of(rows: &[RaceRow], letter: u8) -> &'static str
    ensures { result.now ≡ model.remedy_of (map (λ row. (row.0, row.1.now, row.2.now)) rows.now) letter }
{
    match row_of(rows, letter) {
        Some(row) => row.2,
        None => "",
    }
}

/// What was raced for, by the letter of the race; nothing where it is none of `a` to `g`.
pub fn race_prize(case: u8) -> &'static str
    ensures { result.now ≡ model.prize_of model.races case }
{
    prize_of(&RACES, case)
}

/// Which order would close a race, by its letter; nothing where it is none of `a` to `g`.
pub fn race_remedy(case: u8) -> &'static str
    ensures { result.now ≡ model.remedy_of model.races case }
{
    remedy_of(&RACES, case)
}
