//! The groups of words, and the words that hold from block to block.
#![tactic(auto)]

ghost use Rattle.std.specs.Prelude.{◌≡◌, ℕ, ◌<◌, List, [], ◌∷◌, ◌++◌, not, map, slice_index, codes, IsTrue, MatchResult, IfOk, ◌==◌, if◌then◌else◌};
ghost use Rattle.std.specs.List.{list_any, list_all};
ghost use Rattle.g_groups.specs.declared.GWord.{GWord};
ghost use Rattle.g_groups.specs.Groups.{HasModalValue, IsNamed, groups, has_start, are_apart, codes_from};
ghost use Rattle.g_groups.specs.Modal.{IsAfter, modal_word, has_group_twice, last_code, words_of};

mod numbers;

pub use numbers::{
    ACCELERATION_GROUP, APPROACH_GROUP, AREA_GROUP, AREA_SWITCH_GROUP, BLOCK_GROUP, BRISK,
    CODE_LIMIT, CORNER_GROUP, DIAM90, DIAMETER_GROUP, DIAMOF, DIAMON, DIMENSION_GROUP, DWELL_GROUP,
    FEED_FORWARD_GROUP, FEED_GROUP, FFWOF, FFWON, GROUP_TWICE, KONT, MOTION_GROUP, NORM,
    OFFSET_GROUP, PATH_GROUP, PLANE_GROUP, RADIUS_GROUP, RAPID_GROUP, RTLIOF, RTLION, SOFT,
    STOP_GROUP, STOP_WIDTH_GROUP, SUPA, UNIT_GROUP, WALIMOF, WALIMON,
};
use std::marker::Model;

/// One more than the greatest number of a group.
const GROUPS: usize = 30;

/// The words that hold at the start, by groups; 0 for a group with no such word.
const START: [u16; GROUPS] = [
    1, 1, 0, 0, 0, 0, 18, 40, 500, 0, 60, 0, 0, 71, 90, 0, 0, 0, 0, 0, 0, 0, 0, 0, 0, 0, 0, 0, 0, 2,
];

/// A word of a group. A word that is not in the table of groups counts like one that is.
#[derive(Clone, Copy, PartialEq, Eq)]
pub struct GWord {
    /// The number of the group.
    pub group: u8,
    /// The number after G, or the place of a name among the words of its group, from 1.
    pub code: u16,
}

/// The words that hold, one for each group.
///
/// A contract sees their codes as a list, by the numbers of the groups.
#[derive(Clone, Copy)]
pub struct Modal {
    words: [u16; GROUPS],
}

impl Model for Modal {
    ghost use Rattle.std.specs.Prelude.{List, ℕ};

    ghost Value = { List ℕ };

    ghost view = { λ m. m.words };

    ghost inverse = { λ words. record { words = words } };
}

impl Modal {
    /// The words that hold before the first block.
    pub fn start() -> Modal
        ensures { IsAfter [] result }
    {
        Modal { words: START }
    }

    /// The code of the word of this group that holds, or 0 where none does: in the group of G53,
    /// where the last block has no such word.
    pub fn word(&self, group: u8) -> u16
        requires { HasModalValue group }
        ensures state { result ≡ slice_index self.now group }
        ensures history { (blocks : List (List GWord)) → IsAfter blocks self.now → result ≡ modal_word blocks group }
    {
        self.words[usize::from(group)]
    }
}

/// The words that hold after one more block, which has these words. The order of words of different
/// groups means nothing.
///
/// The fault is alarm 10: two words of one group stand in the block, be it the same word twice.
pub fn apply(modal: &Modal, codes: &[GWord]) -> Result<Modal, u16>
    ensures twice { MatchResult result
        (λ _. IsTrue (not (has_group_twice codes.now)))
        (λ e. (e ≡ GROUP_TWICE) × IsTrue (has_group_twice codes.now)) }
    ensures after { IfOk result (λ m. (blocks : List (List GWord)) → IsAfter blocks modal.now
        → IsAfter (blocks ++ codes.now ∷ []) m) }
{
    if is_group_twice(codes) {
        return Err(GROUP_TWICE);
    }
    Ok(Modal {
        words: with_words(past_block(modal.words), codes),
    })
}

/// Whether two of the words have one group.
fn is_group_twice(codes: &[GWord]) -> bool
    ensures { result ≡ has_group_twice codes.now }
{
    for (index, word) in codes.iter().enumerate() {
        if has_word_of(&codes[index + 1..], word.group) {
            return true;
        }
    }
    false
}

/// Whether one of the words has this group.
fn has_word_of(codes: &[GWord], group: u8) -> bool
    ensures { result ≡ list_any (λ word. word.group == group) codes.now }
{
    codes.iter().any(|word| word.group == group)
}

/// The words by groups, without the word that held in its block alone.
fn past_block(mut words: [u16; GROUPS]) -> [u16; GROUPS]
    ensures { (group : ℕ) → group < GROUPS
        → slice_index result group ≡ (if group == BLOCK_GROUP then 0 else slice_index words group) }
{
    words[usize::from(BLOCK_GROUP)] = 0;
    words
}

/// The words by groups, where those of a block take the place of earlier ones.
fn with_words(mut words: [u16; GROUPS], codes: &[GWord]) -> [u16; GROUPS]
    ensures { (group : ℕ) → group < GROUPS
        → slice_index result group ≡ last_code (slice_index words group) (words_of group codes.now) }
{
    for word in codes {
        put_word(&mut words, *word);
    }
    words
}

/// Puts a word in the place of the earlier one of its group.
fn put_word(words: &mut [u16; GROUPS], word: GWord)
    ensures { (group : ℕ) → group < GROUPS
        → slice_index words.new group ≡ (if word.group == group then word.code else slice_index words.old group) }
{
    let group = usize::from(word.group);
    if group < GROUPS {
        words[group] = word.code;
    }
}

/// A law of the table: each group stands in it once, no word stands twice in a group, the word that
/// holds at the start is one of its group, and the codes that have names are those of these names.
pub fn table_is_sound()
    ensures groups_apart { IsTrue (are_apart (map (λ group. group.number) groups)) }
    ensures words_apart { IsTrue (list_all (λ group. are_apart (codes_from 1 group.words)) groups) }
    ensures starts { IsTrue (list_all (λ group. has_start group group.holding) groups) }
    ensures rapids { IsNamed RAPID_GROUP RTLION (codes "RTLION") × IsNamed RAPID_GROUP RTLIOF (codes "RTLIOF") }
    ensures blocks { IsNamed BLOCK_GROUP SUPA (codes "SUPA") }
    ensures approaches { IsNamed APPROACH_GROUP NORM (codes "NORM") × IsNamed APPROACH_GROUP KONT (codes "KONT") }
    ensures accelerations { IsNamed ACCELERATION_GROUP BRISK (codes "BRISK")
        × IsNamed ACCELERATION_GROUP SOFT (codes "SOFT") }
    ensures feeds_forward { IsNamed FEED_FORWARD_GROUP FFWON (codes "FFWON")
        × IsNamed FEED_FORWARD_GROUP FFWOF (codes "FFWOF") }
    ensures area_switches { IsNamed AREA_SWITCH_GROUP WALIMON (codes "WALIMON")
        × IsNamed AREA_SWITCH_GROUP WALIMOF (codes "WALIMOF") }
    ensures diameters { IsNamed DIAMETER_GROUP DIAMON (codes "DIAMON") × IsNamed DIAMETER_GROUP DIAMOF (codes "DIAMOF")
        × IsNamed DIAMETER_GROUP DIAM90 (codes "DIAM90") }
{}
