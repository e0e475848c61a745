//! The words of groups in a block.

ghost use Rattle.std.specs.Prelude.{◌≡◌, List, [], ◌∷◌, ◌++◌, filter_map, map, IfOk};
ghost use Rattle.frames.specs.Composition.{IsComposed};
ghost use Rattle.frames.specs.Maps.{Map};
ghost use Rattle.g_groups.specs.Modal.{IsAfter, modal_word};
ghost use Rattle.g_groups.specs.declared.GWord.{GWord};
ghost use Rattle.nc_blocks.specs.Statement.{statement_view, word_view};
ghost use Rattle.block_motions.specs.Goals.{AreInForce};
ghost use Rattle.block_effects.specs.Effects as model;
ghost use Rattle.block_effects.specs.Shapes.{plane_of};

use crate::course::Setup;
use block_motions::Conditions;
use frames::{Frame, Plane};
use g_groups::{AREA_GROUP, DWELL_GROUP, GWord, Modal, OFFSET_GROUP, PLANE_GROUP};
use micro_units::Um;
use nc_blocks::{Stmt, Word};
use std::alloc::{AllocError, Global};
use tool_offsets::Lengths;

/// The word of a group, if a word is one.
fn group_word(word: &Word) -> Option<GWord>
    ensures { result ≡ model.group_word (word_view word.now) }
{
    match word {
        Word::G(group, code) => Some(GWord {
            group: *group,
            code: *code,
        }),
        _ => None,
    }
}

/// The words of groups among the words of a block.
fn words_of_groups(alloc: Global, words: &[Word]) -> Result<Vec<GWord>, AllocError>
    ensures { IfOk result (λ groups. groups.items ≡ filter_map model.group_word (map word_view words.now)) }
{
    let mut groups = Vec::new(alloc);
    for word in words {
        if let Some(found) = group_word(word) {
            groups.push(found)?;
        }
    }
    Ok(groups)
}

/// The words of groups in a block.
#[tactic(auto, unfolding(crate::specs::Effects::group_words))]
pub(crate) fn group_words(alloc: Global, stmt: &Stmt) -> Result<Vec<GWord>, AllocError>
    ensures { IfOk result (λ groups. groups.items ≡ model.group_words (statement_view stmt.now)) }
{
    match stmt {
        Stmt::Words(words) => words_of_groups(alloc, words.as_slice()),
        _ => Ok(Vec::new(alloc)),
    }
}

/// Whether no axis moves in a block with these words.
#[tactic(auto, unfolding(crate::specs::Effects::stands_still))]
pub(crate) fn stands_still(groups: &[GWord]) -> bool
    ensures { result ≡ model.stands_still groups.now }
{
    groups.iter().any(|word| word.group == DWELL_GROUP || word.group == AREA_GROUP)
}

/// The plane that holds.
#[tactic(auto, unfolding(crate::specs::Shapes::plane_of, g_groups::specs::Groups::holding_of))]
pub(crate) fn plane_in(modal: &Modal) -> Plane
    ensures { (blocks : List (List GWord)) → IsAfter blocks modal.now
        → result ≡ plane_of (modal_word blocks PLANE_GROUP) }
{
    match modal.word(PLANE_GROUP) {
        17 => Plane::G17,
        19 => Plane::G19,
        _ => Plane::G18,
    }
}

/// What holds in a block under these words and this frame, with a tool of these lengths.
#[tactic(auto, unfolding(g_groups::specs::Groups::holding_of))]
pub(crate) fn conditions<S: Setup>(
    setup: &S,
    modal: &Modal,
    frame: &Frame,
    lengths: Lengths,
) -> Conditions
    ensures { (blocks : List (List GWord)) (chain : List Map) → IsAfter blocks modal.now → IsComposed chain frame.now
        → AreInForce (model.held_after (S.offset setup.now) blocks chain lengths) result }
{
    let word = modal.word(OFFSET_GROUP);
    Conditions {
        modal: *modal,
        frame: *frame,
        offsets: [
            setup.offset(word, 0),
            setup.offset(word, 1),
            setup.offset(word, 2),
        ],
        lengths: [lengths.x, Um { micrometres: 0 }, lengths.z],
    }
}
