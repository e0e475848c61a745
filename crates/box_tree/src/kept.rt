//! Trees that are kept for the places of a list.
ghost use Rattle.std.specs.Prelude.{◌≡◌, ℕ, ◌+◌, ◌<◌, ◌≤◌, [], IfOk, IfSome, List, None, length};
ghost use Rattle.std.specs.List.{list_any};
ghost use Rattle.box_tree.specs.Rows.{IsRowOf, box_count, row_of};
ghost use Rattle.swept_boxes.specs.Boxes.{boxes_meet};
ghost use Rattle.swept_boxes.specs.declared.Box3.{Box3};

use crate::{BoxTree, PieceTree};
use out_of_memory::NoMemory;
use std::alloc::Global;
use std::marker::Model;

/// Trees over boxes for some places of a list, as far as there is room and memory for them.
#[derive(Drop)]
pub struct KeptTrees {
    rows: Vec<Option<BoxTree>>,
    room: usize,
}

impl Model for KeptTrees {
    ghost use Rattle.box_tree.specs.Rows.{KeptView};

    ghost Value = { KeptView };

    ghost view = { λ kept. record { rows = kept.rows.items; room = kept.room } };
}

/// Lets go of what is kept for a place.
fn clear_row(rows: &mut Vec<Option<BoxTree>>, place: usize)
    ensures place { row_of rows.new.items place ≡ None }
    ensures others { (k : ℕ) → (k ≡ place → ⊥) → row_of rows.new.items k ≡ row_of rows.old.items k }
    ensures count { box_count rows.new.items ≤ box_count rows.old.items }
{
    if place < rows.len() {
        rows[place] = None;
    }
}

/// Makes room for so many rows.
fn make_rows(rows: &mut Vec<Option<BoxTree>>, count: usize) -> Result<(), NoMemory>
    ensures same { (k : ℕ) → row_of rows.new.items k ≡ row_of rows.old.items k }
    ensures room { IfOk result (λ done. count ≤ length rows.new.items) }
    ensures count { box_count rows.new.items ≡ box_count rows.old.items }
{
    for _at in rows.len()..count {
        rows.push(None)?;
    }
    Ok(())
}

impl KeptTrees {
    /// Nothing is kept yet, and there is room for so many boxes, of 56 bytes each.
    pub fn new(alloc: Global, room: usize) -> KeptTrees
        ensures rows { result.rows ≡ [] }
        ensures room { result.room ≡ room }
    {
        KeptTrees {
            rows: Vec::new(alloc),
            room,
        }
    }

    /// Keeps a tree over these boxes for a place, of so many, where there is room and memory. What was kept for the place is
    /// let go, and its room is not had again.
    pub fn keep(&mut self, alloc: Global, count: usize, place: usize, pieces: &PieceTree)
        requires { place < count }
        ensures place { IsRowOf pieces.now (row_of self.new.rows place) }
        ensures others { (k : ℕ) → (k ≡ place → ⊥) → row_of self.new.rows k ≡ row_of self.old.rows k }
        ensures room { box_count self.new.rows + self.new.room ≤ box_count self.old.rows + self.old.room }
    {
        clear_row(&mut self.rows, place);
        let boxes = pieces.len();
        if self.room < boxes {
            return;
        }
        if let Ok(tree) = pieces.kept(alloc) {
            if make_rows(&mut self.rows, count).is_ok() {
                self.room -= boxes;
                self.rows[place] = Some(tree);
            }
        }
    }

    /// Whether one of some boxes meets one of those that are kept for a place; `None` where there are none.
    pub fn meets(&self, pieces: &PieceTree, place: usize) -> Option<bool>
        ensures met { IfSome result (λ met. (boxes : List Box3) → IsRowOf boxes (row_of self.now.rows place)
            → met ≡ list_any (λ piece. list_any (boxes_meet piece) boxes) pieces.now) }
        ensures none { result ≡ None → row_of self.now.rows place ≡ None }
    {
        match self.rows.get(place) {
            Some(Some(tree)) => Some(pieces.meets_kept(tree)),
            _ => None,
        }
    }
}
