//! Rows by mark and channel, on the heap.
ghost use Rattle.axis_sets.specs.Sets.{has, members_of};
ghost use Rattle.axis_sets.specs.declared.limits.TheConstants.{CHANNEL_PLACES, MARK_LIMIT};
ghost use Rattle.counter_rows.specs.MarkClocks.{row_in};
ghost use Rattle.counter_rows.specs.Rows.{top, count_of};
ghost use Rattle.std.specs.Prelude.{◌≡◌, ℕ, ◌<◌, ◌==◌, ◌&&◌, max, [], slice_index_or, IfOk, if◌then◌else◌};

use crate::VectorClock;
use crate::columns::{at_channel, put_at};
use crate::notes::{note_at, note_chosen};
use axis_sets::{CHANNEL_PLACES, MARK_LIMIT, MarkSet};
use out_of_memory::NoMemory;
use std::alloc::Global;
use std::marker::Model;

/// For each mark a row for each channel, on the heap. A contract sees for each mark the list of these rows.
#[derive(Drop)]
pub struct MarkClocks {
    rows: Vec<[VectorClock; CHANNEL_PLACES]>,
}

impl Model for MarkClocks {
    ghost use Rattle.axis_sets.specs.declared.limits.TheConstants.{MARK_LIMIT};
    ghost use Rattle.std.specs.Prelude.{◌≡◌, ℕ, List, length};

    ghost Value = { List (List (List ℕ)) };

    ghost view = { λ m. m.rows.items };

    ghost invariant = { λ m. length m.rows.items ≡ MARK_LIMIT };
}

impl MarkClocks {
    /// No event. `NoMemory` where there is too little.
    pub fn new(alloc: Global) -> Result<MarkClocks, NoMemory>
        ensures { IfOk result (λ rows. (m d c : ℕ) → count_of (row_in rows m d) c ≡ 0) }
    {
        let rows = vec![in alloc; [VectorClock::zero(); CHANNEL_PLACES]; MARK_LIMIT]?;
        Ok(MarkClocks { rows })
    }

    /// The same rows, to be changed apart. `NoMemory` where there is too little.
    pub fn copied(&self) -> Result<MarkClocks, NoMemory>
        ensures { IfOk result (λ rows. rows ≡ self.now) }
    {
        let rows = self.rows.clone()?;
        Ok(MarkClocks { rows })
    }

    /// The rows of a mark.
    pub fn row(&self, mark: usize) -> &[VectorClock; CHANNEL_PLACES]
        requires { mark < MARK_LIMIT }
        ensures { result.now ≡ slice_index_or self.now mark [] }
    {
        &self.rows[mark]
    }

    /// Writes the row at one channel of each mark of a set.
    pub fn put_marks(&mut self, marks: &MarkSet, channel: usize, row: VectorClock)
        requires { channel < CHANNEL_PLACES }
        ensures rows { (m d : ℕ) → row_in self.new m d
            ≡ (if has marks.now m && (d == channel) then row else row_in self.old m d) }
    {
        let mut rest = *marks;
        for _turn in 0..MARK_LIMIT {
            match rest.lowest() {
                None => return,
                Some(mark) => {
                    put_at(&mut self.rows[usize::from(mark)], channel, row);
                    rest = rest.without(mark);
                }
            }
        }
    }

    /// Writes the number of a channel in its own row of each mark of a set.
    pub fn note_marks(&mut self, marks: &MarkSet, channel: usize, count: u64)
        requires { channel < CHANNEL_PLACES }
        ensures rows { (m d c : ℕ) → count_of (row_in self.new m d) c
            ≡ (if (has marks.now m && (d == channel)) && (c == channel) then count
            else count_of (row_in self.old m d) c) }
    {
        let mut rest = *marks;
        for _turn in 0..MARK_LIMIT {
            match rest.lowest() {
                None => return,
                Some(mark) => {
                    note_at(&mut self.rows[usize::from(mark)], channel, count);
                    rest = rest.without(mark);
                }
            }
        }
    }

    /// Writes the number of a channel in its own row of one mark.
    pub fn note_one(&mut self, mark: usize, channel: usize, count: u64)
        requires mark { mark < MARK_LIMIT }
        requires channel { channel < CHANNEL_PLACES }
        ensures rows { (m d c : ℕ) → count_of (row_in self.new m d) c
            ≡ (if ((m == mark) && (d == channel)) && (c == channel) then count
            else count_of (row_in self.old m d) c) }
    {
        note_at(&mut self.rows[mark], channel, count);
    }

    /// Writes the number of a channel in each chosen row of one mark.
    pub fn note_row(
        &mut self,
        mark: usize,
        chosen: &[bool; CHANNEL_PLACES],
        channel: usize,
        count: u64,
    )
        requires mark { mark < MARK_LIMIT }
        requires channel { channel < CHANNEL_PLACES }
        ensures rows { (m d c : ℕ) → count_of (row_in self.new m d) c
            ≡ (if ((m == mark) && has chosen.now d) && (c == channel) then count
            else count_of (row_in self.old m d) c) }
    {
        note_chosen(&mut self.rows[mark], chosen, channel, count);
    }

    /// The greatest numbers of a row and of those of a channel at the marks of a set.
    pub fn most_of_marks(&self, marks: &MarkSet, channel: usize, start: VectorClock) -> VectorClock
        requires { channel < CHANNEL_PLACES }
        ensures counts { (c : ℕ) → count_of result c
            ≡ max (count_of start c) (top (λ m. count_of (row_in self.now m channel) c) (members_of marks.now)) }
    {
        let mut row = start;
        let mut rest = *marks;
        for _turn in 0..MARK_LIMIT {
            match rest.lowest() {
                None => return row,
                Some(mark) => {
                    row = row.most(at_channel(self.row(usize::from(mark)), channel));
                    rest = rest.without(mark);
                }
            }
        }
        row
    }
}
