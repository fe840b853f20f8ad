//! The open cells of a table that is printed row by row.

ghost use Rattle.std.specs.Prelude.{◌≡◌, ◌+◌, ◌<◌, ◌≤◌, ◌^◌, length, map, count_by, is_some, IfSome, replicate, slice_index_or, slice_set, option_map, IfOk, Some, None};
ghost use Rattle.pg_stream.specs.Placed.{slots_of, AllOpen};
ghost use Rattle.pg_stream.specs.Inside.{draw_cell};

use crate::draw::OpenCell;
use std::alloc::{AllocError, Allocator, Global};
use std::convert::AsStr;
use std::marker::Model;

/// The cells that are open between two rows: each begins above and continues below, at its left
/// column. So there is at most one for each column.
pub struct OpenCells<S: AsStr, A: Allocator = Global> {
    slots: Vec<Option<OpenCell<S>>, A>,
}

// Written out, like those of what holds them, so that a caller's proof has one call when it drops them.
impl<S: AsStr + Drop, A: Allocator> Drop for OpenCells<S, A> {
    fn drop(self) {
        let OpenCells { slots } = self;
        drop(slots);
    }
}

impl<S: AsStr, A: Allocator> Model for OpenCells<S, A> {
    ghost use Rattle.std.specs.Prelude.{List, Option};
    ghost use Rattle.pg_stream.specs.Placed.{Placed};

    ghost Value = { List (Option Placed) };

    ghost view = { λ c. c.slots.items };
}

impl<S: AsStr + Drop, A: Allocator> OpenCells<S, A> {
    pub(crate) fn new(alloc: A, columns: usize) -> Result<OpenCells<S, A>, AllocError>
        ensures { IfOk result (λ cells. cells ≡ replicate columns None) }
    {
        let mut slots = Vec::with_capacity(alloc, columns)?;
        for _ in 0..columns {
            slots.push(None)?;
        }
        Ok(OpenCells { slots })
    }

    /// How many cells are open.
    pub fn len(&self) -> usize
        ensures count { result ≡ count_by is_some (slots_of self.now) }
        ensures few { result ≤ length (slots_of self.now) }
    {
        count_open(&self.slots)
    }

    /// How many columns the table has.
    pub fn columns(&self) -> usize
        ensures { result ≡ length (slots_of self.now) }
    {
        self.slots.len()
    }

    /// The row where the open cell with this left column begins, if there is one.
    pub fn begun_at(&self, column: usize) -> Option<usize>
        ensures { result ≡ option_map (λ s. s.begun) (slice_index_or (slots_of self.now) column None) }
    {
        Some(self.open_at(column)?.begun())
    }

    /// How many lines are drawn of the open cell with this left column, if there is one.
    pub fn drawn(&self, column: usize) -> Option<usize>
        ensures { result ≡ option_map (λ s. s.drawn) (slice_index_or (slots_of self.now) column None) }
    {
        Some(self.open_at(column)?.drawn())
    }

    pub(crate) fn open_at(&self, column: usize) -> Option<&OpenCell<S>>
        ensures { option_map (λ x. x.now) result ≡ slice_index_or self.now column None }
    {
        self.slots.get(column)?.as_ref()
    }

    pub(crate) fn put(&mut self, column: usize, cell: OpenCell<S>)
        requires { column < length self.old }
        ensures { self.new ≡ slice_set self.old column (Some cell) }
    {
        self.slots[column] = Some(cell);
    }

    pub(crate) fn clear(&mut self, column: usize)
        requires { column < length self.old }
        ensures { self.new ≡ slice_set self.old column None }
    {
        self.slots[column] = None;
    }

    pub(crate) fn draw_line(&mut self)
        requires { AllOpen (λ x cell. cell.drawn + 1 < 2 ^ 64) self.old }
        ensures { self.new ≡ map (draw_cell 1) self.old }
    {
        for slot in self.slots.iter_mut() {
            draw_slot(slot);
        }
    }
}

fn count_open<S: AsStr>(slots: &[Option<OpenCell<S>>]) -> usize
    ensures { result ≡ count_by is_some slots.now }
{
    slots.iter().filter(|slot| slot.is_some()).count()
}

fn draw_slot<S: AsStr>(slot: &mut Option<OpenCell<S>>)
    requires { IfSome slot.old (λ cell. cell.drawn + 1 < 2 ^ 64) }
    ensures { slot.new ≡ draw_cell 1 slot.old }
{
    if let Some(cell) = slot {
        cell.draw_line();
    }
}
