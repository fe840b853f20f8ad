//! The rows of a tree, as it stores them.

ghost use Rattle.std.specs.Prelude.{◌≡◌, ◌<◌, ◌≤◌, ◌+◌, ◌*◌, ℕ, None, [], length, option_map, true, IfErr, IfOk, IsSomeAnd};
ghost use Rattle.sqlite_format.specs.Cell.{IsBody, body_key, cell_body, cell_size};
ghost use Rattle.sqlite_format.specs.Kinds.{holds_rows};
ghost use Rattle.ruled_database.specs.Listings.{LacksRow, row_step, rows_behind, rows_to_come, steps_of, stored_of, with_row};
ghost use Rattle.ruled_database.specs.Trees.{page_of, own_row, page_at, rows_below, stored_in};
ghost use Rattle.ruled_database.specs.Tables.{tree_rows};

use crate::fault::TableFault;
use crate::file::{File, cell_of, node_of};
use sqlite_format::bytes::get_u32;
use sqlite_format::cell::{self, Payload};
use sqlite_format::{Node, Tree};
use std::alloc::Global;

/// A row as its page has it: its key, the first part of its record, and where the rest is.
#[derive(Clone, Copy)]
pub(crate) struct StoredRow<'a> {
    pub(crate) key: u64,
    pub(crate) payload: Payload<'a>,
}

// The key of a table's row, or 0.
#[tactic(auto, unfolding(sqlite_format::specs::Cell::body_key))]
fn key_of(tree: Tree, row: &[u8]) -> Option<u64>
    ensures { (usable : ℕ) → IsBody tree true usable row.now → IsSomeAnd result (λ key. key ≡ body_key tree true row.now) }
{
    match tree {
        Tree::Table => cell::key(true, row),
        Tree::Index => Some(0),
    }
}

// The row that a cell holds.
fn row_of<'a>(node: &Node<'a>, cell: &'a [u8]) -> Option<StoredRow<'a>>
    requires within { cell_size node.now.kind (length node.now.bytes.now) cell.now ≤ length cell.now }
    requires row { holds_rows node.now.kind ≡ true }
    ensures { IsSomeAnd result (λ row. stored_of row
        ≡ stored_in node.now.kind.tree (length node.now.bytes.now) (cell_body node.now.kind (length node.now.bytes.now) cell.now)) }
{
    let tree = node.kind.tree;
    let body = cell::body(node.kind, node.bytes.len(), cell)?;
    let payload = cell::payload_of(tree, node.bytes.len(), body)?;
    let key = key_of(tree, body)?;
    Some(StoredRow { key, payload })
}

// The row that a cell itself holds, if it holds one.
fn own_row<'a>(node: &Node<'a>, cell: &'a [u8]) -> Option<StoredRow<'a>>
    requires { cell_size node.now.kind (length node.now.bytes.now) cell.now ≤ length cell.now }
    ensures { row_step result ≡ own_row (page_of node.now) cell.now }
{
    if node.kind.holds_rows() {
        row_of(node, cell)
    } else {
        None
    }
}

// The page of this number.
fn node_at(file: File<'_>, tree: Tree, number: u32) -> Option<Node<'_>>
    ensures { option_map page_of result ≡ page_at file.entry.bytes.now tree number }
{
    let bytes = file.page(number)?;
    let header = if number == 1 { 100 } else { 0 };
    node_of(tree, bytes, header)
}

/// A page of a tree, of which a part is still to be read.
#[derive(Clone, Copy)]
pub(crate) struct Level<'a> {
    node: Node<'a>,
    /// How many levels of pages there may be below it.
    below: usize,
    /// How many of its cells have been read.
    place: usize,
    /// The row of the last of these, where the rows below its child come first.
    row: Option<StoredRow<'a>>,
}

/// How many levels of pages a tree has at most.
const LEVELS: usize = 20;

/// The rows of a tree, from left to right. Each page is read once, when its first row is.
#[derive(Drop)]
pub(crate) struct Cursor<'a> {
    file: File<'a>,
    tree: Tree,
    /// How many rows are still wanted, if not all.
    limit: Option<usize>,
    /// How many pages may still be read: no tree of a sound file has more of them than the file.
    left: usize,
    /// The pages that are read in part, of which the last is the deepest.
    levels: Vec<Level<'a>>,
}

impl<'a> Cursor<'a> {
    /// The first so many rows of the tree that begins at this page, if not all.
    pub(crate) fn of(
        alloc: Global,
        file: File<'a>,
        tree: Tree,
        root: u32,
        limit: Option<usize>,
    ) -> Result<Cursor<'a>, TableFault>
        ensures file { IfOk result (λ cursor. cursor.file ≡ file.entry) }
        ensures rows { IfOk result (λ cursor. rows_to_come cursor ≡ tree_rows limit file.entry.bytes.now tree root) }
        ensures fault { IfErr result (LacksRow (tree_rows limit file.entry.bytes.now tree root)) }
    {
        let mut cursor = Cursor {
            file,
            tree,
            limit,
            left: file.pages(),
            levels: Vec::new(alloc),
        };
        if let Some(0) = limit {
            return Ok(cursor);
        }
        cursor.open(LEVELS, root)?;
        Ok(cursor)
    }

    // Reads the page of this number, whose rows come next.
    fn open(&mut self, levels: usize, number: u32) -> Result<(), TableFault>
        ensures file { self.new.file ≡ self.old.file }
        ensures tree { self.new.tree ≡ self.old.tree }
        ensures limit { self.new.limit ≡ self.old.limit }
        ensures rows { IfOk result (λ x. rows_behind (rows_below self.old.file.bytes.now self.old.tree levels number) self.old ≡ rows_behind [] self.new) }
        ensures fault { IfErr result (LacksRow (rows_behind (rows_below self.old.file.bytes.now self.old.tree levels number) self.old)) }
        ensures fewer { IfOk result (λ x. 2 * self.new.left + length self.new.levels.items < 2 * self.old.left + length self.old.levels.items) }
    {
        if levels == 0 || self.left == 0 {
            return Err(TableFault::Damage);
        }
        self.left -= 1;
        let node = node_at(self.file, self.tree, number).ok_or(TableFault::Damage)?;
        self.levels.push(Level {
            node,
            below: levels - 1,
            place: 0,
            row: None,
        })?;
        Ok(())
    }

    // Reads the next cell of a page: its row, or the page of its child.
    fn read_cell(&mut self, mut level: Level<'a>) -> Result<Option<StoredRow<'a>>, TableFault>
        requires place { level.place < level.node.count }
        requires row { level.row ≡ None }
        ensures file { self.new.file ≡ self.old.file }
        ensures tree { self.new.tree ≡ self.old.tree }
        ensures limit { self.new.limit ≡ self.old.limit }
        ensures rows { IfOk result (λ row. rows_behind (steps_of self.old.file.bytes.now self.old.tree level.entry) self.old ≡ with_row row (rows_behind [] self.new)) }
        ensures fault { IfErr result (LacksRow (rows_behind (steps_of self.old.file.bytes.now self.old.tree level.entry) self.old)) }
        ensures fewer { IfOk result (λ row. row ≡ None → 2 * self.new.left + length self.new.levels.items ≤ 2 * self.old.left + length self.old.levels.items) }
    {
        let cell = cell_of(&level.node, level.place).ok_or(TableFault::Damage)?;
        let row = own_row(&level.node, cell);
        level.place += 1;
        if level.node.kind.leaf {
            self.levels.push(level)?;
            return Ok(row);
        }
        level.row = row;
        self.levels.push(level)?;
        self.open(level.below, get_u32(cell, 0))?;
        Ok(None)
    }

    // Reads on in a page: its next row, or the page that comes next.
    fn read_level(&mut self, level: Level<'a>) -> Result<Option<StoredRow<'a>>, TableFault>
        requires { level.row ≡ None }
        ensures file { self.new.file ≡ self.old.file }
        ensures tree { self.new.tree ≡ self.old.tree }
        ensures limit { self.new.limit ≡ self.old.limit }
        ensures rows { IfOk result (λ row. rows_behind (steps_of self.old.file.bytes.now self.old.tree level.entry) self.old ≡ with_row row (rows_behind [] self.new)) }
        ensures fault { IfErr result (LacksRow (rows_behind (steps_of self.old.file.bytes.now self.old.tree level.entry) self.old)) }
        ensures fewer { IfOk result (λ row. row ≡ None → 2 * self.new.left + length self.new.levels.items ≤ 2 * self.old.left + length self.old.levels.items) }
    {
        if level.place < level.node.count {
            return self.read_cell(level);
        }
        if !level.node.kind.leaf {
            self.open(level.below, level.node.right())?;
        }
        Ok(None)
    }

    // The next row, if there is one more.
    fn next_row(&mut self) -> Result<Option<StoredRow<'a>>, TableFault>
        ensures file { self.new.file ≡ self.old.file }
        ensures limit { self.new.limit ≡ self.old.limit }
        ensures rows { IfOk result (λ row. rows_behind [] self.old ≡ with_row row (rows_behind [] self.new)) }
        ensures fault { IfErr result (LacksRow (rows_behind [] self.old)) }
        ensures end { IfOk result (λ row. row ≡ None → rows_behind [] self.old ≡ ([], true)) }
    {
        while let Some(mut level) = self.levels.pop() {
            if let Some(row) = level.row {
                level.row = None;
                self.levels.push(level)?;
                return Ok(Some(row));
            }
            if let Some(row) = self.read_level(level)? {
                return Ok(Some(row));
            }
        }
        Ok(None)
    }

    #[tactic(auto, using(crate::proofs::Tabling::first_more, crate::proofs::Tabling::first_of_none))]
    /// The next row, if there is one more and it is wanted.
    pub(crate) fn next(&mut self) -> Result<Option<StoredRow<'a>>, TableFault>
        ensures file { self.new.file ≡ self.old.file }
        ensures rows { IfOk result (λ row. rows_to_come self.old ≡ with_row row (rows_to_come self.new)) }
        ensures fault { IfErr result (LacksRow (rows_to_come self.old)) }
        ensures end { IfOk result (λ row. row ≡ None → rows_to_come self.old ≡ ([], true)) }
    {
        if let Some(limit) = self.limit {
            if limit == 0 {
                return Ok(None);
            }
            self.limit = Some(limit - 1);
            return self.next_row();
        }
        self.next_row()
    }
}
