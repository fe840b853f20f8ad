//! The rows of a table: those of several lengths, one of texts beside each other, one more, how many there are, and
//! their texts.

ghost use Rattle.std.specs.Prelude.{◌≡◌, ◌==◌, ◌&&◌, ◌++◌, ◌∷◌, [], ℕ, if◌then◌else◌, is_some, length, map, nat_lt, None, Some, Err, IfOk, IfSome, OnErr, OnOk};
ghost use Rattle.pg_layout.specs.Records.{cell_of, columns_of, ragged_row, text_at, with_cell};
ghost use Rattle.pg_layout.specs.Text.{greatest};
ghost use Rattle.pg_table.specs.Even.{IsNarrowLook};
ghost use Rattle.pg_table.specs.OwnRows.{padded, padded_to, spaced_config, texts_of, with_panel_row};
ghost use Rattle.pg_table.specs.Printing.{ascii_config};

use crate::fault::TableFault;
use crate::table::Table;
use pg_config::SpannedConfig;
use pg_layout::{Entity, Indent, PeekableRecords, Position, PushFault, Sides, VecRecords};
use std::alloc::{AllocError, Allocator};
use std::convert::AsStr;

impl<T: AsStr + Drop + Copy, A: Allocator + Copy> Table<T, A> {
    /// A table of rows that may differ in length: a row that is shorter than the longest one gets
    /// fillers, such as `""`, behind its cells. Otherwise like [`Table::new`].
    ///
    /// Allocates only for rows that grow. The only error is `Memory`, after which the rows are
    /// dropped.
    ///
    /// ```text
    /// let table = Table::padded(alloc, vec![in alloc; heading, lunch, dinner]?, "")?;
    /// ```
    pub fn padded(
        alloc: A,
        mut rows: Vec<Vec<T, A>, A>,
        filler: T,
    ) -> Result<Table<T, A>, TableFault>
        ensures table { IfOk result (λ table. table ≡ record { rows = padded filler (map (λ row. row.items) rows.items); config = ascii_config; colors = [] }) }
        ensures memory { (fault : TableFault) → result ≡ Err fault → fault ≡ TableFault.Memory }
        ensures narrow { IfOk result (λ table. IsNarrowLook table.config) }
    {
        let columns = longest(&rows);
        pad(&mut rows, columns, filler)?;
        Table::new(alloc, rows)
    }
}

impl<T: AsStr + Drop, A: Allocator + Copy> Table<T, A> {
    /// Texts beside each other, such as printed tables: a table of one row without borders, in
    /// which each text but the first has so many spaces at its left.
    ///
    /// The only error is `Memory`, after which the texts are dropped.
    ///
    /// ```text
    /// let both = Table::beside(alloc, vec![in alloc; left, right]?, 2)?.to_string(alloc)?;
    /// ```
    pub fn beside(alloc: A, texts: Vec<T, A>, gap: usize) -> Result<Table<T, A>, TableFault>
        ensures table { IfOk result (λ table. table ≡ record { rows = texts.items ∷ []; config = spaced_config gap; colors = [] }) }
        ensures memory { (fault : TableFault) → result ≡ Err fault → fault ≡ TableFault.Memory }
        ensures narrow { IfOk result (λ table. IsNarrowLook table.config) }
    {
        let config = spaced_config(alloc, gap)?;
        let mut row = Vec::with_capacity(alloc, 1)?;
        row.push(texts)?;
        Ok(Table::new(alloc, row)?.with_config(config))
    }
}

impl<T: Drop, A: Allocator> Table<T, A> {
    /// Adds a row below the others: a vector of as many texts as the other rows have. Settings and
    /// colours stay; a line below the header keeps its places.
    ///
    /// The error is `Ragged` with the row's number, counted from 0, if there is a row 0 of another
    /// length, else `Memory` if memory is refused. After either the table is unchanged, and the row
    /// is dropped. In a table without rows the first one may have any length.
    ///
    /// ```text
    /// let mut table = Table::new(alloc, Vec::new(alloc))?;
    /// table.push_row(vec![in alloc; "tea", "12"]?)?;
    /// ```
    pub fn push_row(&mut self, row: Vec<T, A>) -> Result<(), TableFault>
        ensures ok { OnOk result (self.new ≡ record self.old { rows = self.old.rows ++ row.items ∷ [] }) }
        ensures err { OnErr result (self.new ≡ self.old) }
        ensures narrow { IsNarrowLook self.old.config → IsNarrowLook self.new.config }
        ensures ragged { (number : ℕ) → ragged_row (self.old.rows ++ row.items ∷ []) ≡ Some number → result ≡ Err (TableFault.Ragged number) }
        ensures memory { (fault : TableFault) → ragged_row (self.old.rows ++ row.items ∷ []) ≡ None → result ≡ Err fault → fault ≡ TableFault.Memory }
    {
        match self.records.push_row(row) {
            Ok(()) => Ok(()),
            Err(PushFault::Ragged(number)) => Err(TableFault::Ragged(number)),
            Err(PushFault::Memory) => Err(TableFault::Memory),
        }
    }
}

impl<T: AsStr + Drop + Copy, A: Allocator> Table<T, A> {
    /// The table with one more row below the others, whose first cell takes all columns: a panel of
    /// this text. It has as many cells as the other rows, all of this text; without rows it has one.
    ///
    /// The lines above and below keep their crossings until [`Table::with_span_crossings`] redraws them,
    /// also those of the frame. The only error is `Memory`, after which the table is dropped.
    ///
    /// ```text
    /// let table = table.with_panel_row(alloc, "2 items")?.with_span_crossings(alloc, Borders::modern())?;
    /// ```
    pub fn with_panel_row(mut self, alloc: A, text: T) -> Result<Table<T, A>, TableFault>
    where
        A: Clone,
        ensures ok { IfOk result (λ table. table ≡ with_panel_row text self) }
        ensures memory { (fault : TableFault) → result ≡ Err fault → fault ≡ TableFault.Memory }
        ensures narrow { IsNarrowLook self.config → IfOk result (λ table. IsNarrowLook table.config) }
    {
        let rows = self.count_rows();
        let mut row = Vec::new(alloc);
        pad_row(&mut row, self.count_panel_cells(), text)?;
        // A row of as many cells as the others is refused only if memory is.
        match self.push_row(row) {
            Ok(()) => self.with_panel(rows),
            Err(_) => Err(TableFault::Memory),
        }
    }

    // How many cells a panel's row has: as many as the other rows, or one without rows.
    fn count_panel_cells(&self) -> usize
        ensures { result ≡ (if length self.now.rows == 0 then 1 else columns_of self.now.rows) }
    {
        let (rows, columns) = self.size();
        if rows == 0 { 1 } else { columns }
    }
}

impl<T: Drop, A: Allocator> Table<T, A> {
    /// Puts a text in the place of a cell's, which it returns. Outside of the table nothing changes, and
    /// `None` is returned.
    ///
    /// ```text
    /// table.set_text(Position::new(1, 1), "13");
    /// ```
    pub fn set_text(&mut self, pos: Position, text: T) -> Option<T>
        ensures table { self.new ≡ record self.old { rows = with_cell pos text self.old.rows } }
        ensures former { result ≡ cell_of pos self.old.rows }
        ensures narrow { IsNarrowLook self.old.config → IsNarrowLook self.new.config }
    {
        self.records.replace(pos, text)
    }
}

impl<T: AsStr + Drop, A: Allocator> Table<T, A> {
    /// How many rows there are.
    pub fn count_rows(&self) -> usize
        ensures { result ≡ length self.now.rows }
    {
        self.size().0
    }

    /// How many columns there are: as many as row 0 has texts, and none without rows.
    pub fn count_columns(&self) -> usize
        ensures { result ≡ columns_of self.now.rows }
    {
        self.size().1
    }

    /// The text of a cell, or `None` for a place outside of the table.
    pub fn text(&self, pos: Position) -> Option<&str>
        ensures inside { is_some result ≡ (nat_lt pos.row (length self.now.rows) && nat_lt pos.col (columns_of self.now.rows)) }
        ensures text { IfSome result (λ text. text.now ≡ text_at (texts_of T.text self.now) pos) }
    {
        let (rows, columns) = self.size();
        if pos.row < rows && pos.col < columns {
            Some(self.records.get_text(pos))
        } else {
            None
        }
    }

    /// The rows themselves, as records: for `iter_rows`, or for another printer.
    pub fn records(&self) -> &VecRecords<T, A>
        ensures { result.now ≡ self.now.rows }
    {
        &self.records
    }
}

// The settings of texts beside each other: no borders, and so many spaces left of each but the first.
fn spaced_config<A: Allocator + Copy>(alloc: A, gap: usize) -> Result<SpannedConfig<A>, AllocError>
    ensures { IfOk result (λ config. config ≡ spaced_config gap) }
{
    let mut config = SpannedConfig::new(alloc);
    let none = Sides::filled(Indent::zero());
    let left = Indent::spaced(gap);
    config.set_padding(Entity::Global, Sides { left, ..none })?;
    config.set_padding(Entity::Column(0), none)?;
    Ok(config)
}

// The length of the longest row, or 0 without rows.
fn longest<T, A: Allocator>(rows: &[Vec<T, A>]) -> usize
    ensures { result ≡ greatest (map (λ row. length row.items) rows.now) }
{
    rows.iter().fold(0, |columns, row| columns.max(row.len()))
}

// Gives each row at least so many cells.
fn pad<T: Drop + Copy, A: Allocator>(
    rows: &mut Vec<Vec<T, A>, A>,
    columns: usize,
    filler: T,
) -> Result<(), AllocError>
    ensures { OnOk result (map (λ row. row.items) rows.new.items ≡ map (padded_to columns filler) (map (λ row. row.items) rows.old.items)) }
{
    for row in 0..rows.len() {
        pad_row(&mut rows[row], columns, filler)?;
    }
    Ok(())
}

// Gives a row at least so many cells.
fn pad_row<T: Drop + Copy, A: Allocator>(
    row: &mut Vec<T, A>,
    columns: usize,
    filler: T,
) -> Result<(), AllocError>
    ensures { OnOk result (row.new.items ≡ padded_to columns filler row.old.items) }
{
    let cells = row.len().max(columns);
    row.resize(cells, filler)
}
