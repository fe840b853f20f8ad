//! Cells over several columns or rows, and the crossings on their edges.

ghost use Rattle.std.specs.Prelude.{◌≡◌, ◌≤◌, length, Err, IfOk, IsOk, IsSome, OnErr, OnOk, []};
ghost use Rattle.pg_layout.specs.Keys.{by_columns, column_place};
ghost use Rattle.pg_layout.specs.Places.{value_at};
ghost use Rattle.pg_layout.specs.Position.{at};
ghost use Rattle.pg_layout.specs.Records.{columns_of};
ghost use Rattle.pg_table.specs.Even.{IsNarrowLook};
ghost use Rattle.pg_table.specs.Panels.{over_columns, over_rows, panelled};
ghost use Rattle.pg_table.specs.OwnRows.{crossed};

use crate::fault::TableFault;
use crate::table::Table;
use pg_layout::{Borders, Position, Records};
use std::alloc::{AllocError, Allocator};
use std::convert::AsStr;

impl<T: Drop, A: Allocator> Table<T, A> {
    /// The table with a cell over so many columns, including its own; 1 removes the span. The texts
    /// of the cells that it covers aren't shown. Spans that leave the table or share a place are
    /// reported when it is printed (`Spans`).
    ///
    /// Allocates only for a cell without a span. After an error the table is dropped.
    ///
    /// ```text
    /// let table = table.with_column_span(Position::new(0, 0), 3)?;
    /// ```
    pub fn with_column_span(
        mut self,
        pos: Position,
        columns: usize,
    ) -> Result<Table<T, A>, TableFault>
    where
        A: Clone,
        ensures ok { IfOk result (λ table. table ≡ over_columns pos columns self) }
        ensures memory { (fault : TableFault) → result ≡ Err fault → fault ≡ TableFault.Memory }
        ensures again { IsSome (value_at by_columns (column_place pos) self.config.spans) → IsOk result }
        ensures one { columns ≡ 1 → IsOk result }
        ensures narrow { IsNarrowLook self.config → IfOk result (λ table. IsNarrowLook table.config) }
    {
        match self.config.set_column_span(pos, columns) {
            Ok(()) => Ok(self),
            Err(error) => Err(error.into()),
        }
    }

    /// The table with a cell over so many rows, like [`Table::with_column_span`] for columns.
    pub fn with_row_span(mut self, pos: Position, rows: usize) -> Result<Table<T, A>, TableFault>
    where
        A: Clone,
        ensures ok { IfOk result (λ table. table ≡ over_rows pos rows self) }
        ensures memory { (fault : TableFault) → result ≡ Err fault → fault ≡ TableFault.Memory }
        ensures again { IsSome (value_at by_columns (column_place pos) self.config.spans) → IsOk result }
        ensures one { rows ≡ 1 → IsOk result }
        ensures narrow { IsNarrowLook self.config → IfOk result (λ table. IsNarrowLook table.config) }
    {
        match self.config.set_row_span(pos, rows) {
            Ok(()) => Ok(self),
            Err(error) => Err(error.into()),
        }
    }
}

impl<T: AsStr + Drop, A: Allocator> Table<T, A> {
    /// Makes a row, counted from 0, a panel: its first cell takes all columns, and the texts of its
    /// other cells aren't shown. A row that doesn't exist changes nothing.
    ///
    /// The lines above and below the panel keep their crossings until [`Table::set_span_crossings`]
    /// redraws them. Allocates only if the first cell has no span. If memory is refused, nothing
    /// changes.
    ///
    /// ```text
    /// table.set_panel(0)?;
    /// table.set_span_crossings(alloc, Borders::modern())?; // ┌───────┐
    /// ```
    pub fn set_panel(&mut self, row: usize) -> Result<(), AllocError>
    where
        A: Clone,
        ensures ok { OnOk result (self.new ≡ panelled row self.old) }
        ensures err { OnErr result (self.new ≡ self.old) }
        ensures absent { length self.old.rows ≤ row → IsOk result }
        ensures again { IsSome (value_at by_columns (column_place (at row 0)) self.old.config.spans) → IsOk result }
        ensures one { columns_of self.old.rows ≡ 1 → IsOk result }
        ensures narrow { IsNarrowLook self.old.config → IsNarrowLook self.new.config }
    {
        let (rows, columns) = self.size();
        if rows <= row {
            return Ok(());
        }
        self.config.set_column_span(Position::new(row, 0), columns)
    }

    /// The table with a row as a panel ([`Table::set_panel`]). After an error the table is dropped.
    ///
    /// ```text
    /// let table = table.with_panel(0)?.with_span_crossings(alloc, Borders::modern())?;
    /// ```
    pub fn with_panel(mut self, row: usize) -> Result<Table<T, A>, TableFault>
    where
        A: Clone,
        ensures ok { IfOk result (λ table. table ≡ panelled row self) }
        ensures memory { (fault : TableFault) → result ≡ Err fault → fault ≡ TableFault.Memory }
        ensures absent { length self.rows ≤ row → IsOk result }
        ensures again { IsSome (value_at by_columns (column_place (at row 0)) self.config.spans) → IsOk result }
        ensures one { columns_of self.rows ≡ 1 → IsOk result }
        ensures narrow { IsNarrowLook self.config → IfOk result (λ table. IsNarrowLook table.config) }
    {
        match self.set_panel(row) {
            Ok(()) => Ok(self),
            Err(error) => Err(error.into()),
        }
    }
}

impl<T: AsStr + Drop, A: Allocator + Copy> Table<T, A> {
    /// Draws each crossing on the edge of a cell with a span by the lines that meet there, with the
    /// glyphs of these borders, as [`pg_config::SpannedConfig::set_span_crossings`] does for the rows and
    /// columns of this table.
    ///
    /// If memory is refused, nothing changes; without spans nothing is allocated. A span or a line
    /// that is set later changes no crossing.
    pub fn set_span_crossings(&mut self, alloc: A, borders: Borders<char>) -> Result<(), AllocError>
        ensures ok { OnOk result (self.new ≡ crossed borders self.old) }
        ensures err { OnErr result (self.new ≡ self.old) }
        ensures nothing { self.old.config.spans ≡ [] → IsOk result }
    {
        let size = self.size();
        self.config.set_span_crossings(alloc, size, borders)
    }

    /// Draws crossings that follow the merged cells, in a table by value
    /// ([`Table::set_span_crossings`]). After an error the table is dropped.
    ///
    /// ```text
    /// let table = table.with_config(config).with_span_crossings(alloc, Borders::sharp())?;
    /// ```
    pub fn with_span_crossings(
        mut self,
        alloc: A,
        borders: Borders<char>,
    ) -> Result<Table<T, A>, TableFault>
        ensures ok { IfOk result (λ table. table ≡ crossed borders self) }
        ensures memory { (fault : TableFault) → result ≡ Err fault → fault ≡ TableFault.Memory }
        ensures nothing { self.config.spans ≡ [] → IsOk result }
    {
        let set = self.set_span_crossings(alloc, borders);
        self.if_set(set)
    }
}
