//! What is done with rows.

ghost use Rattle.std.specs.Prelude.{◌≡◌, ◌==◌, ◌<◌, IfOk, IsSome, None, Option, Some, length, map, true};
ghost use Rattle.std.specs.Option.{option_copied};
ghost use Rattle.std.specs.Rc.{rc_slice_items};
ghost use Rattle.mysql_rows.specs.Rows.{cell_at, column_named, is_whole, whole_row, with_cell, without_cell};
ghost use Rattle.mysql_rows.specs.CellsWritten.{PutsOwnRow, PutsRow};
ghost use Rattle.mysql_rows.specs.Written.{binary_cause, binary_row, text_cause, text_row, values_of};
ghost use Rattle.mysql_rows.specs.Views.{column_views, row_view, shared_columns};

use crate::column_index::ColumnIndex;
use crate::refusal::RowRefusal;
use crate::row::Row;
use crate::writing::{write_binary, write_own_binary, write_text};
use mysql_cells::Value;
use mysql_columns::Column;
use std::alloc::{AllocError, Global};
use std::mem;
use std::ops::Index;
use std::rc::RcSlice;

/// The row of these values, as many as there are columns.
///
/// # Errors
/// - `AllocError` for want of memory.
pub fn new_row(
    alloc: Global,
    values: Vec<Value>,
    columns: RcSlice<Column>,
) -> Result<Row, AllocError>
    requires { length values.items ≡ length (rc_slice_items columns) }
    ensures { IfOk result (λ row. row_view row ≡ whole_row (shared_columns columns) values.items) }
{
    let cells = values.into_iter().map(|value| Some(value)).collect(alloc)?;
    Ok(new_row_raw(cells, columns))
}

/// The row of these cells, as many as there are columns; None is a cell whose value was taken.
pub fn new_row_raw(values: Vec<Option<Value>>, columns: RcSlice<Column>) -> Row
    requires { length values.items ≡ length (rc_slice_items columns) }
    ensures { row_view result ≡ record { columns = shared_columns columns; cells = values.items } }
{
    Row {
        cells: values,
        columns,
    }
}

impl Row {
    /// How many cells there are, taken or not: as many as columns.
    pub fn len(&self) -> usize
        ensures cells { result ≡ length (row_view self.now).cells }
        ensures columns { result ≡ length (row_view self.now).columns }
    {
        self.cells.len()
    }

    /// Whether there are no cells.
    pub fn is_empty(&self) -> bool
        ensures { result ≡ (length (row_view self.now).cells == 0) }
    {
        self.cells.is_empty()
    }

    /// Whether no cell's value was taken.
    pub fn is_whole(&self) -> bool
        ensures { result ≡ is_whole (row_view self.now) }
    {
        self.cells.iter().all(|cell| cell.is_some())
    }

    /// The columns.
    pub fn columns_ref(&self) -> &[Column]
        ensures { column_views result.now ≡ (row_view self.now).columns }
    {
        self.columns.as_slice()
    }

    /// The columns, shared with the row.
    ///
    /// # Errors
    /// - `AllocError` for want of memory.
    pub fn columns(&self) -> Result<RcSlice<Column>, AllocError>
        ensures { IfOk result (λ columns. shared_columns columns ≡ (row_view self.now).columns) }
    {
        self.columns.clone()
    }

    /// The value of the cell of this number; None where there is no such cell, or its value was taken.
    #[inline(always)]
    pub fn as_ref(&self, index: usize) -> Option<&Value>
        ensures { option_copied result ≡ cell_at (row_view self.now) (Some index) }
    {
        match self.cells.get(index) {
            Some(Some(value)) => Some(value),
            _ => None,
        }
    }

    /// The value of the cell that a number or a name names.
    ///
    /// None where there is no such column, or its value was taken.
    #[inline(always)]
    pub fn value_at<I: ColumnIndex>(&self, index: I) -> Option<&Value>
        ensures { option_copied result ≡ cell_at (row_view self.now) (I.place index (row_view self.now).columns) }
    {
        match index.idx(self.columns.as_slice()) {
            Some(number) => self.as_ref(number),
            None => None,
        }
    }

    /// Takes the value out of the cell that a number or a name names.
    ///
    /// None where there is no such column, or its value was taken before.
    pub fn take_value<I: ColumnIndex>(&mut self, index: I) -> Option<Value>
        ensures value { result ≡ cell_at (row_view self.old) (I.place index (row_view self.old).columns) }
        ensures taken { row_view self.new ≡
            without_cell (row_view self.old) (I.place index (row_view self.old).columns) }
    {
        let number = index.idx(self.columns.as_slice())?;
        if number < self.cells.len() {
            mem::replace(&mut self.cells[number], None)
        } else {
            None
        }
    }

    /// Puts a value into the cell of this number, below the number of cells. The value that it
    /// held, if any, is dropped.
    pub fn place(&mut self, index: usize, value: Value)
        requires { index < length (row_view self.old).cells }
        ensures { row_view self.new ≡ with_cell (row_view self.old) index (Some value) }
    {
        self.cells[index] = Some(value);
    }

    /// The cells; None is one whose value was taken.
    pub fn unwrap_raw(self) -> Vec<Option<Value>>
        ensures { result.items ≡ (row_view self).cells }
    {
        self.cells
    }

    /// Appends the text row of the cells' values, as [`write_text_row`](crate::write_text_row)
    /// does.
    ///
    /// Promise: exactly the row is appended, or it is refused and the buffer is as it was. It is
    /// refused by the least place whose cell has no form there or was taken (`text_row`).
    ///
    /// # Errors
    /// - `NoForm` with the least place whose value was taken or is a float.
    /// - `Memory`.
    ///
    /// `out` is as it was after an error.
    ///
    /// MySQL: Client/Server Protocol, "Text Resultset Row".
    pub fn write_text(&self, out: &mut Vec<u8>) -> Result<(), RowRefusal>
        ensures { PutsRow (text_cause (row_view self.now).cells)
            (text_row (values_of (row_view self.now).cells)) out.old.items out.new.items result }
    {
        write_text(self.cells.as_slice(), out)
    }

    /// Appends the binary row of the cells' values by these columns, as many as there are cells.
    ///
    /// The row's own columns don't count; [`write_binary_row`](crate::write_binary_row) does the
    /// same with values.
    ///
    /// Promise: exactly the row is appended, or it is refused and the buffer is as it was. It is
    /// refused by the least place whose cell has no form there or was taken (`binary_row`).
    ///
    /// # Errors
    /// - `NoForm` with the least place whose value was taken or has no cell by its column.
    /// - `Memory`.
    ///
    /// `out` is as it was after an error.
    ///
    /// MySQL: Client/Server Protocol, "Binary Protocol Resultset Row", "Null-Bitmap" and "Binary
    /// Protocol Value".
    pub fn write_binary(&self, columns: &[Column], out: &mut Vec<u8>) -> Result<(), RowRefusal>
        requires { length columns.now ≡ length (row_view self.now).cells }
        ensures { PutsRow (binary_cause (column_views columns.now) (row_view self.now).cells)
            (binary_row (column_views columns.now) (values_of (row_view self.now).cells))
            out.old.items out.new.items result }
    {
        write_binary(columns, self.cells.as_slice(), out)
    }

    /// Appends the binary row of the cells' values by these columns, where each is surely read as itself.
    ///
    /// The columns are as many as the cells. Such a row need not be read back.
    ///
    /// `false` says nothing of the row: [`write_binary`](Row::write_binary) writes it then, or says
    /// what speaks against it. This happens where a value was taken or has no cell by its column.
    /// It happens for a number without a sign below 2^63, which is read as one with it. It happens
    /// for a negative time.
    ///
    /// Promise: where the answer is `true`, exactly the row is appended, and each value is what is
    /// read of its cell (`binary_row`, `as_binary`).
    ///
    /// # Errors
    /// - `AllocError` for want of memory; no cause speaks against the row then.
    ///
    /// `out` is as it was after an error, and where the answer is `false`.
    ///
    /// MySQL: Client/Server Protocol, "Binary Protocol Resultset Row", "Null-Bitmap" and "Binary
    /// Protocol Value".
    #[inline(always)]
    pub fn write_own_binary(
        &self,
        columns: &[Column],
        out: &mut Vec<u8>,
    ) -> Result<bool, AllocError>
        requires { length columns.now ≡ length (row_view self.now).cells }
        ensures { PutsOwnRow (column_views columns.now) (row_view self.now).cells out.old.items
            out.new.items result }
    {
        write_own_binary(columns, self.cells.as_slice(), out)
    }

    /// A copy of the row's cells, under the columns that it shares.
    ///
    /// # Errors
    /// - `AllocError` for want of memory.
    pub fn clone(&self, alloc: Global) -> Result<Row, AllocError>
        ensures { IfOk result (λ copy. row_view copy ≡ row_view self.now) }
    {
        let cells = Vec::from_clones(alloc, self.cells.as_slice())?;
        let columns = self.columns.clone()?;
        Ok(new_row_raw(cells, columns))
    }

    /// The values of a row of which nothing was taken.
    ///
    /// # Errors
    /// - `AllocError` for want of memory.
    pub fn unwrap(self, alloc: Global) -> Result<Vec<Value>, AllocError>
        requires { is_whole (row_view self) ≡ true }
        ensures { IfOk result (λ values. map Some values.items ≡ (row_view self).cells) }
    {
        let mut values = Vec::with_capacity(alloc, self.cells.len())?;
        for cell in self.cells {
            match cell {
                Some(value) => values.push(value)?,
                None => unreachable!(),
            }
        }
        Ok(values)
    }
}

/// The value of the cell of this number, where there is one that wasn't taken, as [`as_ref`](Row::as_ref) tells.
impl Index<usize> for Row {
    type Output = Value;

    ghost can_index = { λ row index. IsSome (cell_at (row_view row) (Some index)) };

    ghost index_gives = { λ row index value. cell_at (row_view row) (Some index) ≡ Some value };

    fn index(&self, index: usize) -> &Value {
        match self.as_ref(index) {
            Some(value) => value,
            None => unreachable!(),
        }
    }
}

/// The value in the first column of this name, where there is one that wasn't taken.
impl Index<&str> for Row {
    type Output = Value;

    ghost can_index = { λ row name. IsSome (cell_at (row_view row) (column_named name.now (row_view row).columns)) };

    ghost index_gives = { λ row name value. cell_at (row_view row)
        (column_named name.now (row_view row).columns) ≡ Some value };

    fn index(&self, name: &str) -> &Value {
        match self.value_at(name) {
            Some(value) => value,
            None => unreachable!(),
        }
    }
}
