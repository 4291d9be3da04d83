//! How rows are read.

ghost use Rattle.std.specs.Prelude.{◌≡◌, IfErr, IfOk, OnOk};
ghost use Rattle.std.specs.Borrow.{sem};
ghost use Rattle.mysql_rows.specs.Views.{shared_columns};
ghost use Rattle.mysql_row_refs.specs.RowRefs.{GoesOnReading, HoldsRow, ReadsTheSame, row_ref_view, row_held, row_of};
ghost use Rattle.mysql_row_refs.specs.RowRefs.{seen};

use crate::errors::RowError;
use crate::format::RowFormat;
use crate::reader::RowReader;
use crate::row_ref::RowRef;
use crate::rows::{binary_row_places, text_places};
use mysql_buf::ParseBuf;
use mysql_columns::Column;
use std::alloc::{AllocError, Global};
use std::rc::RcSlice;

impl RowReader {
    /// A reader of the rows of a result set with these columns, in this format.
    ///
    /// # Errors
    /// - `AllocError` for want of memory. None is asked for afterwards.
    pub fn new(
        alloc: Global,
        columns: RcSlice<Column>,
        format: RowFormat,
    ) -> Result<RowReader, AllocError>
        ensures columns { IfOk result (λ reader. shared_columns reader.columns ≡ shared_columns columns) }
        ensures format { IfOk result (λ reader. reader.format ≡ format) }
    {
        let places = Vec::with_capacity(alloc, columns.len())?;
        Ok(RowReader {
            columns,
            format,
            places,
        })
    }

    /// The columns of each row.
    #[inline(always)]
    pub fn columns(&self) -> &RcSlice<Column>
        ensures { shared_columns result.now ≡ shared_columns self.now.columns }
    {
        &self.columns
    }

    /// Reads the places of the cells of the row that a payload is. No memory is asked for.
    ///
    /// [`row_ref`](RowReader::row_ref) then gives that row, of this payload.
    /// [`row`](RowReader::row) does both: these two are for who looks for the payload in a loop,
    /// and borrows the row behind it.
    ///
    /// # Errors
    /// - Those of [`row`](RowReader::row), in the same order.
    ///
    /// MySQL: Client/Server Protocol, "Text Resultset Row" and "Binary Protocol Resultset Row".
    #[inline]
    pub fn read(&mut self, payload: &[u8]) -> Result<(), RowError>
        ensures columns { self.new.columns ≡ self.old.columns }
        ensures format { self.new.format ≡ self.old.format }
        ensures row { seen (λ _. row_held self.new payload.now) result ≡
            row_of self.old.format (shared_columns self.old.columns) payload.now }
        ensures holds { OnOk result (HoldsRow self.new payload.now) }
    {
        self.places.clear();
        let mut rest = ParseBuf(payload);
        let columns = self.columns.as_slice();
        let read = match self.format {
            RowFormat::Text => text_places(columns.len(), payload, &mut rest, &mut self.places),
            RowFormat::Binary => binary_row_places(columns, payload, &mut rest, &mut self.places),
        };
        match read {
            Err(e) => Err(RowError::Unreadable(e)),
            Ok(()) => {
                if rest.is_empty() {
                    Ok(())
                } else {
                    Err(RowError::BytesLeft)
                }
            }
        }
    }

    /// The row whose places were read last, which borrows its payload.
    ///
    /// MySQL: Client/Server Protocol, "Text Resultset Row" and "Binary Protocol Resultset Row".
    #[inline(always)]
    pub fn row_ref<'r, 'p>(&'r self, payload: &'p [u8]) -> RowRef<'r, 'p>
        requires { HoldsRow self.now payload.now }
        ensures { row_ref_view result ≡ row_held self.now payload.now }
    {
        RowRef {
            payload,
            columns: &self.columns,
            places: self.places.as_slice(),
        }
    }

    /// The former name of [`row_ref`](RowReader::row_ref).
    #[inline(always)]
    pub fn lent<'r, 'p>(&'r self, payload: &'p [u8]) -> RowRef<'r, 'p>
        requires { HoldsRow self.now payload.now }
        ensures { row_ref_view result ≡ row_held self.now payload.now }
    {
        self.row_ref(payload)
    }

    /// The row that a payload is, which borrows it. No memory is asked for.
    ///
    /// Promise: exactly the row is answered that reading gives of the whole payload, or reading's
    /// first refusal, or `BytesLeft`; no byte is copied (`row_of`).
    ///
    /// # Errors
    /// - `Unreadable` with the first refusal that reading meets. `UnexpectedEof` is where the
    ///   payload ends before its row does, `BadConstant` where another byte than 00 begins a binary
    ///   row. `BadLength` is where ff begins a text cell, `UnsupportedType` for a column's type
    ///   without binary cells.
    /// - `BytesLeft` where bytes stand behind the last cell.
    ///
    /// MySQL: Client/Server Protocol, "Text Resultset Row" and "Binary Protocol Resultset Row".
    pub fn row<'r, 'p>(&'r mut self, payload: &'p [u8]) -> Result<RowRef<'r, 'p>, RowError>
        ensures* after { sem 𝓛 (GoesOnReading self.entry) }
        ensures row { seen row_ref_view result ≡ row_of self.old.format (shared_columns self.old.columns) payload.now }
        ensures columns { IfOk result (λ row. (row_ref_view row).columns ≡ shared_columns self.old.columns) }
    {
        match self.read(payload) {
            Err(e) => Err(e),
            Ok(()) => Ok(self.row_ref(payload)),
        }
    }
}
