//! The columns that stand, by which rows are read.

ghost use Rattle.std.specs.Prelude.{◌≡◌, List, Some, None, IfOk, IsSome, OnOk};
ghost use Rattle.mysql_columns.specs.Columns.{ColumnDefinition};
ghost use Rattle.mysql_rows.specs.Views.{shared_columns};
ghost use Rattle.mysql_reply_events.specs.NextRows.{TakesRowAt};
ghost use Rattle.mysql_reply_events.specs.Standing.{ReadsAt, columns_of};
ghost use Rattle.mysql_reply_events.specs.Table.{are_so_many};

use crate::fault::ReplyFault;
use mysql_columns::Column;
use mysql_row_refs::{RowFormat, RowReader};
use std::alloc::{AllocError, Global};
use std::marker::Model;
use std::rc::RcSlice;

/// The columns that stand, if some do, and what reads rows under them to be lent.
#[derive(Drop)]
pub struct StandingColumns {
    columns: Option<RcSlice<Column>>,
    format: RowFormat,
    // There once a row was lent.
    reader: Option<RowReader>,
}

impl Model for StandingColumns {
    ghost use Rattle.mysql_reply_events.specs.Standing.{Standing};

    ghost Value = { Standing };

    ghost use Rattle.mysql_reply_events.specs.Standing.{IsReaderOf, columns_of};

    ghost view = { λ s. record {
      columns = columns_of s.columns;
      format = s.format;
      reader = s.reader;
    } };

    ghost invariant = { λ s. IsReaderOf (columns_of s.columns) s.format s.reader };
}

impl StandingColumns {
    /// These columns, and rows in this format.
    pub fn new(columns: Option<RcSlice<Column>>, format: RowFormat) -> StandingColumns
        ensures { result ≡ record { columns = columns_of columns; format = format; reader = None } }
    {
        StandingColumns {
            columns,
            format,
            reader: None,
        }
    }

    /// These columns stand now.
    pub fn replace(&mut self, columns: RcSlice<Column>)
        ensures { self.new ≡
            record { columns = Some (shared_columns columns); format = self.old.format; reader = None } }
    {
        self.columns = Some(columns);
        self.reader = None;
    }

    /// The columns.
    pub fn columns(&self) -> &Option<RcSlice<Column>>
        ensures { columns_of result.now ≡ self.now.columns }
    {
        &self.columns
    }

    /// Whether so many columns stand.
    pub fn are_so_many(&self, count: u16) -> bool
        ensures { result ≡ are_so_many count self.now.columns }
    {
        match &self.columns {
            Some(columns) => columns.len() == count as usize,
            None => false,
        }
    }

    /// The columns, taken.
    pub fn into_columns(self) -> Option<RcSlice<Column>>
        ensures { columns_of result ≡ self.columns }
    {
        let StandingColumns {
            columns,
            format: _,
            reader: _,
        } = self;
        columns
    }

    // Makes a reader of rows under these columns.
    #[inline(never)]
    fn make_reader(&mut self, alloc: Global) -> Result<(), AllocError>
        requires { IsSome self.old.columns }
        ensures rest { self.new ≡ record self.old { reader = self.new.reader } }
        ensures reader { OnOk result (IsSome self.new.reader) }
    {
        let Some(columns) = &self.columns else {
            unreachable!()
        };
        let reader = RowReader::new(alloc, columns.clone()?, self.format)?;
        self.reader = Some(reader);
        Ok(())
    }

    /// Reads the places of the cells of the row that a payload is, under the columns that stand.
    ///
    /// Memory is asked for at the first row alone.
    pub fn read(&mut self, alloc: Global, payload: &[u8]) -> Result<(), ReplyFault>
        requires { IsSome self.old.columns }
        ensures rest { self.new ≡ record self.old { reader = self.new.reader } }
        ensures row { (columns : List ColumnDefinition) → self.old.columns ≡ Some columns →
            ReadsAt self.old.format columns payload.now result self.new.reader }
    {
        if self.reader.is_none() && self.make_reader(alloc).is_err() {
            return Err(ReplyFault::Memory);
        }
        let Some(reader) = &mut self.reader else {
            unreachable!()
        };
        match reader.read(payload) {
            Ok(()) => Ok(()),
            Err(_) => Err(ReplyFault::BadRow),
        }
    }

    /// Reads the places of the cells of the row that a payload is, where one was read before. No memory
    /// is asked for.
    #[inline(always)]
    pub fn take_row(&mut self, payload: &[u8]) -> bool
        ensures rest { self.new ≡ record self.old { reader = self.new.reader } }
        ensures row { TakesRowAt self.old payload.now result self.new.reader }
    {
        let Some(reader) = &mut self.reader else {
            return false;
        };
        match reader.read(payload) {
            Ok(()) => true,
            Err(_) => false,
        }
    }

    /// What reads rows to be lent, once one was.
    pub fn reader(&self) -> &Option<RowReader>
        ensures { result.now ≡ self.now.reader }
    {
        &self.reader
    }

    /// The columns, shared.
    ///
    /// # Errors
    /// - `AllocError` for want of memory.
    pub fn share_columns(&self) -> Result<Option<RcSlice<Column>>, AllocError>
        ensures { IfOk result (λ columns. columns_of columns ≡ self.now.columns) }
    {
        match &self.columns {
            Some(columns) => Ok(Some(columns.clone()?)),
            None => Ok(None),
        }
    }
}
