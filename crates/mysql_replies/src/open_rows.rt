//! The rows so far of a result set that goes on.

ghost use Rattle.std.specs.Prelude.{◌≡◌, ◌==◌, ◌<◌, [], ◌∷◌, ◌++◌, None, OnErr, OnOk, length, option_map};
ghost use Rattle.mysql_ok_packets.specs.Views.{ok_packet_view};
ghost use Rattle.mysql_rows.specs.Views.{row_view, shared_columns};
ghost use Rattle.mysql_replies.specs.OpenRows.{rows_of};
ghost use Rattle.mysql_replies.specs.Together.{RowsResult};
ghost use Rattle.mysql_replies.specs.Views.{outcome_view};

use crate::results::ReplyResult;
use mysql_columns::Column;
use mysql_ok_packets::OkPacket;
use mysql_rows::Row;
use std::alloc::{AllocError, Global};
use std::marker::Model;
use std::mem;
use std::rc::RcSlice;

/// The rows so far of a result set that goes on, under their columns.
///
/// With a second share of the columns the rows are handed out without a request for memory. Rows
/// that are borrowed aren't among them.
#[derive(Drop)]
pub struct OpenRows {
    columns: RcSlice<Column>,
    // There where there are rows.
    share: Option<RcSlice<Column>>,
    rows: Vec<Row>,
}

impl Model for OpenRows {
    ghost use Rattle.mysql_replies.specs.OpenRows.{RowsSoFar};

    ghost Value = { RowsSoFar };

    ghost use Rattle.mysql_rows.specs.Views.{shared_columns};
    ghost use Rattle.mysql_replies.specs.OpenRows.{rows_of, HasShare};

    ghost view = { λ so_far. record {
      columns = shared_columns so_far.columns;
      rows = rows_of so_far.rows.items;
    } };

    ghost invariant = { λ so_far. HasShare so_far.columns so_far.share so_far.rows.items };
}

impl OpenRows {
    /// No row under these columns.
    pub fn new(alloc: Global, columns: RcSlice<Column>) -> OpenRows
        ensures { result ≡ record { columns = shared_columns columns; rows = [] } }
    {
        OpenRows {
            columns,
            share: None,
            rows: Vec::new(alloc),
        }
    }

    /// The rows.
    pub fn rows(&self) -> &[Row]
        ensures { rows_of result.now ≡ self.now.rows }
    {
        self.rows.as_slice()
    }

    /// Whether there is no row.
    pub fn is_empty(&self) -> bool
        ensures { result ≡ (length self.now.rows == 0) }
    {
        self.rows.is_empty()
    }

    /// Adds a row. Where memory ran out, nothing changes.
    #[inline(always)]
    pub fn push(&mut self, row: Row) -> Result<(), AllocError>
        ensures ok { OnOk result (self.new ≡ record self.old { rows = self.old.rows ++ row_view row ∷ [] }) }
        ensures err { OnErr result (self.new ≡ self.old) }
    {
        if self.share.is_none() {
            self.share = Some(self.columns.clone()?);
        }
        self.rows.push(row)?;
        Ok(())
    }

    /// Hands out the rows, as a part of the result set. Takes no memory.
    ///
    /// The rows behind them are listed anew.
    pub fn take(&mut self, alloc: Global) -> ReplyResult
        requires { 0 < length self.old.rows }
        ensures part { outcome_view result ≡ RowsResult self.old.columns self.old.rows None }
        ensures rest { self.new ≡ record self.old { rows = [] } }
    {
        let Some(columns) = mem::replace(&mut self.share, None) else {
            unreachable!()
        };
        let rows = mem::replace(&mut self.rows, Vec::new(alloc));
        ReplyResult::Rows {
            columns,
            rows,
            terminator: None,
        }
    }

    /// The result set, as far as it was not handed out.
    pub fn into_result(self, terminator: Option<OkPacket<'static>>) -> ReplyResult
        ensures { outcome_view result ≡ RowsResult self.columns self.rows (option_map ok_packet_view terminator.entry) }
    {
        let OpenRows {
            columns,
            share: _,
            rows,
        } = self;
        ReplyResult::Rows {
            columns,
            rows,
            terminator,
        }
    }
}
