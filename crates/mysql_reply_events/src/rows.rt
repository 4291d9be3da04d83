//! Rows of a result set, which own their cells.

ghost use Rattle.std.specs.Prelude.{Ok, if◌then◌else◌};
ghost use Rattle.mysql_fields.specs.Wire.{GivesPart};
ghost use Rattle.mysql_rows.specs.Rows.{as_row, binary_resultset_row_at, text_row_at};
ghost use Rattle.mysql_rows.specs.Views.{row_view, shared_columns};
ghost use Rattle.mysql_reply_events.specs.Readings.{is_binary, row};
ghost use Rattle.mysql_reply_events.specs.Views.{Gives};

use crate::context::{Context, ReplyKind};
use crate::fault::ReplyFault;
use mysql_buf::ParseBuf;
use mysql_columns::Column;
use mysql_field_constants::ConstU8;
use mysql_field_lists::ServerSide;
use mysql_fields::{Binary, ParseExt, Text, WireError};
use mysql_rows::{Row, RowDeserializer};
use std::alloc::Global;
use std::rc::RcSlice;

/// Another byte than 00 begins a binary row.
#[derive(Clone, Copy, Debug, Default, PartialEq, Eq, Hash)]
struct InvalidRowHeader;

// A binary row at the front of the bytes. What is left after a refusal isn't said.
#[tactic(auto, unfolding(mysql_rows::specs::Rows::binary_resultset_row_at))]
fn binary_row_of(
    alloc: Global,
    columns: RcSlice<Column>,
    buf: &mut ParseBuf,
) -> Result<Row, WireError>
    ensures { GivesPart row_view buf.new.0.now result
        (as_row (shared_columns columns)
        (binary_resultset_row_at (shared_columns columns) buf.old.0.now)) }
{
    let mut header = *buf;
    header.parse::<ConstU8<InvalidRowHeader, 0>>(alloc, ())?;
    let row: RowDeserializer<ServerSide, Binary> = buf.parse(alloc, columns)?;
    Ok(row.into_inner())
}

// A text row at the front of the bytes. What is left after a refusal isn't said.
fn text_row_of(
    alloc: Global,
    columns: RcSlice<Column>,
    buf: &mut ParseBuf,
) -> Result<Row, WireError>
    ensures { GivesPart row_view buf.new.0.now result
        (as_row (shared_columns columns) (text_row_at (shared_columns columns) buf.old.0.now)) }
{
    let row: RowDeserializer<ServerSide, Text> = buf.parse(alloc, columns)?;
    Ok(row.into_inner())
}

// A row at the front of the bytes, by the kind of the command. What is left after a refusal isn't said.
fn row_of(
    alloc: Global,
    kind: ReplyKind,
    columns: RcSlice<Column>,
    buf: &mut ParseBuf,
) -> Result<Row, WireError>
    ensures { GivesPart row_view buf.new.0.now result
        (as_row (shared_columns columns)
        (if is_binary kind then binary_resultset_row_at (shared_columns columns) buf.old.0.now else
        text_row_at (shared_columns columns) buf.old.0.now)) }
{
    if kind.has_binary_rows() {
        binary_row_of(alloc, columns, buf)
    } else {
        text_row_of(alloc, columns, buf)
    }
}

/// A row, which shares the columns.
pub fn row_packet(
    alloc: Global,
    context: Context,
    columns: &RcSlice<Column>,
    payload: &[u8],
) -> Result<Row, ReplyFault>
    ensures { Gives row_view result (row context (shared_columns columns.now) payload.now) }
{
    let Ok(columns) = columns.clone() else {
        return Err(ReplyFault::Memory);
    };
    let mut buf = ParseBuf(payload);
    match row_of(alloc, context.kind, columns, &mut buf) {
        Ok(row) => {
            if buf.is_empty() {
                Ok(row)
            } else {
                Err(ReplyFault::BadRow)
            }
        }
        Err(WireError::Memory) => Err(ReplyFault::Memory),
        Err(_) => Err(ReplyFault::BadRow),
    }
}
