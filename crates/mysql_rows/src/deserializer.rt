//! Rows read from their payloads.

ghost use Rattle.std.specs.Prelude.{◌≡◌, ◌≤◌, IfOk, None, false, length, true};
ghost use Rattle.mysql_fields.specs.Laws.{unsized};
ghost use Rattle.mysql_fields.specs.Wire.{GivesPart};
ghost use Rattle.mysql_field_lists.specs.NullBitmap.{bitmap_len};
ghost use Rattle.mysql_columns.specs.Views.{column_view};
ghost use Rattle.mysql_rows.specs.Rows.{Row as RowOf, as_row, binary_cell_at, binary_cells_at, binary_row_at};
ghost use Rattle.mysql_rows.specs.Rows.{binary_row_body_at, some_cells, text_row_at};
ghost use Rattle.mysql_field_lists.specs.Lists.{elements_at};
ghost use Rattle.mysql_cells.specs.Cells.{column_cell_at, text_cell_at, value_at};
ghost use Rattle.mysql_cells.specs.declared.cell_form.CellForm.TheVariants as cell_form;
ghost use Rattle.mysql_rows.specs.Views.{column_views, row_view, shared_columns};

use crate::binary_cell::has_no_sign;
use crate::calls::new_row_raw;
use crate::row::Row;
use mysql_buf::ParseBuf;
use mysql_bytes::ByteString;
use mysql_cells::cell_form::{CellForm, form_of_type};
use mysql_cells::cell_values::whole8;
use mysql_cells::{Value, read_cell, read_text_cell};
use mysql_columns::Column;
use mysql_field_lists::{NullBitmap, SerializationSide};
use mysql_fields::{Binary, MyDeserialize, Readable, Text, WireError};
use std::alloc::{AllocError, Global};
use std::marker::PhantomData;
use std::rc::RcSlice;

/// A row that was read by the protocol `P`, `Text` or `Binary`.
///
/// In the binary protocol the side `S` wrote it. A bitmap of a server has two bits before that of
/// the first column, and one of a client has none.
///
/// Promise: exactly the row is read that the definitions read from any bytes, or their refusal is
/// answered and all bytes are left (`text_row_at`, `binary_row_at`).
#[derive(Drop)]
#[derive_where(Debug, PartialEq)]
pub struct RowDeserializer<S, P>(Row, PhantomData<(S, P)>);

impl<S, P> RowDeserializer<S, P> {
    /// The row.
    pub fn into_inner(self) -> Row
        ensures { result ≡ self.0 }
    {
        self.0
    }

    /// A copy of the row, with the same protocol and side.
    ///
    /// # Errors
    /// - `AllocError` for want of memory.
    pub fn clone(&self, alloc: Global) -> Result<RowDeserializer<S, P>, AllocError>
        ensures { IfOk result (λ copy. row_view copy.0 ≡ row_view self.now.0) }
    {
        let row = self.0.clone(alloc)?;
        Ok(RowDeserializer(row, PhantomData))
    }
}

/// The row.
impl<S, P> From<RowDeserializer<S, P>> for Row {
    ghost from_gives = { λ read row. row ≡ read.0 };

    fn from(read: RowDeserializer<S, P>) -> Row {
        read.0
    }
}

// The cells of a text row.
fn text_cells(
    alloc: Global,
    count: usize,
    rest: &mut ParseBuf,
) -> Result<Vec<Option<Value>>, WireError>
    ensures cells { GivesPart (λ cells. cells.items) rest.new.0.now result
        (some_cells (elements_at text_cell_at count rest.old.0.now)) }
    ensures len { IfOk result (λ cells. length cells.items ≡ count) }
{
    let mut cells = Vec::with_capacity(alloc, count)?;
    for _ in 0..count {
        let value = read_text_cell(alloc, rest)?;
        cells.push_reserved(Some(value));
    }
    Ok(cells)
}

// A cell of eight bytes.
#[inline(always)]
fn eight_cell(unsigned: bool, rest: &mut ParseBuf) -> Result<Value, WireError>
    ensures { GivesPart (λ value. value) rest.new.0.now result
        (value_at cell_form.Whole8 unsigned rest.old.0.now) }
{
    match rest.checked_eat_u64_le() {
        Some(number) => Ok(whole8(unsigned, number)),
        None => Err(WireError::UnexpectedEof),
    }
}

// A cell of length-encoded bytes, which have no sign.
#[inline(always)]
fn counted_cell(alloc: Global, rest: &mut ParseBuf) -> Result<Value, WireError>
    ensures { GivesPart (λ value. value) rest.new.0.now result
        (value_at cell_form.Counted false rest.old.0.now) }
{
    match rest.checked_eat_lenenc_str() {
        Some(bytes) => Ok(Value::Bytes(ByteString::copy(alloc, bytes)?)),
        None => Err(WireError::UnexpectedEof),
    }
}

// A cell of any form.
#[inline(never)]
fn any_cell(alloc: Global, column: &Column, rest: &mut ParseBuf) -> Result<Value, WireError>
    ensures { GivesPart (λ value. value) rest.new.0.now result (column_cell_at
        ((column_view column.now).column_type, (column_view column.now).flags) rest.old.0.now) }
{
    let number = u8::from(column.column_type());
    read_cell(alloc, number, has_no_sign(column.flags()), rest)
}

// A cell that is null, or stands first. The forms that most columns have come first.
#[inline(always)]
#[tactic(auto, unfolding(mysql_cells::specs::Cells::cell_at), using(mysql_cells::proofs::Forms::form_by_number))]
fn binary_cell(
    alloc: Global,
    is_null: bool,
    column: &Column,
    rest: &mut ParseBuf,
) -> Result<Value, WireError>
    ensures { GivesPart (λ value. value) rest.new.0.now result
        (binary_cell_at is_null (column_view column.now) rest.old.0.now) }
{
    if is_null {
        return Ok(Value::NULL);
    }
    match form_of_type(column.column_type()) {
        CellForm::Whole8 => eight_cell(has_no_sign(column.flags()), rest),
        CellForm::Counted => counted_cell(alloc, rest),
        _ => {
            // A copy is borrowed: what nothing borrows is held in registers, for the other forms.
            let mut bytes = *rest;
            let value = any_cell(alloc, column, &mut bytes);
            *rest = bytes;
            value
        }
    }
}

// The cells of a binary row.
fn binary_cells<S: SerializationSide>(
    alloc: Global,
    columns: &[Column],
    bitmap: &[u8],
    rest: &mut ParseBuf,
) -> Result<Vec<Option<Value>>, WireError>
    requires { bitmap_len S.BIT_OFFSET (length columns.now) ≤ length bitmap.now }
    ensures cells { GivesPart (λ cells. cells.items) rest.new.0.now result
        (some_cells (binary_cells_at S.BIT_OFFSET bitmap.now 0 (column_views columns.now)
        rest.old.0.now)) }
    ensures len { IfOk result (λ cells. length cells.items ≡ length columns.now) }
{
    let bitmap = NullBitmap::<S, &[u8]>::from_bytes(bitmap);
    let mut cells = Vec::with_capacity(alloc, columns.len())?;
    for column in columns {
        let null = bitmap.is_null(cells.len());
        let value = binary_cell(alloc, null, column, rest)?;
        cells.push_reserved(Some(value));
    }
    Ok(cells)
}

// The cells of a binary row, after its first byte and its bitmap.
#[tactic(auto, unfolding(crate::specs::Rows::binary_row_at, crate::specs::Rows::binary_row_body_at))]
fn binary_row<S: SerializationSide>(
    alloc: Global,
    columns: &[Column],
    rest: &mut ParseBuf,
) -> Result<Vec<Option<Value>>, WireError>
    ensures cells { GivesPart (λ cells. cells.items) rest.new.0.now result
        (some_cells (binary_row_at S.BIT_OFFSET (column_views columns.now) rest.old.0.now)) }
    ensures len { IfOk result (λ cells. length cells.items ≡ length columns.now) }
{
    let Some(_header) = rest.checked_eat(1) else {
        return Err(WireError::UnexpectedEof);
    };
    let len = NullBitmap::<S, &[u8]>::bitmap_len(columns.len());
    let Some(bitmap) = rest.checked_eat(len) else {
        return Err(WireError::UnexpectedEof);
    };
    binary_cells::<S>(alloc, columns, bitmap, rest)
}

impl<S> Readable for RowDeserializer<S, Text> {
    type Ctx = RcSlice<Column>;

    ghost AsksForMemory = { true };

    ghost Shown = { RowOf };

    ghost shown = { λ x. row_view x.0 };

    ghost kept = { λ x. row_view x.0 };

    ghost read_at = { λ columns bytes. as_row (shared_columns columns) (text_row_at (shared_columns columns) bytes) };

    ghost sized = { λ columns. unsized
        (λ bytes. as_row (shared_columns columns) (text_row_at (shared_columns columns) bytes)) };

    fn size() -> Option<usize>
        ensures { result ≡ None }
    {
        None
    }
}

/// Reads a row: a cell for each column, fb for NULL, else length-encoded bytes. Refuses, at the first cell that fails,
/// UnexpectedEof or BadLength (a first byte ff), and Memory; all bytes are then left.
///
/// MySQL: Client/Server Protocol, "Text Resultset Row".
impl<'de, S> MyDeserialize<'de> for RowDeserializer<S, Text> {
    fn deserialize(
        alloc: Global,
        columns: RcSlice<Column>,
        buf: &mut ParseBuf<'de>,
    ) -> Result<RowDeserializer<S, Text>, WireError> {
        let mut rest = *buf;
        let cells = text_cells(alloc, columns.len(), &mut rest)?;
        *buf = rest;
        Ok(RowDeserializer(new_row_raw(cells, columns), PhantomData))
    }
}

impl<S: SerializationSide> Readable for RowDeserializer<S, Binary> {
    type Ctx = RcSlice<Column>;

    ghost AsksForMemory = { true };

    ghost Shown = { RowOf };

    ghost shown = { λ x. row_view x.0 };

    ghost kept = { λ x. row_view x.0 };

    ghost read_at = { λ columns bytes. as_row (shared_columns columns)
        (binary_row_at S.BIT_OFFSET (shared_columns columns) bytes) };

    ghost sized = { λ columns. unsized
        (λ bytes. as_row (shared_columns columns)
        (binary_row_at S.BIT_OFFSET (shared_columns columns) bytes)) };

    fn size() -> Option<usize>
        ensures { result ≡ None }
    {
        None
    }
}

/// Reads a row. It has a byte of any value and the bitmap of the columns that are NULL. The cells
/// of the others follow, by their columns' types and flags. Refuses UnexpectedEof where the first
/// byte or the bitmap is cut off. Then it refuses, at the first cell that fails, UnexpectedEof or
/// UnsupportedType (a type without cells), and Memory. All bytes are then left.
///
/// MySQL: Client/Server Protocol, "Binary Protocol Resultset Row".
impl<'de, S: SerializationSide> MyDeserialize<'de> for RowDeserializer<S, Binary> {
    fn deserialize(
        alloc: Global,
        columns: RcSlice<Column>,
        buf: &mut ParseBuf<'de>,
    ) -> Result<RowDeserializer<S, Binary>, WireError> {
        let mut rest = *buf;
        let cells = binary_row::<S>(alloc, columns.as_slice(), &mut rest)?;
        *buf = rest;
        Ok(RowDeserializer(new_row_raw(cells, columns), PhantomData))
    }
}
