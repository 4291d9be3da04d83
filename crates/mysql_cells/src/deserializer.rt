//! Values read as fields: cells of the text protocol and of the binary protocol.
//!
//!     let text: ValueDeserializer<TextValue> = buf.parse(alloc, ())?;
//!     let cell: ValueDeserializer<BinValue> = buf.parse(alloc, (column_type, flags))?;
//!     let value = cell.0;

ghost use Rattle.mysql_cells.specs.Cells.{column_cell_at, has_no_sign, text_cell_at};
ghost use Rattle.mysql_cells.specs.declared.value.Value.{Value as ValueOf};
ghost use Rattle.mysql_fields.specs.Laws.{unsized};
ghost use Rattle.std.specs.Prelude.{◌≡◌, None, true};

use crate::cells::{read_cell, read_text_cell};
use crate::value::Value;
use bitflags::Flags;
use mysql_buf::ParseBuf;
use mysql_const::{ColumnFlags, ColumnType};
use mysql_fields::{MyDeserialize, Readable, WireError};
use std::alloc::Global;
use std::marker::PhantomData;

/// Names the cells of the text protocol.
#[derive(Clone, Copy, Debug, PartialEq, Eq)]
pub struct TextValue;

/// Names the cells of the binary protocol.
#[derive(Clone, Copy, Debug, PartialEq, Eq)]
pub struct BinValue;

/// A value that was read of a cell of the protocol `T`.
#[derive(Drop)]
#[derive_where(Debug, PartialEq, Eq)]
pub struct ValueDeserializer<T>(pub Value, PhantomData<T>);

/// A cell of the text protocol, as [`read_text_cell`] reads it.
impl Readable for ValueDeserializer<TextValue> {
    type Ctx = ();

    ghost AsksForMemory = { true };

    ghost Shown = { ValueOf };

    ghost shown = { λ x. x.0 };

    ghost kept = { λ x. x.0 };

    ghost read_at = { λ _ bytes. text_cell_at bytes };

    ghost sized = { λ _. unsized text_cell_at };

    fn size() -> Option<usize>
        ensures { result ≡ None }
    {
        None
    }
}

impl<'de> MyDeserialize<'de> for ValueDeserializer<TextValue> {
    fn deserialize(
        alloc: Global,
        _ctx: (),
        buf: &mut ParseBuf<'de>,
    ) -> Result<ValueDeserializer<TextValue>, WireError> {
        let value = read_text_cell(alloc, buf)?;
        Ok(ValueDeserializer(value, PhantomData))
    }
}

/// A cell of the binary protocol by its column's type and flags, as [`read_cell`] reads it.
impl Readable for ValueDeserializer<BinValue> {
    type Ctx = (ColumnType, ColumnFlags);

    ghost AsksForMemory = { true };

    ghost Shown = { ValueOf };

    ghost shown = { λ x. x.0 };

    ghost kept = { λ x. x.0 };

    ghost read_at = { λ column bytes. column_cell_at column bytes };

    ghost sized = { λ column. unsized (column_cell_at column) };

    fn size() -> Option<usize>
        ensures { result ≡ None }
    {
        None
    }
}

/// Whether a column's whole numbers have no sign.
fn without_sign(flags: ColumnFlags) -> bool
    ensures { result ≡ has_no_sign flags }
{
    flags.contains(ColumnFlags::UNSIGNED_FLAG)
}

impl<'de> MyDeserialize<'de> for ValueDeserializer<BinValue> {
    fn deserialize(
        alloc: Global,
        column: (ColumnType, ColumnFlags),
        buf: &mut ParseBuf<'de>,
    ) -> Result<ValueDeserializer<BinValue>, WireError> {
        let (column_type, flags) = column;
        let value = read_cell(alloc, u8::from(column_type), without_sign(flags), buf)?;
        Ok(ValueDeserializer(value, PhantomData))
    }
}
