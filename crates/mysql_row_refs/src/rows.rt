//! Rows that are read where they lie: the places of their cells.

ghost use Rattle.std.specs.Prelude.{◌≡◌, ◌≤◌, [], IfOk, OnOk, length, map, true, vec_capacity};
ghost use Rattle.std.specs.List.{list_all};
ghost use Rattle.mysql_fields.specs.Wire.{TellsPart};
ghost use Rattle.mysql_field_lists.specs.Lists.{elements_at};
ghost use Rattle.mysql_field_lists.specs.NullBitmap.{bitmap_len};
ghost use Rattle.mysql_cells.specs.Cells.{text_cell_at};
ghost use Rattle.mysql_columns.specs.Views.{column_view};
ghost use Rattle.mysql_rows.specs.Rows.{binary_cell_at, binary_cells_at, binary_resultset_row_at, binary_row_body_at};
ghost use Rattle.mysql_rows.specs.Views.{column_views};
ghost use Rattle.mysql_row_refs.specs.Places.{IsTail, held, is_inside};

use crate::cells::{binary_place, text_place};
use crate::place::CellPlace;
use mysql_buf::ParseBuf;
use mysql_columns::Column;
use mysql_field_lists::{NullBitmap, ServerSide};
use mysql_fields::WireError;

/// The places of a text row's cells, of so many columns. What is left after a refusal isn't said.
pub fn text_places(
    count: usize,
    payload: &[u8],
    rest: &mut ParseBuf,
    places: &mut Vec<CellPlace>,
) -> Result<(), WireError>
    requires tail { IsTail payload.now rest.old.0.now }
    requires empty { places.old.items ≡ [] }
    requires room { count ≤ vec_capacity places.old }
    ensures cells { TellsPart (λ _. map (held payload.now) places.new.items) rest.new.0.now result
        (elements_at text_cell_at count rest.old.0.now) }
    ensures inside { list_all (is_inside payload.now) places.new.items ≡ true }
    ensures len { OnOk result (length places.new.items ≡ count) }
    ensures capacity { vec_capacity places.new ≡ vec_capacity places.old }
{
    for _ in 0..count {
        let place = text_place(payload, rest)?;
        places.push_reserved(place);
    }
    Ok(())
}

/// The place of a cell that is null, or stands first.
#[inline(always)]
fn null_or_place(
    payload: &[u8],
    is_null: bool,
    column: &Column,
    rest: &mut ParseBuf,
) -> Result<CellPlace, WireError>
    requires { IsTail payload.now rest.old.0.now }
    ensures cell { TellsPart (held payload.now) rest.new.0.now result
        (binary_cell_at is_null (column_view column.now) rest.old.0.now) }
    ensures inside { IfOk result (λ place. is_inside payload.now place ≡ true) }
{
    if is_null {
        return Ok(CellPlace::Null);
    }
    binary_place(payload, column, rest)
}

/// The places of a binary row's cells, behind its bitmap. What is left after a refusal isn't said.
fn binary_places(
    columns: &[Column],
    bitmap: &[u8],
    payload: &[u8],
    rest: &mut ParseBuf,
    places: &mut Vec<CellPlace>,
) -> Result<(), WireError>
    requires bitmap { bitmap_len 2 (length columns.now) ≤ length bitmap.now }
    requires tail { IsTail payload.now rest.old.0.now }
    requires empty { places.old.items ≡ [] }
    requires room { length columns.now ≤ vec_capacity places.old }
    ensures cells { TellsPart (λ _. map (held payload.now) places.new.items) rest.new.0.now result
        (binary_cells_at 2 bitmap.now 0 (column_views columns.now) rest.old.0.now) }
    ensures inside { list_all (is_inside payload.now) places.new.items ≡ true }
    ensures len { OnOk result (length places.new.items ≡ length columns.now) }
    ensures capacity { vec_capacity places.new ≡ vec_capacity places.old }
{
    let bitmap = NullBitmap::<ServerSide, &[u8]>::from_bytes(bitmap);
    for column in columns {
        let null = bitmap.is_null(places.len());
        let place = null_or_place(payload, null, column, rest)?;
        places.push_reserved(place);
    }
    Ok(())
}

/// The places of a binary row's cells, behind its first byte. What is left after a refusal isn't said.
#[tactic(auto, unfolding(mysql_rows::specs::Rows::binary_row_body_at))]
fn binary_body_places(
    columns: &[Column],
    payload: &[u8],
    rest: &mut ParseBuf,
    places: &mut Vec<CellPlace>,
) -> Result<(), WireError>
    requires tail { IsTail payload.now rest.old.0.now }
    requires empty { places.old.items ≡ [] }
    requires room { length columns.now ≤ vec_capacity places.old }
    ensures cells { TellsPart (λ _. map (held payload.now) places.new.items) rest.new.0.now result
        (binary_row_body_at 2 (column_views columns.now) rest.old.0.now) }
    ensures inside { list_all (is_inside payload.now) places.new.items ≡ true }
    ensures len { OnOk result (length places.new.items ≡ length columns.now) }
    ensures capacity { vec_capacity places.new ≡ vec_capacity places.old }
{
    let len = NullBitmap::<ServerSide, &[u8]>::bitmap_len(columns.len());
    let Some(bitmap) = rest.checked_eat(len) else {
        return Err(WireError::UnexpectedEof);
    };
    binary_places(columns, bitmap, payload, rest, places)
}

/// The places of a binary row's cells. What is left after a refusal isn't said.
#[tactic(auto, unfolding(mysql_rows::specs::Rows::binary_resultset_row_at))]
pub fn binary_row_places(
    columns: &[Column],
    payload: &[u8],
    rest: &mut ParseBuf,
    places: &mut Vec<CellPlace>,
) -> Result<(), WireError>
    requires tail { IsTail payload.now rest.old.0.now }
    requires empty { places.old.items ≡ [] }
    requires room { length columns.now ≤ vec_capacity places.old }
    ensures cells { TellsPart (λ _. map (held payload.now) places.new.items) rest.new.0.now result
        (binary_resultset_row_at (column_views columns.now) rest.old.0.now) }
    ensures inside { list_all (is_inside payload.now) places.new.items ≡ true }
    ensures len { OnOk result (length places.new.items ≡ length columns.now) }
    ensures capacity { vec_capacity places.new ≡ vec_capacity places.old }
{
    match rest.checked_eat_u8() {
        Some(0) => binary_body_places(columns, payload, rest, places),
        Some(_) => Err(WireError::BadConstant),
        None => Err(WireError::UnexpectedEof),
    }
}
