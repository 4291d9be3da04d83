//! Values of different kinds in one column.

ghost use Rattle.std.specs.Prelude.{◌≡◌, ◌||◌, ◌++◌, All, IfOk, List, None, [], ◌∷◌, length, not};
ghost use Rattle.mysql_bulk_builder.specs.Causes.{is_of_other_kind, mixed_kinds, place_where};
ghost use Rattle.mysql_bulk_builder.specs.Cut.{Row};
ghost use Rattle.mysql_bulk_builder.specs.RowLists.{row_in, rows_in};
ghost use Rattle.mysql_bulk_builder.specs.ValueTypes.{first_values, is_null, same_kind, sent_type};

use crate::first_values::no_first_values;
use mysql_cells::Value;
use std::alloc::{AllocError, Global};

/// The flags of the type that a value is sent by.
fn sent_flags(value: &Value) -> u8
    ensures { result ≡ (sent_type value.now).1 }
{
    if value.is_unsigned() { 0x80 } else { 0 }
}

/// Whether two values are sent by one type.
fn same_kind(a: &Value, b: &Value) -> bool
    ensures { result ≡ same_kind a.now b.now }
{
    u8::from(a.column_type()) == u8::from(b.column_type()) && sent_flags(a) == sent_flags(b)
}

/// Whether a value is of another kind than the first one of its column.
fn is_other(first: &Value, value: &Value) -> bool
    ensures { result ≡ not (is_null value.now || is_null first.now || same_kind first.now value.now) }
{
    match (first, value) {
        // without a look at their types
        (_, Value::NULL)
        | (Value::Int(_), Value::Int(_))
        | (Value::Bytes(_), Value::Bytes(_))
        | (Value::UInt(_), Value::UInt(_))
        | (Value::Date(..), Value::Date(..))
        | (Value::Time(..), Value::Time(..)) => false,
        _ => !(value.is_null() || first.is_null() || same_kind(first, value)),
    }
}

/// The least place of a value of another kind than the first one of its column in the rows before.
/// Where there is none, each NULL among these first values has given way to the row's value.
///
/// MariaDB: Client/Server Protocol, "COM_STMT_BULK_EXECUTE" (parameter types).
pub fn place_of_other<'a>(firsts: &mut [&'a Value], row: &[&'a Value]) -> Option<usize>
    requires { length row.now ≡ length firsts.old }
    ensures place { (before : List Row) → row_in firsts.old ≡
        first_values (length firsts.old) before → result ≡
        place_where (is_of_other_kind before) (row_in row.now) }
    ensures firsts { result ≡ None → (before : List Row) → row_in firsts.old ≡
        first_values (length firsts.old) before → row_in firsts.new ≡
        first_values (length firsts.old) (before ++ row_in row.now ∷ []) }
{
    for (i, value) in row.iter().enumerate() {
        if firsts[i].is_null() {
            firsts[i] = *value;
        } else if is_other(firsts[i], *value) {
            return Some(i);
        }
    }
    None
}

/// The least row, and place in it, with a value of another kind than its column's earlier ones.
pub fn mixed_kinds(
    alloc: Global,
    rows: &[&[&Value]],
    columns: usize,
) -> Result<Option<(usize, usize)>, AllocError>
    requires { All (λ row. length row.now ≡ columns) rows.now }
    ensures { IfOk result (λ found. found ≡ mixed_kinds (rows_in rows.now)) }
{
    let null = Value::NULL;
    let mut firsts = no_first_values(alloc, &null, columns)?;
    for (set, row) in rows.iter().enumerate() {
        if let Some(place) = place_of_other(&mut firsts, *row) {
            return Ok(Some((set, place)));
        }
    }
    Ok(None)
}
