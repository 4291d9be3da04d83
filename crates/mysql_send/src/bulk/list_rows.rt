//! Rows of values that stand in the query's order, each value written as soon as it is looked at.

ghost use Rattle.std.specs.Prelude.{◌≡◌, ◌||◌, ◌<◌, IfOk, false, is_none, length, take, true};
ghost use Rattle.mysql_values.specs.Values.{content_of};
ghost use Rattle.mysql_bulk_builder.specs.RowLists.{row_in};
ghost use Rattle.mysql_bulk_builder.specs.ValueTypes.{is_null, same_kind};
ghost use Rattle.mysql_send.specs.BulkSets.{JoinsColumn, PutsRow};

use crate::bulk::command::put_value;
use mysql_cells::value::is_float;
use mysql_values::Value;
use mysql_values::laws::fields_fit;
use std::alloc::AllocError;

/// Whether a value is NULL, or of the kind of its column's first value and no float.
fn is_alike(first: &Value, value: &Value) -> bool
    ensures kind { result ≡ true → (is_null value.now || is_null first.now || same_kind first.now value.now) ≡ true }
    ensures no_float { result ≡ true → is_none (content_of value.now) ≡ false }
{
    match (first, value) {
        (_, Value::NULL)
        | (Value::Int(_), Value::Int(_))
        | (Value::Bytes(_), Value::Bytes(_))
        | (Value::UInt(_), Value::UInt(_))
        | (Value::Date(..), Value::Date(..))
        | (Value::Time(..), Value::Time(..)) => true,
        _ => false,
    }
}

/// Whether a value joins its column: it is no float, and NULL or of the kind of the column's first
/// value where that isn't NULL. A first value that is NULL has then given way to it.
#[inline(always)]
fn joins_column<'a>(value: &'a Value, column: usize, firsts: &mut [&'a Value]) -> bool
    requires { column < length firsts.old }
    ensures { result ≡ true → JoinsColumn (row_in firsts.old) (row_in firsts.new) column value.entry.now }
{
    if !firsts[column].is_null() {
        return is_alike(firsts[column], value);
    }
    if is_float(value) {
        return false;
    }
    firsts[column] = value;
    true
}

/// Appends the values of a row. It says whether each column has one, none is a float, and each is
/// of its column's kind. A column's kind is that of the first value in the rows before. The first
/// values are then those with this row.
#[inline(always)]
pub(crate) fn put_given_list<'a>(
    row: &'a [Value],
    firsts: &mut [&'a Value],
    out: &mut Vec<u8>,
) -> Result<bool, AllocError>
    ensures ok { IfOk result (λ put. put ≡ true →
        PutsRow (row_in firsts.old) (row_in firsts.new) row.entry.now out.old.items out.new.items) }
    ensures kept { take (length out.old.items) out.new.items ≡ out.old.items }
{
    if row.len() != firsts.len() {
        return Ok(false);
    }
    'values: for (column, value) in row.iter().enumerate() {
        fields_fit(value);
        let joins = joins_column(value, column, firsts);
        if !joins {
            return Ok(false);
        }
        put_value(value, out)?;
    }
    Ok(true)
}
