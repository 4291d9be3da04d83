//! A bulk request of rows whose values lie apart from each other.

ghost use Rattle.std.specs.Prelude.{◌≡◌, ◌<◌, ◌++◌, ◌∷◌, OnOk, length, take};
ghost use Rattle.std.specs.Int.{cast_unsigned, w64};
ghost use Rattle.byteorder.specs.Endian.{little_bytes};
ghost use Rattle.mysql_buf.specs.Writing.{lenenc_str};
ghost use Rattle.mysql_bulk_builder.specs.Bulk.{bulk_command, indicator_of, param_value_bytes, param_value_of};
ghost use Rattle.mysql_bulk_builder.specs.RowLists.{row_in, rows_in};
ghost use Rattle.mysql_bulk_builder.specs.TypedRequests.{typing_of};
ghost use Rattle.mysql_send.specs.BulkSets.{front_bytes, request_flags, row_bytes, types_by, types_bytes};
ghost use Rattle.std.specs.List.{flat_map};
ghost use Rattle.mysql_bulk_builder.specs.Bulk.{param_type_bytes};

use mysql_bulk_builder::StmtBulkExecuteParamType;
use mysql_const::{Command, MariadbBulkIndicator};
use mysql_fields::{LeU16, LeU32, MySerialize, RawInt};
use mysql_values::Value;
use std::alloc::AllocError;

/// What stands before a value.
fn indicator_of(value: &Value) -> MariadbBulkIndicator
    ensures { result ≡ indicator_of value.now }
{
    match value {
        Value::NULL => MariadbBulkIndicator::BULK_INDICATOR_NULL,
        _ => MariadbBulkIndicator::BULK_INDICATOR_NONE,
    }
}

/// The bytes of a whole number behind what stands before it.
fn number_bytes(number: i64) -> [u8; 9]
    ensures { result ≡ 0 ∷ little_bytes 8 (cast_unsigned w64 number) }
{
    let [a, b, c, d, e, f, g, h] = number.to_le_bytes();
    [0, a, b, c, d, e, f, g, h]
}

/// Appends a text whose length is one byte, with what stands before it.
#[inline(always)]
fn put_short_text(text: &[u8], command: &mut Vec<u8>) -> Result<(), AllocError>
    requires { length text.now < 251 }
    ensures ok { OnOk result (command.new.items ≡ command.old.items ++ 0 ∷ lenenc_str text.now) }
    ensures kept { take (length command.old.items) command.new.items ≡ command.old.items }
{
    command.extend_from_slice(&[0, text.len() as u8])?;
    command.extend_from_slice(text)
}

/// Appends a value of whichever kind with what stands before it.
#[inline(never)]
fn put_any(value: &Value, command: &mut Vec<u8>) -> Result<(), AllocError>
    ensures ok { OnOk result (command.new.items ≡ command.old.items ++ param_value_bytes (param_value_of value.now)) }
    ensures kept { take (length command.old.items) command.new.items ≡ command.old.items }
{
    command.push(u8::from(indicator_of(value)))?;
    value.serialize(command)
}

/// Appends a value with what stands before it.
#[inline(always)]
pub(crate) fn put_value(value: &Value, command: &mut Vec<u8>) -> Result<(), AllocError>
    ensures ok { OnOk result (command.new.items ≡ command.old.items ++ param_value_bytes (param_value_of value.now)) }
    ensures kept { take (length command.old.items) command.new.items ≡ command.old.items }
{
    match value {
        // the kinds that most values have
        Value::NULL => command.extend_from_slice(&[1]),
        Value::Int(number) => command.extend_from_slice(&number_bytes(*number)),
        Value::Bytes(bytes) if bytes.as_slice().len() < 251 => {
            put_short_text(bytes.as_slice(), command)
        }
        _ => put_any(value, command),
    }
}

/// Appends the values of a row.
pub(crate) fn put_row(row: &[&Value], command: &mut Vec<u8>) -> Result<(), AllocError>
    ensures ok { OnOk result (command.new.items ≡ command.old.items ++ row_bytes (row_in row.now)) }
    ensures kept { take (length command.old.items) command.new.items ≡ command.old.items }
{
    for value in row {
        put_value(*value, command)?;
    }
    Ok(())
}

/// Appends the values of all rows, one row after another.
fn put_values(rows: &[&[&Value]], command: &mut Vec<u8>) -> Result<(), AllocError>
    ensures { OnOk result (command.new.items ≡ command.old.items ++ flat_map row_bytes (rows_in rows.now)) }
{
    for row in rows {
        put_row(*row, command)?;
    }
    Ok(())
}

/// Appends the types that values are sent by.
fn put_types(values: &[&Value], command: &mut Vec<u8>) -> Result<(), AllocError>
    ensures { OnOk result (command.new.items ≡ command.old.items ++ types_bytes (row_in values.now)) }
{
    for value in values {
        StmtBulkExecuteParamType::from_value(*value).serialize(command)?;
    }
    Ok(())
}

/// Appends the flags, and the types of the columns' first values where types are sent.
fn put_flags_and_types(
    typed: bool,
    firsts: &[&Value],
    command: &mut Vec<u8>,
) -> Result<(), AllocError>
    ensures { OnOk result (command.new.items ≡ command.old.items ++
        (little_bytes 2 (request_flags (typing_of typed)) ++
        flat_map param_type_bytes (types_by typed (row_in firsts.now)))) }
{
    if typed {
        let flags: RawInt<LeU16> = RawInt::new(0x80);
        flags.serialize(command)?;
        put_types(firsts, command)
    } else {
        let flags: RawInt<LeU16> = RawInt::new(0);
        flags.serialize(command)
    }
}

/// Appends a bulk request up to its rows, with the types of the columns' first values or without.
pub(crate) fn put_front(
    id: u32,
    typed: bool,
    firsts: &[&Value],
    command: &mut Vec<u8>,
) -> Result<(), AllocError>
    ensures { OnOk result (command.new.items ≡ command.old.items ++ front_bytes id typed (row_in firsts.now)) }
{
    command.push(Command::COM_STMT_BULK_EXECUTE as u8)?;
    let id: RawInt<LeU32> = RawInt::new(id);
    id.serialize(command)?;
    put_flags_and_types(typed, firsts, command)
}

/// Appends the bulk request of these rows, with the types of the columns' first values or without.
pub(crate) fn put_request(
    id: u32,
    typed: bool,
    firsts: &[&Value],
    rows: &[&[&Value]],
    command: &mut Vec<u8>,
) -> Result<(), AllocError>
    ensures { OnOk result (command.new.items ≡ command.old.items ++
        bulk_command id (request_flags (typing_of typed)) (types_by typed (row_in firsts.now))
        (rows_in rows.now)) }
{
    put_front(id, typed, firsts, command)?;
    put_values(rows, command)
}
