//! Laws of cells and of values. The functions change nothing: their contracts are the laws.

ghost use Rattle.mysql_cells.specs.Values.{FitsFields};
ghost use Rattle.mysql_cells.specs.CellLaws.{CellLength, CellsReadBack, ReadBackMeansTheSame};
ghost use Rattle.mysql_cells.specs.TypedCells.{ReadCellsAreWritten, TypedCellsReadBack};
ghost use Rattle.std.specs.List.{AllByRecursion};

use crate::value::Value;
use mysql_buf::laws::are_bytes;

/// A cell has the length that `Value::bin_len` counts.
pub fn cells_have_lengths()
    ensures { CellLength }
{}

/// A value's cell, read by the type that the value is sent by, is the value.
///
/// That holds whatever follows it; but an unsigned number below 2^63 comes as `Int`, and a negative
/// time of all zeros as positive. What is read means what was written.
pub fn cells_read_back()
    ensures same { CellsReadBack }
    ensures content { ReadBackMeansTheSame }
{}

/// A cell that was written by a type is read by it as the value.
///
/// That holds whatever follows it; but an unsigned number below 2^63 comes as `Int`, and a negative
/// time of all zeros as positive.
pub fn typed_cells_read_back()
    ensures { TypedCellsReadBack }
{}

/// A value that was read by a type has a cell by it, which is read as the value.
///
/// But a negative time of all zeros is read as positive.
pub fn read_cells_are_written()
    ensures { ReadCellsAreWritten }
{}

/// Each number of a value fits its field.
///
/// It only reads: compiled with optimizations, nothing is left of it.
pub fn fields_fit(value: &Value)
    ensures { FitsFields value.now }
{
    match value {
        Value::NULL => {}
        Value::Bytes(bytes) => {
            are_bytes(bytes.as_slice());
        }
        Value::Int(number) => {
            let _number = *number;
        }
        Value::UInt(number) => {
            let _number = *number;
        }
        Value::Float(bits) => {
            let _bits = *bits;
        }
        Value::Double(bits) => {
            let _bits = *bits;
        }
        Value::Date(year, month, day, hour, minute, second, micros) => {
            let _date = (*year, *month, *day, *hour, *minute, *second, *micros);
        }
        Value::Time(_, days, hours, minutes, seconds, micros) => {
            let _time = (*days, *hours, *minutes, *seconds, *micros);
        }
    }
}

/// Each number of each value fits its field.
///
/// It only reads: compiled with optimizations, nothing is left of its loop.
pub fn all_fields_fit(values: &[Value])
    ensures { AllByRecursion (λ value. FitsFields value) values.now }
{
    for value in values {
        fields_fit(value);
    }
}
