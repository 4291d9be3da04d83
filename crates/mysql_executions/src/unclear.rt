//! Values that servers read each their way.
//!
//!     if execution.unclear.is_at(place) { shown.push("unclear")? }

ghost use Rattle.std.specs.Prelude.{◌≡◌, ◌∷◌, ◌++◌, ◌+◌, ◌<◌, ◌||◌, [], ℕ, List, IfOk, None, Some, drop, if◌then◌else◌};
ghost use Rattle.std.specs.Prelude.{◌==◌, is_some, length, not, take};
ghost use Rattle.std.specs.List.{flat_map, list_any};
ghost use Rattle.mysql_field_lists.specs.NullBitmap.{is_null_at};
ghost use Rattle.mysql_executions.specs.InForce.{data_for};
ghost use Rattle.mysql_executions.specs.Types.{unnamed};
ghost use Rattle.mysql_executions.specs.Unclear.{bulk_cell, cells_from, cells_in_row, first_unclear};
ghost use Rattle.mysql_executions.specs.Unclear.{is_odd_cell as is_odd, is_odd_date as is_odd_date_cell};
ghost use Rattle.mysql_executions.specs.Unclear.{is_odd_duration as is_odd_duration_cell};
ghost use Rattle.mysql_executions.specs.Unclear.{is_odd_length as is_odd_length_byte};
ghost use Rattle.mysql_executions.specs.Unclear.{is_odd_sign as is_odd_sign_byte, is_same_type as is_same};
ghost use Rattle.mysql_executions.specs.Unclear.{is_unclear_at};
ghost use Rattle.mysql_executions.specs.Unclear.{is_unclear_cell as is_unclear, is_unclear_type as is_unclear_number};
ghost use Rattle.mysql_executions.specs.Unclear.{has_time_of_day as has_time, is_dated as is_dated_number};
ghost use Rattle.mysql_executions.specs.Unclear.{marks_from, unclear_data};
ghost use Rattle.mysql_executions.specs.Views.{IsFound, cells_of, rows_of, types_by, types_of, unclear_of};

use crate::bulk::BulkValue;
use crate::skipping::skip_typed_value;
use crate::statement::StatementParameters;
use crate::types::{BoundType, ParameterType};
use crate::value_reading::{count_of, is_null, type_of};
use mysql_bytes::ByteString;
use mysql_cells::cell_form::form_of_type;
use mysql_cells::{CellForm, Value};
use mysql_const::ColumnType;
use std::alloc::{AllocError, Global};

/// Cells that servers read each their way: all from the first such one on.
///
/// Such a cell is one of these, and no client library writes one:
///
/// - its length begins with fb or ff;
/// - it is a date whose length isn't 0, 4, 7 or 11, or one of the type DATE with a time of day;
/// - it is a duration whose length isn't 0, 8 or 12, or whose sign isn't 0 or 1;
/// - it is of a type of which some servers take no byte: INT24, YEAR, BIT, GEOMETRY.
///
/// Follows "Binary Protocol Value" of the client/server protocol documentation.
#[derive(Debug, PartialEq, Eq, Drop)]
pub struct UnclearCells {
    /// How many values are before the first such cell.
    ///
    /// They are parameters, and attributes behind them; of a bulk execution they count row by row.
    pub first: usize,
    /// The bytes of the command from that cell on.
    pub bytes: ByteString,
}

/// Values of an execution that servers read each their way.
///
/// The execution's own values are read by the documented layout.
#[derive(Debug, PartialEq, Eq, Drop)]
pub struct UnclearValues {
    /// Those whose cells they are.
    pub cells: Option<UnclearCells>,
    /// Of the first parameters, whether some servers take their long data by the type from before.
    /// That is another type than counts.
    pub long_data: Vec<bool>,
}

impl UnclearValues {
    /// No value is unclear.
    pub fn none(alloc: Global) -> UnclearValues
        ensures { unclear_of result ≡ record { cells = None; long_data = [] } }
    {
        UnclearValues {
            cells: None,
            long_data: Vec::new(alloc),
        }
    }

    /// Whether the value of this number is unclear: a parameter's, or an attribute's behind them.
    ///
    /// Promise: exactly those from the first unclear cell on, and those of unclear long data
    /// (`is_unclear_at`).
    pub fn is_at(&self, place: usize) -> bool
        ensures { result ≡ is_unclear_at (unclear_of self.now) place }
    {
        let is_behind = match &self.cells {
            Some(cells) => cells.first <= place,
            None => false,
        };
        is_behind || matches!(self.long_data.get(place), Some(true))
    }
}

/// Whether some servers take no byte of a type's cells.
fn is_unclear_type(column_type: ColumnType) -> bool
    ensures { result ≡ is_unclear_number column_type }
{
    matches!(
        column_type,
        ColumnType::MYSQL_TYPE_INT24
            | ColumnType::MYSQL_TYPE_YEAR
            | ColumnType::MYSQL_TYPE_BIT
            | ColumnType::MYSQL_TYPE_GEOMETRY
    )
}

/// Whether a length comes first that begins with fb or ff.
fn is_odd_length(bytes: &[u8]) -> bool
    ensures { result ≡ is_odd_length_byte bytes.now }
{
    match bytes {
        [] => false,
        [byte, ..] => *byte == 0xfb || *byte == 0xff,
    }
}

/// Whether a date comes first that has an odd length.
fn is_odd_date(bytes: &[u8]) -> bool
    ensures { result ≡ is_odd_date_cell bytes.now }
{
    match bytes {
        [] => false,
        [size, ..] => !(*size == 0 || *size == 4 || *size == 7 || *size == 11),
    }
}

/// Whether a sign comes first that is neither 0 nor 1.
fn is_odd_sign(bytes: &[u8]) -> bool
    ensures { result ≡ is_odd_sign_byte bytes.now }
{
    match bytes {
        [] => false,
        [sign, ..] => !(*sign <= 1),
    }
}

/// Whether a duration comes first that has an odd length or an odd sign.
fn is_odd_duration(bytes: &[u8]) -> bool
    ensures { result ≡ is_odd_duration_cell bytes.now }
{
    match bytes {
        [] => false,
        [size, rest @ ..] => {
            !(*size == 0) && (!(*size == 8 || *size == 12) || is_odd_sign(rest))
        }
    }
}

/// Whether the first cell has an odd length or an odd sign, by its form.
fn is_odd_cell(form: CellForm, bytes: &[u8]) -> bool
    ensures { result ≡ is_odd form bytes.now }
{
    match form {
        CellForm::Counted => is_odd_length(bytes),
        CellForm::DateAndTime => is_odd_date(bytes),
        CellForm::Duration => is_odd_duration(bytes),
        _ => false,
    }
}

/// Whether some servers take no time of day of a type.
fn is_dated(column_type: ColumnType) -> bool
    ensures { result ≡ is_dated_number column_type }
{
    matches!(column_type, ColumnType::MYSQL_TYPE_DATE)
}

/// Whether a byte of so many isn't zero, behind the first four.
fn is_any_behind_day(bytes: &[u8], size: usize) -> bool
    ensures { result ≡ list_any (λ b. not (b == 0)) (drop 4 (take size bytes.now)) }
{
    bytes.iter().take(size).skip(4).any(|byte| !(*byte == 0))
}

/// Whether a date comes first that has a time of day.
fn has_time_of_day(bytes: &[u8]) -> bool
    ensures { result ≡ has_time bytes.now }
{
    match bytes {
        [] => false,
        [size, rest @ ..] => is_any_behind_day(rest, usize::from(*size)),
    }
}

/// Whether servers read the first cell each their way, by its type.
fn is_unclear_cell(kind: ParameterType, bytes: &[u8]) -> bool
    ensures { result ≡ is_unclear kind bytes.now }
{
    is_unclear_type(kind.column_type)
        || is_odd_cell(form_of_type(kind.column_type), bytes)
        || (is_dated(kind.column_type) && has_time_of_day(bytes))
}

/// Whether long data waits for a parameter.
fn has_data(s: &StatementParameters, place: usize) -> bool
    ensures { result ≡ is_some (data_for s.now.long_data place) }
{
    s.long_data(place).is_some()
}

/// Whether a value of an execution has no cell: long data waits for it, or it is NULL.
fn is_without_cell(s: &StatementParameters, nulls: &[u8], place: usize) -> bool
    ensures { result ≡ (is_some (data_for s.now.long_data place) || is_null_at 0 nulls.now place) }
{
    has_data(s, place) || is_null(nulls, place)
}

/// How many values an execution has: parameters, and attributes behind them.
fn count_of_values(
    own: &Option<Vec<BoundType>>,
    in_force: &[ParameterType],
    further: &[BoundType],
) -> usize
    ensures { result ≡ length (types_by (types_of own.now) in_force.now ++ unnamed further.now) }
{
    match own {
        Some(types) => types.len() + further.len(),
        None => in_force.len() + further.len(),
    }
}

/// The type of a value of an execution.
fn type_of_value(
    own: &Option<Vec<BoundType>>,
    in_force: &[ParameterType],
    further: &[BoundType],
    place: usize,
) -> ParameterType
    requires { place < length (types_by (types_of own.now) in_force.now ++ unnamed further.now) }
    ensures { drop place (types_by (types_of own.now) in_force.now ++ unnamed further.now) ≡
        result ∷ drop (place + 1) (types_by (types_of own.now) in_force.now ++ unnamed further.now) }
{
    let count = count_of(own, in_force);
    if place < count {
        type_of(own, in_force, place)
    } else {
        further[place - count].parameter_type
    }
}

/// The type of a value's cell in an execution, if it has one.
fn cell_type(
    s: &StatementParameters,
    own: &Option<Vec<BoundType>>,
    nulls: &[u8],
    further: &[BoundType],
    place: usize,
) -> Option<ParameterType>
    requires { place < length (types_by (types_of own.now) s.now.types ++ unnamed further.now) }
    ensures { drop place (cells_from s.now.long_data nulls.now 0
        (types_by (types_of own.now) s.now.types ++ unnamed further.now)) ≡
        result ∷ drop (place + 1) (cells_from s.now.long_data nulls.now 0
        (types_by (types_of own.now) s.now.types ++ unnamed further.now)) }
{
    let kind = type_of_value(own, s.types(), further, place);
    if is_without_cell(s, nulls, place) {
        None
    } else {
        Some(kind)
    }
}

/// What is found of cells that follow one another.
///
/// It is the number of the first unclear one and the bytes from it on. Or it is what follows all of
/// them, or a cell that is cut off.
#[derive(Drop)]
pub enum Looked<'a> {
    Unclear(usize, &'a [u8]),
    Clear(&'a [u8]),
    Cut,
}

/// Looks at the cell of a value, which comes first.
fn look_at_typed_cell(place: usize, kind: ParameterType, bytes: &[u8]) -> Looked<'_>
    ensures { (before : ℕ) (from : List ℕ) → drop before from ≡ bytes.now →
        IsFound before place (Some kind ∷ []) from result }
{
    if is_unclear_cell(kind, bytes) {
        return Looked::Unclear(place, bytes);
    }
    match skip_typed_value(kind, bytes) {
        Some(after) => Looked::Clear(after),
        None => Looked::Cut,
    }
}

/// Looks at a value, whose cell comes first if it has one.
fn look_at_cell(place: usize, cell: Option<ParameterType>, bytes: &[u8]) -> Looked<'_>
    ensures { (before : ℕ) (from : List ℕ) → drop before from ≡ bytes.now →
        IsFound before place (cell ∷ []) from result }
{
    match cell {
        Some(kind) => look_at_typed_cell(place, kind, bytes),
        None => Looked::Clear(bytes),
    }
}

/// Looks at the values of an execution, whose cells come first.
fn look_at_values<'a>(
    s: &StatementParameters,
    own: &Option<Vec<BoundType>>,
    nulls: &[u8],
    further: &[BoundType],
    bytes: &'a [u8],
) -> Looked<'a>
    ensures { IsFound 0 0 (cells_from s.now.long_data nulls.now 0
        (types_by (types_of own.now) s.now.types ++ unnamed further.now)) bytes.now result }
{
    let mut rest = bytes;
    for place in 0..count_of_values(own, s.types(), further) {
        match look_at_cell(place, cell_type(s, own, nulls, further, place), rest) {
            Looked::Clear(after) => rest = after,
            Looked::Unclear(at, cell) => return Looked::Unclear(at, cell),
            Looked::Cut => return Looked::Cut,
        }
    }
    Looked::Clear(rest)
}

/// Keeps the bytes from the first unclear cell on, which is behind so many values.
///
/// No memory has room for more values than a usize counts.
fn keep_cells(
    alloc: Global,
    before: usize,
    place: usize,
    bytes: &[u8],
) -> Result<Option<UnclearCells>, AllocError>
    ensures { IfOk result (λ kept. cells_of kept ≡ Some (before + place, bytes.now)) }
{
    let Some(first) = before.checked_add(place) else {
        return Err(AllocError);
    };
    let bytes = ByteString::copy(alloc, bytes)?;
    Ok(Some(UnclearCells { first, bytes }))
}

/// Finds the first unclear cell of an execution whose values can be read, and keeps the bytes from it on.
fn read_unclear_cells(
    alloc: Global,
    s: &StatementParameters,
    own: &Option<Vec<BoundType>>,
    nulls: &[u8],
    further: &[BoundType],
    bytes: &[u8],
) -> Result<Option<UnclearCells>, AllocError>
    ensures { IfOk result (λ found. cells_of found ≡ first_unclear 0 0 (cells_from s.now.long_data nulls.now 0
        (types_by (types_of own.now) s.now.types ++ unnamed further.now)) bytes.now) }
{
    match look_at_values(s, own, nulls, further, bytes) {
        Looked::Unclear(place, cell) => keep_cells(alloc, 0, place, cell),
        Looked::Clear(_) => Ok(None),
        Looked::Cut => Ok(None),
    }
}

/// Whether two types are the same, of the same sign.
fn is_same_type(one: ParameterType, other: ParameterType) -> bool
    ensures { result ≡ is_same one other }
{
    u8::from(one.column_type) == u8::from(other.column_type) && one.unsigned == other.unsigned
}

/// The type that a parameter had before.
fn earlier_type(earlier: &[ParameterType], place: usize) -> ParameterType
    requires { place < length earlier.now }
    ensures { drop place earlier.now ≡ result ∷ drop (place + 1) earlier.now }
{
    earlier[place]
}

/// Whether some servers take the long data of a parameter by the type that it had before.
fn is_unclear_data(s: &StatementParameters, own: &Option<Vec<BoundType>>, place: usize) -> bool
    requires earlier { place < length s.now.types }
    requires typed { place < length (types_by (types_of own.now) s.now.types) }
    ensures { drop place (marks_from s.now.long_data 0 s.now.types (types_by (types_of own.now) s.now.types)) ≡
        result ∷ drop (place + 1) (marks_from s.now.long_data 0 s.now.types
        (types_by (types_of own.now) s.now.types)) }
{
    let earlier = s.types();
    let before = earlier_type(earlier, place);
    let is_same = is_same_type(before, type_of(own, earlier, place));
    has_data(s, place) && !is_same
}

/// Finds of each parameter that had a type whether some servers take its long data by it.
fn read_marks(
    alloc: Global,
    s: &StatementParameters,
    own: &Option<Vec<BoundType>>,
) -> Result<Vec<bool>, AllocError>
    ensures { IfOk result (λ marks. marks.items ≡
        marks_from s.now.long_data 0 s.now.types (types_by (types_of own.now) s.now.types)) }
{
    let mut marks = Vec::new(alloc);
    let earlier = s.types();
    for place in 0..earlier.len().min(count_of(own, earlier)) {
        marks.push(is_unclear_data(s, own, place))?;
    }
    Ok(marks)
}

/// Finds of the first parameters whether some servers take their long data by the type from before.
fn read_unclear_data(
    alloc: Global,
    s: &StatementParameters,
    own: &Option<Vec<BoundType>>,
) -> Result<Vec<bool>, AllocError>
    ensures { IfOk result (λ marks. marks.items ≡
        unclear_data s.now.long_data s.now.types (types_by (types_of own.now) s.now.types)) }
{
    if s.is_waiting() {
        read_marks(alloc, s, own)
    } else {
        Ok(Vec::new(alloc))
    }
}

/// Finds what of an execution is unclear, whose values can be read; its cells begin with these bytes.
pub fn read_unclear(
    alloc: Global,
    s: &StatementParameters,
    own: &Option<Vec<BoundType>>,
    nulls: &[u8],
    further: &[BoundType],
    bytes: &[u8],
) -> Result<UnclearValues, AllocError>
    ensures { IfOk result (λ found. unclear_of found ≡ record {
      cells = first_unclear 0 0 (cells_from s.now.long_data nulls.now 0
          (types_by (types_of own.now) s.now.types ++ unnamed further.now)) bytes.now;
      long_data = unclear_data s.now.long_data s.now.types (types_by (types_of own.now) s.now.types);
    }) }
{
    Ok(UnclearValues {
        cells: read_unclear_cells(alloc, s, own, nulls, further, bytes)?,
        long_data: read_unclear_data(alloc, s, own)?,
    })
}

/// Whether a value of a bulk execution has a cell.
fn has_cell(value: &BulkValue) -> bool
    ensures { (kind : ParameterType) → bulk_cell kind value.now ≡ (if result then Some kind else None) }
{
    match value {
        BulkValue::Value(Value::NULL) | BulkValue::Default | BulkValue::Ignore => false,
        BulkValue::Value(_) => true,
    }
}

/// How many values of a row have a type.
fn width_of(own: &Option<Vec<BoundType>>, in_force: &[ParameterType], row: &[BulkValue]) -> usize
    ensures { result ≡ length (cells_in_row (types_by (types_of own.now) in_force.now) row.now) }
{
    row.len().min(count_of(own, in_force))
}

/// The type of a value's cell in a row, if it has one.
fn cell_type_in_row(
    own: &Option<Vec<BoundType>>,
    in_force: &[ParameterType],
    row: &[BulkValue],
    place: usize,
) -> Option<ParameterType>
    requires typed { place < length (types_by (types_of own.now) in_force.now) }
    requires there { place < length row.now }
    ensures { drop place (cells_in_row (types_by (types_of own.now) in_force.now) row.now) ≡
        result ∷ drop (place + 1) (cells_in_row (types_by (types_of own.now) in_force.now) row.now) }
{
    let kind = type_of(own, in_force, place);
    if has_cell(&row[place]) {
        Some(kind)
    } else {
        None
    }
}

/// What follows an indicator.
fn behind_indicator(bytes: &[u8]) -> &[u8]
    ensures { result.now ≡ drop 1 bytes.now }
{
    match bytes {
        [] => bytes,
        [_, rest @ ..] => rest,
    }
}

/// Looks at the values of a row, which come first, each behind its indicator.
fn look_at_row<'a>(
    own: &Option<Vec<BoundType>>,
    in_force: &[ParameterType],
    row: &[BulkValue],
    bytes: &'a [u8],
) -> Looked<'a>
    ensures { IsFound 1 0 (cells_in_row (types_by (types_of own.now) in_force.now) row.now) bytes.now result }
{
    let mut rest = bytes;
    for place in 0..width_of(own, in_force, row) {
        let cell = cell_type_in_row(own, in_force, row, place);
        match look_at_cell(place, cell, behind_indicator(rest)) {
            Looked::Clear(after) => rest = after,
            Looked::Unclear(at, cell) => return Looked::Unclear(at, cell),
            Looked::Cut => return Looked::Cut,
        }
    }
    Looked::Clear(rest)
}

/// Finds the first unclear cell of rows that come first, and keeps the bytes from it on.
///
/// No memory has room for more values than a usize counts.
pub fn read_unclear_rows(
    alloc: Global,
    own: &Option<Vec<BoundType>>,
    in_force: &[ParameterType],
    rows: &[Vec<BulkValue>],
    bytes: &[u8],
) -> Result<Option<UnclearCells>, AllocError>
    ensures { IfOk result (λ found. cells_of found ≡ first_unclear 1 0
        (flat_map (cells_in_row (types_by (types_of own.now) in_force.now)) (rows_of rows.now)) bytes.now) }
{
    let mut rest = bytes;
    let mut first: usize = 0;
    for row in rows {
        match look_at_row(own, in_force, row.as_slice(), rest) {
            Looked::Clear(after) => rest = after,
            Looked::Unclear(place, cell) => return keep_cells(alloc, first, place, cell),
            Looked::Cut => return Ok(None),
        }
        let width = width_of(own, in_force, row.as_slice());
        first = match first.checked_add(width) {
            Some(behind) => behind,
            None => return Err(AllocError),
        };
    }
    Ok(None)
}
