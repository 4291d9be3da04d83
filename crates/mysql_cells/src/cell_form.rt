//! The forms that cells of the binary protocol have, by their column's type.
//!
//!     let form = form_of_type(ColumnType::MYSQL_TYPE_LONG);
//!     let is_four_bytes = form == CellForm::Whole4;

ghost use Rattle.std.specs.Prelude.{◌≡◌};
ghost use Rattle.mysql_cells.specs.Cells.{form as form_by_type, form_of};

use mysql_const::ColumnType;

/// The form of a type's cells.
#[derive(Clone, Copy, Debug, PartialEq, Eq)]
pub enum CellForm {
    /// No byte.
    Nothing,
    Whole1,
    Whole2,
    Whole4,
    Whole8,
    FloatBits,
    DoubleBits,
    /// Length-encoded bytes.
    Counted,
    DateAndTime,
    Duration,
    /// The type has no cells.
    Without,
}

/// The form of a type's cells: the table to which a new column type is a line more.
///
/// Follows "Binary Protocol Value" of the client/server protocol documentation.
#[inline(always)]
pub fn form_of_type(column_type: ColumnType) -> CellForm
    ensures { result ≡ form_by_type column_type }
{
    match column_type {
        ColumnType::MYSQL_TYPE_NULL => CellForm::Nothing,
        ColumnType::MYSQL_TYPE_TINY => CellForm::Whole1,
        ColumnType::MYSQL_TYPE_SHORT | ColumnType::MYSQL_TYPE_YEAR => CellForm::Whole2,
        ColumnType::MYSQL_TYPE_LONG | ColumnType::MYSQL_TYPE_INT24 => CellForm::Whole4,
        ColumnType::MYSQL_TYPE_LONGLONG => CellForm::Whole8,
        ColumnType::MYSQL_TYPE_FLOAT => CellForm::FloatBits,
        ColumnType::MYSQL_TYPE_DOUBLE => CellForm::DoubleBits,
        ColumnType::MYSQL_TYPE_DECIMAL
        | ColumnType::MYSQL_TYPE_NEWDECIMAL
        | ColumnType::MYSQL_TYPE_VARCHAR
        | ColumnType::MYSQL_TYPE_VAR_STRING
        | ColumnType::MYSQL_TYPE_STRING
        | ColumnType::MYSQL_TYPE_TINY_BLOB
        | ColumnType::MYSQL_TYPE_MEDIUM_BLOB
        | ColumnType::MYSQL_TYPE_LONG_BLOB
        | ColumnType::MYSQL_TYPE_BLOB
        | ColumnType::MYSQL_TYPE_ENUM
        | ColumnType::MYSQL_TYPE_SET
        | ColumnType::MYSQL_TYPE_BIT
        | ColumnType::MYSQL_TYPE_JSON
        | ColumnType::MYSQL_TYPE_GEOMETRY
        | ColumnType::MYSQL_TYPE_VECTOR => CellForm::Counted,
        ColumnType::MYSQL_TYPE_DATE
        | ColumnType::MYSQL_TYPE_DATETIME
        | ColumnType::MYSQL_TYPE_TIMESTAMP => CellForm::DateAndTime,
        ColumnType::MYSQL_TYPE_TIME => CellForm::Duration,
        ColumnType::MYSQL_TYPE_NEWDATE
        | ColumnType::MYSQL_TYPE_TIMESTAMP2
        | ColumnType::MYSQL_TYPE_DATETIME2
        | ColumnType::MYSQL_TYPE_TIME2
        | ColumnType::MYSQL_TYPE_TYPED_ARRAY
        | ColumnType::MYSQL_TYPE_UNKNOWN => CellForm::Without,
    }
}

/// The form of the cells of the type with this number; a number without a name has none.
pub fn form(number: u8) -> CellForm
    ensures { result ≡ form_of number }
{
    match ColumnType::try_from(number) {
        Ok(column_type) => form_of_type(column_type),
        Err(_) => CellForm::Without,
    }
}
