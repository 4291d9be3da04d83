//! Types of columns and values, by their numbers in packets.
//!
//!     let column_type = ColumnType::try_from(number)?;
//!     let is_number = column_type.is_numeric_type();
//!     let number = u8::from(ColumnType::MYSQL_TYPE_LONGLONG);

ghost use Rattle.std.specs.Prelude.{◌≡◌, ◌∷◌, []};
ghost use Rattle.mysql_const.specs.Tables.{ReadsAs};
ghost use Rattle.mysql_const.specs.ColumnTypes.{column_type_number, column_type_named, is_among, numeric_types};
ghost use Rattle.mysql_const.specs.ColumnTypes.{character_types};
ghost use Rattle.mysql_const.specs.declared.column_type.ColumnType.TheVariants.{MYSQL_TYPE_ENUM, MYSQL_TYPE_SET};
ghost use Rattle.mysql_const.specs.declared.column_type.ColumnType.TheVariants.{MYSQL_TYPE_GEOMETRY, MYSQL_TYPE_VECTOR};

use crate::unknown::write_unknown_number;
use std::error::Error;
use std::fmt;
use std::fmt::{Display, Formatter, Write};

/// The type of a column or of a value.
///
/// MySQL: Client/Server Protocol, "Column Definition" and "Binary Protocol Resultset" (enum_field_types).
#[allow(non_camel_case_types)]
#[derive(Clone, Copy, PartialEq, Eq, Hash, Debug)]
pub enum ColumnType {
    MYSQL_TYPE_DECIMAL = 0,
    MYSQL_TYPE_TINY = 1,
    MYSQL_TYPE_SHORT = 2,
    MYSQL_TYPE_LONG = 3,
    MYSQL_TYPE_FLOAT = 4,
    MYSQL_TYPE_DOUBLE = 5,
    MYSQL_TYPE_NULL = 6,
    MYSQL_TYPE_TIMESTAMP = 7,
    MYSQL_TYPE_LONGLONG = 8,
    MYSQL_TYPE_INT24 = 9,
    MYSQL_TYPE_DATE = 10,
    MYSQL_TYPE_TIME = 11,
    MYSQL_TYPE_DATETIME = 12,
    MYSQL_TYPE_YEAR = 13,
    MYSQL_TYPE_NEWDATE = 14,
    MYSQL_TYPE_VARCHAR = 15,
    MYSQL_TYPE_BIT = 16,
    MYSQL_TYPE_TIMESTAMP2 = 17,
    MYSQL_TYPE_DATETIME2 = 18,
    MYSQL_TYPE_TIME2 = 19,
    MYSQL_TYPE_TYPED_ARRAY = 20,
    MYSQL_TYPE_VECTOR = 242,
    MYSQL_TYPE_UNKNOWN = 243,
    MYSQL_TYPE_JSON = 245,
    MYSQL_TYPE_NEWDECIMAL = 246,
    MYSQL_TYPE_ENUM = 247,
    MYSQL_TYPE_SET = 248,
    MYSQL_TYPE_TINY_BLOB = 249,
    MYSQL_TYPE_MEDIUM_BLOB = 250,
    MYSQL_TYPE_LONG_BLOB = 251,
    MYSQL_TYPE_BLOB = 252,
    MYSQL_TYPE_VAR_STRING = 253,
    MYSQL_TYPE_STRING = 254,
    MYSQL_TYPE_GEOMETRY = 255,
}

/// A number that no [`ColumnType`] has.
#[derive(Clone, Copy, PartialEq, Eq, Debug)]
pub struct UnknownColumnType(pub u8);

impl Error for UnknownColumnType {}

impl Display for UnknownColumnType {
    fn fmt<W: Write>(&self, f: &mut Formatter<W>) -> fmt::Result {
        write_unknown_number(f, "column type", i32::from(self.0))
    }
}

/// The number of a [`ColumnType`].
impl From<ColumnType> for u8 {
    ghost from_gives = { λ column_type number. number ≡ column_type_number column_type };

    fn from(column_type: ColumnType) -> u8 {
        column_type as u8
    }
}

/// The [`ColumnType`] of a number. A number without a name is refused, and the refusal carries it.
impl TryFrom<u8> for ColumnType {
    type Error = UnknownColumnType;

    ghost try_from_gives = { λ number answer. ReadsAs (column_type_named number) (λ unknown. unknown.0) number answer };

    fn try_from(number: u8) -> Result<ColumnType, UnknownColumnType> {
        match number {
            0 => Ok(ColumnType::MYSQL_TYPE_DECIMAL),
            1 => Ok(ColumnType::MYSQL_TYPE_TINY),
            2 => Ok(ColumnType::MYSQL_TYPE_SHORT),
            3 => Ok(ColumnType::MYSQL_TYPE_LONG),
            4 => Ok(ColumnType::MYSQL_TYPE_FLOAT),
            5 => Ok(ColumnType::MYSQL_TYPE_DOUBLE),
            6 => Ok(ColumnType::MYSQL_TYPE_NULL),
            7 => Ok(ColumnType::MYSQL_TYPE_TIMESTAMP),
            8 => Ok(ColumnType::MYSQL_TYPE_LONGLONG),
            9 => Ok(ColumnType::MYSQL_TYPE_INT24),
            10 => Ok(ColumnType::MYSQL_TYPE_DATE),
            11 => Ok(ColumnType::MYSQL_TYPE_TIME),
            12 => Ok(ColumnType::MYSQL_TYPE_DATETIME),
            13 => Ok(ColumnType::MYSQL_TYPE_YEAR),
            14 => Ok(ColumnType::MYSQL_TYPE_NEWDATE),
            15 => Ok(ColumnType::MYSQL_TYPE_VARCHAR),
            16 => Ok(ColumnType::MYSQL_TYPE_BIT),
            17 => Ok(ColumnType::MYSQL_TYPE_TIMESTAMP2),
            18 => Ok(ColumnType::MYSQL_TYPE_DATETIME2),
            19 => Ok(ColumnType::MYSQL_TYPE_TIME2),
            20 => Ok(ColumnType::MYSQL_TYPE_TYPED_ARRAY),
            242 => Ok(ColumnType::MYSQL_TYPE_VECTOR),
            243 => Ok(ColumnType::MYSQL_TYPE_UNKNOWN),
            245 => Ok(ColumnType::MYSQL_TYPE_JSON),
            246 => Ok(ColumnType::MYSQL_TYPE_NEWDECIMAL),
            247 => Ok(ColumnType::MYSQL_TYPE_ENUM),
            248 => Ok(ColumnType::MYSQL_TYPE_SET),
            249 => Ok(ColumnType::MYSQL_TYPE_TINY_BLOB),
            250 => Ok(ColumnType::MYSQL_TYPE_MEDIUM_BLOB),
            251 => Ok(ColumnType::MYSQL_TYPE_LONG_BLOB),
            252 => Ok(ColumnType::MYSQL_TYPE_BLOB),
            253 => Ok(ColumnType::MYSQL_TYPE_VAR_STRING),
            254 => Ok(ColumnType::MYSQL_TYPE_STRING),
            255 => Ok(ColumnType::MYSQL_TYPE_GEOMETRY),
            _ => Err(UnknownColumnType(number)),
        }
    }
}

/// The number that was refused.
impl From<UnknownColumnType> for u8 {
    ghost from_gives = { λ unknown number. number ≡ unknown.0 };

    fn from(unknown: UnknownColumnType) -> u8 {
        unknown.0
    }
}

impl ColumnType {
    /// Whether its values are numbers. DECIMAL, YEAR and BIT are not among them.
    pub fn is_numeric_type(&self) -> bool
        ensures { result ≡ is_among numeric_types self.now }
    {
        matches!(
            self,
            ColumnType::MYSQL_TYPE_TINY
                | ColumnType::MYSQL_TYPE_SHORT
                | ColumnType::MYSQL_TYPE_INT24
                | ColumnType::MYSQL_TYPE_LONG
                | ColumnType::MYSQL_TYPE_LONGLONG
                | ColumnType::MYSQL_TYPE_NEWDECIMAL
                | ColumnType::MYSQL_TYPE_FLOAT
                | ColumnType::MYSQL_TYPE_DOUBLE
        )
    }

    /// Whether its values are texts. The three other blobs are not among them.
    pub fn is_character_type(&self) -> bool
        ensures { result ≡ is_among character_types self.now }
    {
        matches!(
            self,
            ColumnType::MYSQL_TYPE_STRING
                | ColumnType::MYSQL_TYPE_VAR_STRING
                | ColumnType::MYSQL_TYPE_VARCHAR
                | ColumnType::MYSQL_TYPE_BLOB
        )
    }

    /// Whether it is the type ENUM.
    pub fn is_enum_type(&self) -> bool
        ensures { result ≡ is_among (MYSQL_TYPE_ENUM ∷ []) self.now }
    {
        matches!(self, ColumnType::MYSQL_TYPE_ENUM)
    }

    /// Whether it is the type SET.
    pub fn is_set_type(&self) -> bool
        ensures { result ≡ is_among (MYSQL_TYPE_SET ∷ []) self.now }
    {
        matches!(self, ColumnType::MYSQL_TYPE_SET)
    }

    /// Whether it is the type ENUM or SET.
    pub fn is_enum_or_set_type(&self) -> bool
        ensures { result ≡ is_among (MYSQL_TYPE_ENUM ∷ MYSQL_TYPE_SET ∷ []) self.now }
    {
        matches!(
            self,
            ColumnType::MYSQL_TYPE_ENUM | ColumnType::MYSQL_TYPE_SET
        )
    }

    /// Whether it is the type GEOMETRY.
    pub fn is_geometry_type(&self) -> bool
        ensures { result ≡ is_among (MYSQL_TYPE_GEOMETRY ∷ []) self.now }
    {
        matches!(self, ColumnType::MYSQL_TYPE_GEOMETRY)
    }

    /// Whether it is the type VECTOR.
    pub fn is_vector_type(&self) -> bool
        ensures { result ≡ is_among (MYSQL_TYPE_VECTOR ∷ []) self.now }
    {
        matches!(self, ColumnType::MYSQL_TYPE_VECTOR)
    }
}
