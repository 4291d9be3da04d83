//! The constants of a column packet.

ghost use Rattle.std.specs.Prelude.{refl};
ghost use Rattle.std.proofs.Common.{lit<};
ghost use Rattle.mysql_columns.specs.Columns.{catalog};

use mysql_field_constants::{ConstBytes, ConstBytesValue, ConstU8};
use thiserror::Error;

/// Another catalog than `def`.
#[derive(Clone, Copy, Debug, Default, PartialEq, Eq, Hash, Error)]
#[error("Invalid catalog value in the column definition")]
pub struct InvalidCatalog;

/// The catalog of every column, `def`, after its length.
///
/// MySQL: Client/Server Protocol, "Column Definition".
#[derive(Clone, Copy, Debug, Default, PartialEq, Eq, Hash)]
pub struct Catalog;

impl ConstBytesValue<4> for Catalog {
    const VALUE: [u8; 4] = [3, 100, 101, 102];

    ghost VALUE = { catalog };

    ghost value_len = { refl };

    ghost fits = { lit< tt };
}

/// The first bytes of a column packet.
///
/// MySQL: Client/Server Protocol, "Column Definition".
pub type ColumnDefinitionCatalog = ConstBytes<Catalog, 4>;

/// Another byte than 0c counts the fixed fields of a column.
#[derive(Clone, Copy, Debug, Default, PartialEq, Eq, Hash, Error)]
#[error("Invalid fixed length field length in the column definition")]
pub struct InvalidFixedLengthFieldsLen;

/// The number of bytes of a column's fixed fields.
///
/// MySQL: Client/Server Protocol, "Column Definition".
pub type FixedLengthFieldsLen = ConstU8<InvalidFixedLengthFieldsLen, 12>;
