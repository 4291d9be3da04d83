//! Why a row doesn't convert: the error of a row that is handed over holds the row.
//!
//!     match from_row_opt::<(u32, String)>(alloc, row)? {
//!         Ok((id, name)) => Ok(Item { id, name }),
//!         Err(FromRowError(row)) => without_name(row),
//!     }

ghost use Rattle.std.specs.Prelude.{◌≡◌};
ghost use Rattle.mysql_from_row.specs.declared.errors.RowConversionError.TheVariants as row_conversion_error;

use mysql_rows::Row;
use std::alloc::AllocError;
use thiserror::Error;

/// A row that doesn't convert to the type that was asked for. It holds the row, as it was.
#[derive(Debug, PartialEq, Drop, Error)]
#[error("a row of {columns} columns doesn't convert to the type that was asked for", columns = self.0.len())]
pub struct FromRowError(pub Row);

/// Why a row that is borrowed, or a cell of it, doesn't convert.
#[derive(Clone, Copy, Debug, PartialEq, Eq, Error)]
pub enum RowConversionError {
    /// Another number of columns, or a cell that isn't there, was taken or doesn't convert.
    #[error("the row doesn't convert to the type that was asked for")]
    Mismatch,
    #[error("out of memory")]
    Memory,
}

impl From<AllocError> for RowConversionError {
    ghost from_gives = { λ _ e. e ≡ row_conversion_error.Memory };

    fn from(_e: AllocError) -> RowConversionError {
        RowConversionError::Memory
    }
}
