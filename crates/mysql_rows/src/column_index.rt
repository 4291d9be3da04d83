//! How columns are named.

ghost use Rattle.std.specs.Prelude.{◌≡◌, ℕ, List, Option};
ghost use Rattle.mysql_columns.specs.Columns.{ColumnDefinition};
ghost use Rattle.mysql_rows.specs.Rows.{column_named, column_numbered};
ghost use Rattle.mysql_rows.specs.Views.{column_views};

use mysql_columns::Column;

/// What names a column of a row: its number, from 0 on, or its name in the query.
///
/// Promise: a number names itself below the number of columns, and a text the first column whose
/// name in the query has its bytes.
pub trait ColumnIndex: Drop {
    // which of these columns is named, if any is
    ghost place: { Self → List ColumnDefinition → Option ℕ };

    /// The number of the column that this names, if there is one.
    fn idx(&self, columns: &[Column]) -> Option<usize>
        ensures { result ≡ place self.now (column_views columns.now) };
}

/// The column of this number.
impl ColumnIndex for usize {
    ghost place = { column_numbered };

    #[inline(always)]
    fn idx(&self, columns: &[Column]) -> Option<usize> {
        if *self < columns.len() {
            Some(*self)
        } else {
            None
        }
    }
}

/// The first column of this name, compared byte by byte.
impl ColumnIndex for &str {
    ghost place = { λ name. column_named name.now };

    #[inline(always)]
    fn idx(&self, columns: &[Column]) -> Option<usize> {
        first_named(columns, self.as_bytes())
    }
}

// The number of the first column of this name.
fn first_named(columns: &[Column], name: &[u8]) -> Option<usize>
    ensures { result ≡ column_named name.now (column_views columns.now) }
{
    for (index, column) in columns.iter().enumerate() {
        if column.name_ref() == name {
            return Some(index);
        }
    }
    None
}
