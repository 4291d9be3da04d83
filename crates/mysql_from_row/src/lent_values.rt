//! Lent rows of one column as the value in it.

ghost use Rattle.mysql_from_row.specs.FromRow.{numbered_as, of_columns};

use crate::FromValueRef;
use crate::lent::{FromRowRef, from_cell_ref, has_lent_columns};
use mysql_row_refs::{RowRef, ValueRef};

/// A type that a lent row of one column converts to by itself, as its only value does.
///
/// Each type of [`FromValueRef`] in this library is one. A type of one's own becomes one by an empty
/// impl; without it `(T,)` does the same.
pub trait SingleValueRef<'p>: FromValueRef<'p> {}

impl<'p> SingleValueRef<'p> for bool {}

impl<'p> SingleValueRef<'p> for i8 {}

impl<'p> SingleValueRef<'p> for i16 {}

impl<'p> SingleValueRef<'p> for i32 {}

impl<'p> SingleValueRef<'p> for i64 {}

impl<'p> SingleValueRef<'p> for isize {}

impl<'p> SingleValueRef<'p> for u8 {}

impl<'p> SingleValueRef<'p> for u16 {}

impl<'p> SingleValueRef<'p> for u32 {}

impl<'p> SingleValueRef<'p> for u64 {}

impl<'p> SingleValueRef<'p> for usize {}

impl<'p> SingleValueRef<'p> for &'p str {}

impl<'p> SingleValueRef<'p> for &'p [u8] {}

impl<'p, const N: usize> SingleValueRef<'p> for [u8; N] {}

impl<'p> SingleValueRef<'p> for ValueRef<'p> {}

impl<'p, T: FromValueRef<'p>> SingleValueRef<'p> for Option<T> {}

impl<'p, T: SingleValueRef<'p>> FromRowRef<'p> for T {
    ghost Shown = { T.Shown };

    ghost shown = { T.shown };

    ghost converted = { λ row. of_columns 1 row (numbered_as T.converted row 0) };

    fn from_row_ref(row: &RowRef<'_, 'p>) -> Option<T> {
        has_lent_columns(row, 1)?;
        from_cell_ref(row, 0usize)
    }
}
