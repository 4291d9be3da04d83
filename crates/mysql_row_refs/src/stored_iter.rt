//! Rows that are kept, one after another.

ghost use Rattle.std.specs.Prelude.{◌≡◌};
ghost use Rattle.std.specs.Iterator.{YieldsFirstBy, item_count};
ghost use Rattle.mysql_row_refs.specs.RowRefs.{row_ref_view};
ghost use Rattle.mysql_row_refs.specs.StoredIter.{rows_left};

use crate::row_ref::RowRef;
use crate::stored::StoredRows;

/// The rows that are kept, in order.
#[derive(Clone, Copy)]
pub struct StoredIter<'r> {
    pub(crate) stored: &'r StoredRows,
    // the number of the row that comes next
    pub(crate) next: usize,
}

impl StoredRows {
    /// The rows in order. No memory is asked for.
    pub fn iter(&self) -> StoredIter<'_>
        ensures { rows_left result ≡ self.now.rows }
    {
        StoredIter {
            stored: self,
            next: 0,
        }
    }
}

impl<'r> Iterator for StoredIter<'r> {
    type Item = RowRef<'r, 'r>;

    ghost next_gives = { YieldsFirstBy row_ref_view rows_left };

    ghost remaining = { item_count rows_left };

    fn next(&mut self) -> Option<RowRef<'r, 'r>> {
        let stored = self.stored;
        if self.next >= stored.len() {
            return None;
        }
        let row = stored.row(self.next)?;
        self.next += 1;
        Some(row)
    }
}
