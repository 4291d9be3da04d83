//! What rows take in a bulk request.

ghost use Rattle.std.specs.Prelude.{◌≡◌, ◌<◌, ◌≤◌, MatchOption};
ghost use Rattle.mysql_bulk_builder.specs.Cut.{row_size};
ghost use Rattle.mysql_bulk_builder.specs.RowLists.{row_in};

use mysql_cells::Value;

/// What a row takes in a request, where that is at most `room`.
pub(crate) fn row_size_within(row: &[Value], room: usize) -> Option<usize>
    ensures { MatchOption result (room < row_size row.now) (λ n. (n ≡ row_size row.now) × (n ≤ room)) }
{
    let mut left = room;
    for value in row {
        let len = value.bin_len() as usize;
        if left <= len {
            return None;
        }
        left = left - len - 1;
    }
    Some(room - left)
}

/// What a row of borrowed values takes in a request, where that is at most `room`.
pub(crate) fn refs_size_within(row: &[&Value], room: usize) -> Option<usize>
    ensures { MatchOption result (room < row_size (row_in row.now))
        (λ n. (n ≡ row_size (row_in row.now)) × (n ≤ room)) }
{
    let mut left = room;
    for value in row {
        let len = value.bin_len() as usize;
        if left <= len {
            return None;
        }
        left = left - len - 1;
    }
    Some(room - left)
}
