//! Rows of a result set.

ghost use Rattle.mysql_witnesses.specs.Rows.{BitsBeginAtTwo, KeptRowsStandApart, NoByteStandsBehindARow};
ghost use Rattle.mysql_witnesses.specs.Rows.{NullIsFb, SmallUnsignedNumbersAreReadAsInt};

/// Of two cells that are NULL the bitmap of a binary row is 0c.
#[tactic(auto, unfolding(mysql_rows::specs::Written::bits_bytes, mysql_rows::specs::Written::bits_number))]
pub fn bits_begin_at_two()
    ensures { BitsBeginAtTwo }
{}

/// A cell that is NULL is fb in a text row.
pub fn null_is_fb()
    ensures { NullIsFb }
{}

/// An unsigned number below 2^63 is read with a sign, and so is none that is read as itself.
#[tactic(auto, using(crate::proofs::AboutRows::small_unsigned_numbers_are_read_as_int))]
pub fn small_unsigned_numbers_are_read_as_int()
    ensures { SmallUnsignedNumbersAreReadAsInt }
{}

/// A payload with a byte behind its last cell is no row.
#[tactic(auto, unfolding(mysql_cells::specs::Cells::text_cell_at, mysql_field_lists::specs::Lists::elements_at))]
pub fn no_byte_stands_behind_a_row()
    ensures { NoByteStandsBehindARow }
{}

/// Rows that are kept come one after another.
pub fn kept_rows_stand_apart()
    ensures { KeptRowsStandApart }
{}
