//! Laws of what is written and read, over the definitions alone.

ghost use Rattle.mysql_buf.specs.Bytes.{AreBytes};
ghost use Rattle.mysql_buf.specs.Laws.{BigReadsBack, BigSignedReadsBack, CountedReadsBack, LenencIntIsShortest};
ghost use Rattle.mysql_buf.specs.Laws.{LenencIntReadsBack, LenencStrReadsBack, LittleReadsBack, LittleSignedReadsBack};
ghost use Rattle.mysql_buf.specs.Laws.{NullReadsBack, VarlenIsShortest, VarlenReadsBack};
ghost use Rattle.std.specs.Prelude.{◌<◌, ◌^◌, length};

/// Numbers of any width, in either order of their bytes, read back with anything following.
pub fn numbers_read_back()
    ensures little { LittleReadsBack }
    ensures big { BigReadsBack }
{}

/// Signed numbers of any width, in either order of their bytes, read back with anything
/// following.
pub fn signed_numbers_read_back()
    ensures little { LittleSignedReadsBack }
    ensures big { BigSignedReadsBack }
{}

/// Length-encoded numbers and texts read back with anything following.
pub fn lenenc_reads_back()
    ensures number { LenencIntReadsBack }
    ensures text { LenencStrReadsBack }
{}

/// Texts after a length of one byte or four, and texts before a zero, read back with anything
/// following.
pub fn texts_read_back()
    ensures counted { CountedReadsBack }
    ensures null { NullReadsBack }
{}

/// Numbers of variable length read back with anything following.
pub fn varlen_reads_back()
    ensures { VarlenReadsBack }
{}

/// No shorter spelling than the written one reads as a number.
pub fn shortest_spellings()
    ensures lenenc { LenencIntIsShortest }
    ensures varlen { VarlenIsShortest }
{}

/// Each item of a slice of bytes is below 256, and there are fewer than 2^64 of them.
pub fn are_bytes(bytes: &[u8])
    ensures bytes { AreBytes bytes.now }
    ensures few { length bytes.now < 2 ^ 64 }
{
    let _len = bytes.len();
}
