//! The bitmap of a row as it is written.

ghost use Rattle.std.specs.Prelude.{◌≡◌, ◌++◌, ◌+◌, ◌/◌, ◌%◌, ◌^◌, ◌<◌, OnOk, length, replicate, take, true};
ghost use Rattle.std.proofs.Common.{get_or};
ghost use Rattle.mysql_rows.specs.CellsWritten.{marked};

use std::alloc::AllocFailed;

/// Appends so many zeros. After a refusal what stood before stands in front.
#[inline(always)]
pub fn put_zeros(count: usize, out: &mut Vec<u8>) -> Result<(), AllocFailed<u8>>
    ensures ok { OnOk result (out.new.items ≡ out.old.items ++ replicate count 0) }
    ensures kept { take (length out.old.items) out.new.items ≡ out.old.items }
{
    for _ in 0..count {
        out.push(0)?;
    }
    Ok(())
}

/// Adds the bit of this number to the bitmap that stands from a place on, where it isn't set.
#[inline(always)]
pub fn mark(bitmap: usize, number: usize, out: &mut Vec<u8>)
    requires inside { bitmap + number / 8 < length out.old.items }
    requires room { get_or out.old.items (bitmap + number / 8) 0 + 2 ^ (number % 8) < 256 }
    ensures { out.new.items ≡ marked true bitmap number out.old.items }
{
    out[bitmap + number / 8] += 1 << (number % 8);
}
