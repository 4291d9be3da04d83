//! The bits of a NULL bitmap, one column after another.
//!
//!     let mut bits = bitmap.iter(columns);
//!     let is_first_null = bits.next();

ghost use Rattle.std.specs.Prelude.{◌≡◌, ◌≤◌, ◌+◌, ◌-◌, ◌*◌, ◌/◌, ◌%◌, ◌^◌, ◌<◌, ℕ, length, slice_index};
ghost use Rattle.std.specs.Iterator.{YieldsFirst, item_count};
ghost use Rattle.mysql_field_lists.specs.NullBitmap.{bits_from};

/// Whether each of some columns is NULL, in order: one byte is held, and a mask that is shifted.
#[derive(Clone, Copy, Debug, PartialEq, Eq)]
pub struct NullBits<'a> {
    bytes: &'a [u8],
    // the number of the bit that comes next, and of the one behind the last
    next: usize,
    end: usize,
    // the byte of the next bit, where there is one, and that bit alone
    byte: u8,
    mask: u8,
    ghost in_order: { next ≤ end },
    ghost inside: { end ≤ 8 * length bytes.now },
    ghost byte_is: { next < end → byte ≡ slice_index bytes.now (next / 8) },
    ghost mask_is: { mask ≡ 2 ^ (next % 8) },
}

/// The byte in which the bit of this number stands, 0 where there is none.
fn byte_of(bytes: &[u8], number: usize) -> u8
    ensures { number < 8 * length bytes.now → result ≡ slice_index bytes.now (number / 8) }
{
    match bytes.get(number / 8) {
        Some(byte) => *byte,
        None => 0,
    }
}

impl<'a> NullBits<'a> {
    // The bits of `count` numbers from `first` on.
    pub(crate) fn new(bytes: &'a [u8], first: usize, count: usize) -> NullBits<'a>
        requires number { first + count ≤ usize.MAX }
        requires inside { first + count ≤ 8 * length bytes.now }
        ensures { bits_from result.bytes.now result.next (result.end - result.next) ≡ bits_from bytes.now first count }
    {
        NullBits {
            bytes,
            next: first,
            end: first + count,
            byte: byte_of(bytes, first),
            mask: 1 << (first % 8),
        }
    }
}

impl<'a> Iterator for NullBits<'a> {
    type Item = bool;

    ghost next_gives = { YieldsFirst (λ bits. bits_from bits.bytes.now bits.next (bits.end - bits.next)) };

    ghost remaining = { item_count (λ bits. bits_from bits.bytes.now bits.next (bits.end - bits.next)) };

    fn next(&mut self) -> Option<bool> {
        if self.next == self.end {
            return None;
        }
        let is_null = self.byte & self.mask != 0;
        self.next += 1;
        if self.mask == 0x80 {
            self.byte = byte_of(self.bytes, self.next);
            self.mask = 1;
        } else {
            self.mask <<= 1;
        }
        Some(is_null)
    }
}
