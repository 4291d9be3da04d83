//! Signed numbers of the machine's widths, in two's complement.

ghost use Rattle.std.specs.Prelude.{◌≡◌};
ghost use Rattle.byteorder.specs.Endian.{twos_complement};

pub fn signed_8(bits: u8) -> i8
    ensures { result ≡ twos_complement 1 bits }
{
    bits.cast_signed()
}

pub fn signed_16(bits: u16) -> i16
    ensures { result ≡ twos_complement 2 bits }
{
    bits.cast_signed()
}

pub fn signed_32(bits: u32) -> i32
    ensures { result ≡ twos_complement 4 bits }
{
    bits.cast_signed()
}

pub fn signed_64(bits: u64) -> i64
    ensures { result ≡ twos_complement 8 bits }
{
    bits.cast_signed()
}

pub fn signed_128(bits: u128) -> i128
    ensures { result ≡ twos_complement 16 bits }
{
    bits.cast_signed()
}
