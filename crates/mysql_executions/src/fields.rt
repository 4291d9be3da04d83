//! Fields of a body, read from the left.

ghost use Rattle.mysql_buf.specs.Reading.{bytes_at, lenenc_int_at};
ghost use Rattle.mysql_executions.specs.Fields.{number_at};
ghost use Rattle.mysql_executions.specs.Views.{Gives};

use crate::not_read::NotRead;
use mysql_buf::ParseBuf;

/// Reads the first bytes, and answers them and the rest.
pub fn read_bytes(n: usize, bytes: &[u8]) -> Result<(&[u8], &[u8]), NotRead>
    ensures { Gives (λ x. (x.0.now, x.1.now)) result (bytes_at n bytes.now) }
{
    let mut buf = ParseBuf(bytes);
    match buf.checked_eat(n) {
        Some(front) => Ok((front, buf.0)),
        None => Err(NotRead::Other),
    }
}

/// Reads the number in the first byte, and answers it and the rest.
pub fn read_u8(bytes: &[u8]) -> Result<(u8, &[u8]), NotRead>
    ensures { Gives (λ x. (x.0, x.1.now)) result (number_at 1 bytes.now) }
{
    let mut buf = ParseBuf(bytes);
    match buf.checked_eat_u8() {
        Some(number) => Ok((number, buf.0)),
        None => Err(NotRead::Other),
    }
}

/// Reads the number in the first two bytes, the lowest first.
pub fn read_u16(bytes: &[u8]) -> Result<(u16, &[u8]), NotRead>
    ensures { Gives (λ x. (x.0, x.1.now)) result (number_at 2 bytes.now) }
{
    let mut buf = ParseBuf(bytes);
    match buf.checked_eat_u16_le() {
        Some(number) => Ok((number, buf.0)),
        None => Err(NotRead::Other),
    }
}

/// Reads the number in the first four bytes, the lowest first.
pub fn read_u32(bytes: &[u8]) -> Result<(u32, &[u8]), NotRead>
    ensures { Gives (λ x. (x.0, x.1.now)) result (number_at 4 bytes.now) }
{
    let mut buf = ParseBuf(bytes);
    match buf.checked_eat_u32_le() {
        Some(number) => Ok((number, buf.0)),
        None => Err(NotRead::Other),
    }
}

/// Reads the length-encoded number that stands first.
pub fn read_lenenc_int(bytes: &[u8]) -> Result<(u64, &[u8]), NotRead>
    ensures { Gives (λ x. (x.0, x.1.now)) result (lenenc_int_at bytes.now) }
{
    let mut buf = ParseBuf(bytes);
    match buf.checked_eat_lenenc_int() {
        Some(number) => Ok((number, buf.0)),
        None => Err(NotRead::Other),
    }
}
