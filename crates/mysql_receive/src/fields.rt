//! Fields of a payload, read from the left.

ghost use Rattle.std.specs.Prelude.{◌≡◌};
ghost use Rattle.mysql_receive.specs.Fields.{number_or, bytes_or};
ghost use Rattle.mysql_receive.specs.Layout.{is_type};
ghost use Rattle.mysql_receive.specs.Views.{Gives};

use crate::fault::StreamFault;
use crate::read_error::ReadError;
use mysql_const::ColumnType;
use mysql_wire::ParseBuf;

/// Reads the first bytes, and answers them and the rest.
pub fn read_bytes(fault: StreamFault, n: usize, bytes: &[u8]) -> Result<(&[u8], &[u8]), ReadError>
    ensures { Gives (λ x. (x.0.now, x.1.now)) result (bytes_or fault n bytes.now) }
{
    let mut buf = ParseBuf(bytes);
    match buf.checked_eat(n) {
        Some(front) => Ok((front, buf.0)),
        None => Err(ReadError::Fault(fault)),
    }
}

/// Reads the number in the first byte, and answers it and the rest.
pub fn read_u8(fault: StreamFault, bytes: &[u8]) -> Result<(u8, &[u8]), ReadError>
    ensures { Gives (λ x. (x.0, x.1.now)) result (number_or fault 1 bytes.now) }
{
    let mut buf = ParseBuf(bytes);
    match buf.checked_eat_u8() {
        Some(number) => Ok((number, buf.0)),
        None => Err(ReadError::Fault(fault)),
    }
}

/// Reads the number in the first two bytes, the lowest first.
pub fn read_u16(fault: StreamFault, bytes: &[u8]) -> Result<(u16, &[u8]), ReadError>
    ensures { Gives (λ x. (x.0, x.1.now)) result (number_or fault 2 bytes.now) }
{
    let mut buf = ParseBuf(bytes);
    match buf.checked_eat_u16_le() {
        Some(number) => Ok((number, buf.0)),
        None => Err(ReadError::Fault(fault)),
    }
}

/// Reads the number in the first four bytes, the lowest first.
pub fn read_u32(fault: StreamFault, bytes: &[u8]) -> Result<(u32, &[u8]), ReadError>
    ensures { Gives (λ x. (x.0, x.1.now)) result (number_or fault 4 bytes.now) }
{
    let mut buf = ParseBuf(bytes);
    match buf.checked_eat_u32_le() {
        Some(number) => Ok((number, buf.0)),
        None => Err(ReadError::Fault(fault)),
    }
}

/// Whether the number is that of a type.
pub fn is_type_number(number: u8) -> bool
    ensures { result ≡ is_type number }
{
    ColumnType::try_from(number).is_ok()
}
