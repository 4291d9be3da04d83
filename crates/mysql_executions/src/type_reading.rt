//! Types as they are read.

ghost use Rattle.std.specs.Prelude.{◌≡◌};
ghost use Rattle.mysql_const.specs.ColumnTypes.{column_type_named};
ghost use Rattle.mysql_executions.specs.Types.{name_at, own_types_at, sign_named, type_at, types_at, types_read};
ghost use Rattle.mysql_executions.specs.Views.{Gives, IfRead, types_of, types_read_of};

use crate::fields::read_u8;
use crate::not_read::NotRead;
use crate::types::{BoundType, ParameterType};
use mysql_buf::ParseBuf;
use mysql_bytes::ByteString;
use mysql_const::ColumnType;
use std::alloc::Global;

/// The flag of a type whose whole numbers have no sign.
const UNSIGNED: u8 = 0x80;

/// The type of a number.
fn column_type_of(number: u8) -> Result<ColumnType, NotRead>
    ensures { Gives (λ x. x) result (column_type_named number) }
{
    match ColumnType::try_from(number) {
        Ok(column_type) => Ok(column_type),
        Err(_) => Err(NotRead::Other),
    }
}

/// Whether the byte beside a type says that its whole numbers have no sign.
fn sign_of(flags: u8) -> Result<bool, NotRead>
    ensures { Gives (λ x. x) result (sign_named flags) }
{
    match flags {
        0 => Ok(false),
        UNSIGNED => Ok(true),
        _ => Err(NotRead::Other),
    }
}

/// Reads the name behind a type, where types have names.
fn read_name(alloc: Global, named: bool, bytes: &[u8]) -> Result<(ByteString, &[u8]), NotRead>
    ensures { Gives (λ x. (x.0, x.1.now)) result (name_at named bytes.now) }
{
    if !named {
        return Ok((ByteString::from_vec(Vec::new(alloc)), bytes));
    }
    let mut buf = ParseBuf(bytes);
    match buf.checked_eat_lenenc_str() {
        Some(name) => Ok((ByteString::copy(alloc, name)?, buf.0)),
        None => Err(NotRead::Other),
    }
}

/// Reads a type, its sign and its name.
#[tactic(auto, unfolding(crate::specs::Types::type_at))]
fn read_type(alloc: Global, named: bool, bytes: &[u8]) -> Result<(BoundType, &[u8]), NotRead>
    ensures { Gives (λ x. (x.0, x.1.now)) result (type_at named bytes.now) }
{
    let (number, rest) = read_u8(bytes)?;
    let column_type = column_type_of(number)?;
    let (flags, rest) = read_u8(rest)?;
    let unsigned = sign_of(flags)?;
    let (name, rest) = read_name(alloc, named, rest)?;
    let parameter_type = ParameterType {
        column_type,
        unsigned,
    };
    Ok((
        BoundType {
            parameter_type,
            name,
        },
        rest,
    ))
}

/// Types up to the first that can't be read, and what stands behind them where all can.
#[derive(Drop)]
pub struct TypesRead<'a> {
    pub found: Vec<BoundType>,
    pub rest: Option<&'a [u8]>,
}

/// Reads so many types, up to the first that can't be read. It is refused for want of memory alone.
pub fn read_types(
    alloc: Global,
    named: bool,
    count: usize,
    bytes: &[u8],
) -> Result<TypesRead<'_>, NotRead>
    ensures { IfRead result (λ types. types_read_of types ≡ types_read named count bytes.now) }
{
    // Each type takes two bytes or more.
    let mut found = Vec::with_capacity(alloc, count.min(bytes.len() / 2))?;
    let mut rest = bytes;
    for _ in 0..count {
        match read_type(alloc, named, rest) {
            Ok((next, after)) => {
                found.push(next)?;
                rest = after;
            }
            Err(NotRead::Other) => {
                return Ok(TypesRead { found, rest: None });
            }
            Err(NotRead::Memory) => return Err(NotRead::Memory),
        }
    }
    Ok(TypesRead {
        found,
        rest: Some(rest),
    })
}

/// Reads so many types, of which each has to be one.
pub fn read_all_types(
    alloc: Global,
    named: bool,
    count: usize,
    bytes: &[u8],
) -> Result<(Vec<BoundType>, &[u8]), NotRead>
    ensures { Gives (λ x. (x.0.items, x.1.now)) result (types_at named count bytes.now) }
{
    let TypesRead { found, rest } = read_types(alloc, named, count, bytes)?;
    match rest {
        Some(rest) => Ok((found, rest)),
        None => Err(NotRead::Other),
    }
}

/// Reads the types that a command carries, where it says that it does.
pub fn read_own_types(
    alloc: Global,
    bound: bool,
    named: bool,
    count: usize,
    bytes: &[u8],
) -> Result<(Option<Vec<BoundType>>, &[u8]), NotRead>
    ensures { Gives (λ x. (types_of x.0, x.1.now)) result (own_types_at bound named count bytes.now) }
{
    if !bound {
        return Ok((None, bytes));
    }
    let (types, rest) = read_all_types(alloc, named, count, bytes)?;
    Ok((Some(types), rest))
}
