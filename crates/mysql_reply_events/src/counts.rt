//! Counts of columns and statement packets, by what is agreed on.

ghost use Rattle.mysql_fields.specs.Forms.{lenenc_number_at};
ghost use Rattle.mysql_fields.specs.Wire.{TellsPart};
ghost use Rattle.mysql_server_packets.specs.Views.{prepare_ok_view};
ghost use Rattle.mysql_reply_events.specs.Readings.{column_count, count_at, follow_at};
ghost use Rattle.mysql_reply_events.specs.Readings.{prepared, prepared_at};
ghost use Rattle.mysql_reply_events.specs.Views.{Tells};

use crate::context::Context;
use crate::fault::ReplyFault;
use crate::packets::refused_of;
use mysql_buf::ParseBuf;
use mysql_fields::{ParseExt, WireError};
use mysql_server_packets::StmtPacket;
use std::alloc::Global;

// The byte that says whether columns follow.
fn follow_of(buf: &mut ParseBuf) -> Result<bool, WireError>
    ensures { TellsPart (λ follow. follow) buf.new.0.now result (follow_at buf.old.0.now) }
{
    match buf.checked_eat_u8() {
        Some(0) => Ok(false),
        Some(1) => Ok(true),
        Some(_) => Err(WireError::UnknownValue),
        None => Err(WireError::UnexpectedEof),
    }
}

// A length-encoded number.
fn number_of(buf: &mut ParseBuf) -> Result<u64, WireError>
    ensures { TellsPart (λ n. n) buf.new.0.now result (lenenc_number_at buf.old.0.now) }
{
    match buf.checked_eat_lenenc_int() {
        Some(number) => Ok(number),
        None => Err(WireError::UnexpectedEof),
    }
}

// How many columns there are, and whether they follow.
fn count_of(context: Context, buf: &mut ParseBuf) -> Result<(u64, bool), WireError>
    ensures { TellsPart (λ count. count) buf.new.0.now result (count_at context buf.old.0.now) }
{
    if context.has_optional_metadata() {
        let follow = follow_of(buf)?;
        let count = number_of(buf)?;
        Ok((count, follow))
    } else if context.has_cached_metadata() {
        let count = number_of(buf)?;
        let follow = follow_of(buf)?;
        Ok((count, follow))
    } else {
        let count = number_of(buf)?;
        Ok((count, true))
    }
}

/// Reads how many columns a result has, from 1 to 65535, and whether they follow.
pub fn count_packet(context: Context, payload: &[u8]) -> Result<(u16, bool), ReplyFault>
    ensures { Tells (λ count. count) result (column_count context payload.now) }
{
    let mut buf = ParseBuf(payload);
    let (count, follow) = refused_of(count_of(context, &mut buf), ReplyFault::BadCount)?;
    if buf.is_empty() && count > 0 && count < 65536 {
        Ok((count as u16, follow))
    } else {
        Err(ReplyFault::BadCount)
    }
}

// A statement packet, and whether its parameters and columns follow.
fn prepared_of(
    alloc: Global,
    context: Context,
    buf: &mut ParseBuf,
) -> Result<(StmtPacket, bool), WireError>
    ensures { TellsPart (λ x. (prepare_ok_view x.0, x.1)) buf.new.0.now result
        (prepared_at context buf.old.0.now) }
{
    let statement: StmtPacket = buf.parse(alloc, ())?;
    if context.has_optional_metadata() {
        let follow = follow_of(buf)?;
        Ok((statement, follow))
    } else {
        Ok((statement, true))
    }
}

/// Reads a statement packet, and whether its parameters and columns follow.
pub fn prepared_packet(
    alloc: Global,
    context: Context,
    payload: &[u8],
) -> Result<(StmtPacket, bool), ReplyFault>
    ensures { Tells (λ x. (prepare_ok_view x.0, x.1)) result (prepared context payload.now) }
{
    let mut buf = ParseBuf(payload);
    refused_of(
        prepared_of(alloc, context, &mut buf),
        ReplyFault::BadPrepare,
    )
}
