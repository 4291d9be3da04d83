//! The commands `encode`, `audit` and `recode`.

use crate::json_sets::sets_of;
use crate::lines::{print_audit, print_stream};
use crate::program::Status;
use crate::reading::{Skips, read_input};
use crate::stop::Stop;
use crate::words::Statement;
use mysql_session::{
    Audit, End, Query, Receiver, RecodeError, Road, StreamFault, send_contents_in,
};
use std::alloc::Global;
use std::io::{Read, Write};

/// Sends the parameter sets that the input lists.
pub(crate) fn encode<R: Read, W: Write>(
    alloc: Global,
    road: Road,
    statement: Statement<'_>,
    input: &mut R,
    output: &mut W,
) -> Result<Status, Stop> {
    let mut text = Vec::new(alloc);
    read_input(alloc, input, &mut text)?;
    let sets = sets_of(alloc, &text)?;
    let Statement {
        query,
        mode,
        spelling,
        id,
        limit,
    } = statement;
    let mut stream = Vec::new(alloc);
    Query::new_in(alloc, query, id, mode, spelling)?.send(alloc, &sets, road, limit, &mut stream)?;
    print_stream(output, &stream)?;
    Ok(Status::Done)
}

/// What the receiver was fed says; `Memory` where memory ran out under it.
pub(crate) fn audit_of(receiver: Receiver) -> Result<Audit, Stop> {
    let audit = receiver.finish();
    match audit.end {
        End::Fault(_, StreamFault::Memory) => Err(Stop::Memory),
        _ => Ok(audit),
    }
}

/// What the stream on the input says.
fn audit_input<R: Read>(
    alloc: Global,
    statement: Statement<'_>,
    input: &mut R,
) -> Result<Audit, Stop> {
    let Statement {
        query,
        mode,
        spelling,
        id,
        limit,
    } = statement;
    match Receiver::new_in(alloc, query, id, limit, mode, spelling) {
        Ok(mut receiver) => {
            read_input(alloc, input, &mut receiver)?;
            audit_of(receiver)
        }
        Err(error) => {
            // Input that can't be read is answered before a refusal.
            read_input(alloc, input, &mut Skips)?;
            Err(Stop::Receiving(error))
        }
    }
}

/// Prints what a stream says, and answers whether it is whole.
pub(crate) fn answer_audit<W: Write>(
    alloc: Global,
    output: &mut W,
    audit: &Audit,
) -> Result<Status, Stop> {
    print_audit(alloc, output, audit)?;
    match audit.end {
        End::Whole => Ok(Status::Done),
        _ => Ok(Status::Refused),
    }
}

/// Prints what the stream on the input says.
pub(crate) fn audit<R: Read, W: Write>(
    alloc: Global,
    statement: Statement<'_>,
    input: &mut R,
    output: &mut W,
) -> Result<Status, Stop> {
    let audit = audit_input(alloc, statement, input)?;
    answer_audit(alloc, output, &audit)
}

/// Sends what the stream on the input carries as executions.
pub(crate) fn recode<R: Read, W: Write>(
    alloc: Global,
    statement: Statement<'_>,
    input: &mut R,
    output: &mut W,
) -> Result<Status, Stop> {
    let Audit { sets, end } = audit_input(alloc, statement, input)?;
    if let Some(error) = RecodeError::of_end(end) {
        return Err(Stop::Recoding(error));
    }
    let Statement {
        query,
        mode,
        spelling: _,
        id,
        limit,
    } = statement;
    let mut stream = Vec::new(alloc);
    send_contents_in(alloc, query, sets, id, limit, mode, &mut stream)?;
    print_stream(output, &stream)?;
    Ok(Status::Done)
}
