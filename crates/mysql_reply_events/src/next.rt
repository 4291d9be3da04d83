//! What a payload leads to by what is due alone.

ghost use Rattle.std.specs.Prelude.{◌≡◌, false};
ghost use Rattle.mysql_reply_events.specs.Due.{due_reply, told};
ghost use Rattle.mysql_reply_events.specs.Readings.{has_report_form};
ghost use Rattle.mysql_reply_events.specs.Table.{event_at};
ghost use Rattle.mysql_reply_events.specs.Views.{Gives, due_view, event_view};
ghost use Rattle.mysql_reply_events.specs.declared.awaited.Due.TheVariants as dues;

use crate::awaited::{Awaited, ColumnGroup, Due};
use crate::context::Context;
use crate::event::ReplyEvent;
use crate::fault::ReplyFault;
use crate::forms::is_report_like;
use crate::packets::column_packet;
use crate::reader::{format_of, step};
use crate::standing::StandingColumns;
use crate::state::ReplyState;
use crate::steps::behind_column;
use std::alloc::Global;

// Reads a column of a group, of which so many more are left. It isn't kept.
fn column_event(
    alloc: Global,
    context: Context,
    group: ColumnGroup,
    left: u16,
    payload: &[u8],
) -> Result<(ReplyEvent, Due), ReplyFault>
    requires { has_report_form context payload.now ≡ false }
    ensures { Gives (λ x. (event_view x.0, due_view x.1)) result
        (told (event_at context (due_reply (dues.Column group left)) payload.now)) }
{
    let column = column_packet(alloc, context, payload)?;
    Ok((
        ReplyEvent::Column(column),
        behind_column(alloc, context, group, left),
    ))
}

// Reads any payload.
fn any_event(
    alloc: Global,
    context: Context,
    due: Due,
    payload: &[u8],
) -> Result<(ReplyEvent, Due), ReplyFault>
    ensures { Gives (λ x. (event_view x.0, due_view x.1)) result
        (told (event_at context (due_reply due) payload.now)) }
{
    let mut state = ReplyState {
        awaited: Awaited::of(alloc, due),
        standing: StandingColumns::new(None, format_of(context.kind)),
    };
    let event = step(alloc, context, &mut state, payload)?;
    Ok((event, state.awaited.due()))
}

/// Reads a payload of the server by what is due alone: its event, and what is due behind it.
///
/// It is the step of an [`EventReader`](crate::EventReader), for who puts events together and keeps
/// their columns: none is copied. No columns stand, by which rows would be read.
///
/// Promise: the event and what is due behind it are exactly those of the table, or its fault, for
/// any bytes (`event_at`).
///
/// # Errors
/// - Those of `EventReader::read`, in the same order.
///
/// MySQL: Client/Server Protocol, "COM_QUERY Response" and "COM_STMT_PREPARE Response".
pub fn next_event(
    alloc: Global,
    context: Context,
    due: Due,
    payload: &[u8],
) -> Result<(ReplyEvent, Due), ReplyFault>
    ensures { Gives (λ x. (event_view x.0, due_view x.1)) result
        (told (event_at context (due_reply due) payload.now)) }
{
    match due {
        Due::Column { group, left } if !is_report_like(context, payload) => {
            column_event(alloc, context, group, left, payload)
        }
        _ => any_event(alloc, context, due, payload),
    }
}
