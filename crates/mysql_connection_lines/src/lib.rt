//! A connection's events and its end as lines of text.
//!
//!     write_event(&mut output, &event, Secrets::Hidden)?;  // client AuthAnswer data=(20 bytes)
//!     write_end(&mut output, end)?;                        // end Over Quit
#![tactic(auto)]

mod ends;

pub use crate::ends::{print_end, write_end};
use mysql_connection_machine::side_name;
use mysql_connection_rules::Side;
use mysql_connection_state::Event;
pub use mysql_event_lines::{Form, Secrets, Texts, write_hexadecimal};
use mysql_event_lines::{
    Said, answer_said, authentication_said, command_said, farewell_said, file_data_said,
    greeting_said, lent_row_said, reply_said, response_said, write_said,
};
use mysql_row_refs::RowRef;
use std::io;
use std::io::Write;

/// The side that says an event.
fn side_of(event: &Event) -> Side {
    match event {
        Event::Response(_) | Event::Answer(_) | Event::Command(_) | Event::FileData(_) => {
            Side::Client
        }
        Event::Greeting(_) | Event::Authentication(_) | Event::Reply(_) | Event::Farewell(_) => {
            Side::Server
        }
    }
}

/// What an event says, by the table of events.
fn event_said(event: &Event) -> Said<'_> {
    match event {
        Event::Greeting(greeting) => greeting_said(greeting),
        Event::Response(response) => response_said(response),
        Event::Authentication(said) => authentication_said(said),
        Event::Answer(data) => answer_said(data.as_slice()),
        Event::Command(command) => command_said(command),
        Event::Reply(said) => reply_said(said),
        Event::FileData(data) => file_data_said(data.as_slice()),
        Event::Farewell(error) => farewell_said(error),
    }
}

/// Writes what a payload of a connection says, as a line of this form without its end.
///
/// The line has whose payload it is, the event's name, and its fields. Statements are as they came.
///
/// # Errors
/// - Those of the output.
/// - `OutOfMemory`: a growth of memory was refused, in a line that is short or has texts.
pub fn write_event_as<W: Write>(output: &mut W, form: Form, event: &Event) -> io::Result<()> {
    write!(output, "{} ", side_name(side_of(event)))?;
    write_said(output, form, &event_said(event))
}

/// Writes a row that a connection lends, as [`write_event_as`] writes it where it is kept.
///
/// # Errors
/// - Those of the output.
/// - `OutOfMemory`: a growth of memory was refused, in a line that is short or has texts.
pub fn write_lent_row_as<W: Write>(
    output: &mut W,
    form: Form,
    row: &RowRef<'_, '_>,
) -> io::Result<()> {
    output.write_all(b"server ")?;
    write_said(output, form, &lent_row_said(row))
}

/// Writes what a payload of a connection says, as a line without its end.
///
/// The line has the names of fields, and all bytes in hexadecimal. Statements are as they came.
///
/// # Errors
/// - Those of the output.
pub fn write_event<W: Write>(output: &mut W, event: &Event, secrets: Secrets) -> io::Result<()> {
    write_event_as(output, Form::Long(secrets), event)
}

/// Writes a row that a connection lends, as [`write_event`] writes it where it is kept.
///
/// # Errors
/// - Those of the output.
pub fn write_lent_row<W: Write>(output: &mut W, row: &RowRef<'_, '_>) -> io::Result<()> {
    write_lent_row_as(output, Form::Long(Secrets::Hidden), row)
}

/// Prints what a payload of a connection says, as a line of this form.
///
/// Of an authentication's data [`Secrets::Hidden`] has the length alone.
///
/// # Errors
/// - Those of the output.
/// - `OutOfMemory`: a growth of memory was refused, in a short line.
pub fn print_event<W: Write>(output: &mut W, event: &Event, form: Form) -> io::Result<()> {
    write_said(output, form, &event_said(event))?;
    output.write_all(b"\n")
}
