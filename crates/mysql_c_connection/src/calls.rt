//! A connection: fed, and asked for its events and its end.

ghost use Rattle.std.specs.Prelude.{◌≡◌, ◌≢◌};
ghost use Rattle.mysql_connection_machine.specs.Endings.{end_view};
ghost use Rattle.mysql_c_connection.specs.Codes.{code_number, side_numbered};
ghost use Rattle.mysql_c_connection.specs.Opened.{Closes, Finishes, IsFed, IsNew, IsOpen, Lines, OfOpen, OfSide};
ghost use Rattle.mysql_c_connection.specs.Opened.{Tells, end_shown};

use crate::code::{ConnectionCode, number_of_fault, number_of_reason, number_of_side, side_of};
use crate::events::telling_event;
use crate::handle::Handle;
use crate::object::{Object, OpenConnection, WrittenLines};
use crate::shown::ShownConnectionEnd;
use crate::values::{Told, told_of};
use mysql_c_connection_events::{ShownEvent, blank};
use mysql_c_handles::start_of;
use mysql_connection_lines::{Form, Secrets, write_end, write_event_as, write_lent_row_as};
use mysql_connection_machine::{Connection, End, FeedRefusal};
use mysql_connection_rules::{Limits, Side};
use std::alloc::Global;
use std::io;

/// Makes the handle refer to a connection of which no byte came.
pub fn connection_new(
    alloc: Global,
    handle: &mut Handle,
    client: usize,
    server: usize,
    held: usize,
) -> u32
    ensures made { result ≡ 0 → IsOpen handle.new.object
        (IsNew (record { client = client; server = server; held = held })) }
    ensures kept { result ≢ 0 → (result ≡ 1) × (handle.new.object ≡ handle.old.object) }
{
    let limits = Limits {
        client,
        server,
        held,
    };
    let open = OpenConnection {
        connection: Connection::new(alloc, limits),
        event: None,
        end: None,
        lines: WrittenLines::new(alloc),
    };
    match handle.set(alloc, Object::Open(open)) {
        Ok(()) => ConnectionCode::Done.number(),
        Err(_) => ConnectionCode::Memory.number(),
    }
}

impl OpenConnection {
    /// Takes a piece of a side's stream.
    fn feed(&mut self, side: Side, piece: &[u8]) -> ConnectionCode
        ensures { IsFed side piece.now (code_number result) self.old self.new }
    {
        match self.connection.feed(side, piece) {
            Ok(()) => ConnectionCode::Done,
            Err(FeedRefusal::Closed) => ConnectionCode::Closed,
            Err(FeedRefusal::Held) => ConnectionCode::Held,
            Err(FeedRefusal::Memory) => ConnectionCode::Memory,
        }
    }

    /// Takes the next event, and shows it.
    fn next(&mut self, shown: &mut ShownEvent) -> ConnectionCode
        ensures { Tells (code_number result) self.old self.new shown.new }
    {
        self.lines.clear();
        self.end = None;
        self.event = None;
        match self.connection.next_event() {
            Ok(Some(event)) => {
                *shown = telling_event(&self.connection, &event);
                self.event = Some(event);
                ConnectionCode::Done
            }
            Ok(None) => {
                *shown = blank(0, 2);
                ConnectionCode::Done
            }
            Err(fault) => ConnectionCode::Fault(fault.fault),
        }
    }

    /// Ends both streams, and shows the state of the connection.
    fn finish(&mut self, shown: &mut ShownConnectionEnd)
        ensures { Finishes self.old self.new shown.new }
    {
        let end = self.connection.finish();
        self.lines.clear();
        self.event = None;
        self.end = Some(end);
        *shown = telling_end(end);
    }

    /// Writes the line of the event, or of the end, unless it is written.
    fn write_line(&mut self, form: Form) -> ConnectionCode
        ensures { Lines self.old self.new }
    {
        let told = told_of(&self.event, &self.connection);
        match form {
            Form::Long(Secrets::Hidden) => {
                write_once(&mut self.lines.plain, told, self.end, form)
            }
            Form::Long(Secrets::Shown) => {
                write_once(&mut self.lines.with_secrets, told, self.end, form)
            }
            Form::LongWithTexts(Secrets::Hidden, _) => {
                write_once(&mut self.lines.with_texts, told, self.end, form)
            }
            _ => write_once(&mut self.lines.with_both, told, self.end, form),
        }
    }

    /// The line that was written.
    fn written_line(&self, form: Form) -> &[u8] {
        match form {
            Form::Long(Secrets::Hidden) => &self.lines.plain,
            Form::Long(Secrets::Shown) => &self.lines.with_secrets,
            Form::LongWithTexts(Secrets::Hidden, _) => &self.lines.with_texts,
            _ => &self.lines.with_both,
        }
    }
}

/// Writes the line of an event, or of an end, unless it is there. Of a row that is lent no more there
/// is none.
fn write_once(
    line: &mut Vec<u8>,
    told: Option<Told<'_>>,
    end: Option<End>,
    form: Form,
) -> ConnectionCode {
    if told.is_none() && end.is_none() {
        return ConnectionCode::OutOfRange;
    }
    if !line.is_empty() {
        return ConnectionCode::Done;
    }
    match line_of(line, told, end, form) {
        Ok(true) => ConnectionCode::Done,
        Ok(false) => ConnectionCode::OutOfRange,
        Err(_) => {
            line.clear();
            ConnectionCode::Memory
        }
    }
}

/// Writes the line of an event, or of an end, where there is one.
fn line_of(
    line: &mut Vec<u8>,
    told: Option<Told<'_>>,
    end: Option<End>,
    form: Form,
) -> io::Result<bool> {
    match told {
        Some(Told::Event(event)) => write_event_as(line, form, event)?,
        Some(Told::Row(row)) => write_lent_row_as(line, form, &row)?,
        None => match end {
            Some(end) => write_end(line, end)?,
            None => return Ok(false),
        },
    }
    Ok(true)
}

/// What C sees of an end.
fn telling_end(end: End) -> ShownConnectionEnd
    ensures { result ≡ end_shown (end_view end) }
{
    let mut shown = ShownConnectionEnd {
        kind: 1,
        reason: 0,
        side: 0,
        fault: 0,
        byte: 0,
    };
    match end {
        End::Over(reason) => {
            shown.kind = 0;
            shown.reason = number_of_reason(reason);
        }
        End::Whole => {}
        End::Unfinished(side) => {
            shown.kind = 2;
            shown.side = number_of_side(side);
        }
        End::Fault(failure) => {
            shown.kind = 3;
            shown.side = number_of_side(failure.side);
            shown.fault = number_of_fault(failure.fault);
            shown.byte = failure.byte;
        }
        End::Unread => shown.kind = 4,
    }
    shown
}

/// Takes a piece of a side's stream for the connection that an object is.
fn feed_in(object: &mut Object, side: Side, piece: &[u8]) -> ConnectionCode
    ensures { OfOpen object.old (code_number result) object.new
        (λ old. IsOpen object.new (IsFed side piece.now (code_number result) old)) }
{
    match object {
        Object::Open(open) => open.feed(side, piece),
        Object::Empty => ConnectionCode::EmptyHandle,
    }
}

/// Takes a piece of a side's stream, whole; nothing of it is read yet. Or it is refused.
pub fn connection_feed(alloc: Global, handle: &mut Handle, side: u32, piece: &[u8]) -> u32
    ensures { OfSide (side_numbered side) handle.old.object result handle.new.object
        (λ which old. IsOpen handle.new.object (IsFed which piece.now result old)) }
{
    let Some(side) = side_of(side) else {
        return ConnectionCode::NoSuchSide.number();
    };
    let Some(mut object) = handle.take(alloc) else {
        return ConnectionCode::EmptyHandle.number();
    };
    let code = feed_in(&mut object, side, piece);
    handle.put(object);
    code.number()
}

/// Ends a side's stream of the connection that an object is.
fn close_in(object: &mut Object, side: Side) -> ConnectionCode
    ensures { OfOpen object.old (code_number result) object.new
        (λ old. IsOpen object.new (Closes side (code_number result) old)) }
{
    match object {
        Object::Open(open) => {
            open.connection.close(side);
            ConnectionCode::Done
        }
        Object::Empty => ConnectionCode::EmptyHandle,
    }
}

/// Ends a side's stream: no more comes of it.
pub fn connection_close(alloc: Global, handle: &mut Handle, side: u32) -> u32
    ensures { OfSide (side_numbered side) handle.old.object result handle.new.object
        (λ which old. IsOpen handle.new.object (Closes which result old)) }
{
    let Some(side) = side_of(side) else {
        return ConnectionCode::NoSuchSide.number();
    };
    let Some(mut object) = handle.take(alloc) else {
        return ConnectionCode::EmptyHandle.number();
    };
    let code = close_in(&mut object, side);
    handle.put(object);
    code.number()
}

/// Takes the next event of the connection that an object is, and shows it.
fn next_in(object: &mut Object, shown: &mut ShownEvent) -> ConnectionCode
    ensures { OfOpen object.old (code_number result) object.new
        (λ old. IsOpen object.new (λ new. Tells (code_number result) old new shown.new)) }
{
    match object {
        Object::Open(open) => open.next(shown),
        Object::Empty => ConnectionCode::EmptyHandle,
    }
}

/// Takes the next event, and shows it.
///
/// It is one of kind 0 where the next payload isn't there whole, or the connection is over.
///
/// Promise: exactly what comes next of the two streams is held and shown, or its fault told (`Tells`).
pub fn connection_next(alloc: Global, handle: &mut Handle, shown: &mut ShownEvent) -> u32
    ensures { OfOpen handle.old.object result handle.new.object
        (λ old. IsOpen handle.new.object (λ new. Tells result old new shown.new)) }
{
    let Some(mut object) = handle.take(alloc) else {
        return ConnectionCode::EmptyHandle.number();
    };
    let code = next_in(&mut object, shown);
    handle.put(object);
    code.number()
}

/// Ends both streams of the connection that an object is.
fn finish_in(object: &mut Object, shown: &mut ShownConnectionEnd) -> ConnectionCode
    ensures { OfOpen object.old (code_number result) object.new
        (λ old. IsOpen object.new (λ new. (code_number result ≡ 0) × Finishes old new shown.new)) }
{
    match object {
        Object::Open(open) => {
            open.finish(shown);
            ConnectionCode::Done
        }
        Object::Empty => ConnectionCode::EmptyHandle,
    }
}

/// Ends both streams, and shows the state of the connection.
pub fn connection_finish(alloc: Global, handle: &mut Handle, shown: &mut ShownConnectionEnd) -> u32
    ensures { OfOpen handle.old.object result handle.new.object
        (λ old. IsOpen handle.new.object (λ new. (result ≡ 0) × Finishes old new shown.new)) }
{
    let Some(mut object) = handle.take(alloc) else {
        return ConnectionCode::EmptyHandle.number();
    };
    let code = finish_in(&mut object, shown);
    handle.put(object);
    code.number()
}

/// Shows the line of the event, or of the end, of the connection that an object is.
fn line_in(object: &mut Object, form: Form, text: &mut *const u8, len: &mut usize) -> ConnectionCode
    ensures { OfOpen object.old (code_number result) object.new (λ old. IsOpen object.new (Lines old)) }
{
    match object {
        Object::Open(open) => {
            let code = open.write_line(form);
            let line = open.written_line(form);
            *text = start_of(line);
            *len = line.len();
            code
        }
        Object::Empty => ConnectionCode::EmptyHandle,
    }
}

/// Shows the event that was told last as a line, or how the connection ended.
///
/// The line is of this form, which isn't short.
pub fn connection_line(
    alloc: Global,
    handle: &mut Handle,
    form: Form,
    text: &mut *const u8,
    len: &mut usize,
) -> u32
    ensures { OfOpen handle.old.object result handle.new.object
        (λ old. IsOpen handle.new.object (Lines old)) }
{
    let Some(mut object) = handle.take(alloc) else {
        return ConnectionCode::EmptyHandle.number();
    };
    let code = line_in(&mut object, form, text, len);
    handle.put(object);
    code.number()
}
