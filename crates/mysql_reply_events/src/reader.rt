//! The reader of a reply's payloads.

ghost use Rattle.std.specs.Prelude.{◌≡◌, Err, IfOk, IfSome, None, Some, OnErr, OnOk, false, option_map, true};
ghost use Rattle.mysql_columns.specs.Views.{extended_view};
ghost use Rattle.mysql_row_refs.specs.RowRefs.{row_ref_view};
ghost use Rattle.mysql_rows.specs.Rows as rows;
ghost use Rattle.mysql_rows.specs.Views.{shared_columns};
ghost use Rattle.mysql_reply_events.specs.Behind.{behind, is_column};
ghost use Rattle.mysql_reply_events.specs.Due.{bare};
ghost use Rattle.mysql_reply_events.specs.Events.Event.{ColumnEvent};
ghost use Rattle.mysql_reply_events.specs.NextRows.{KeepsRow, LendsRow, TakesRow, is_next_row};
ghost use Rattle.mysql_reply_events.specs.Reader.{GoesOn, HasFailed, Peeks, ReadsInPlace, ReadsOn, TakesFileData};
ghost use Rattle.mysql_reply_events.specs.Reader.{awaits_rows, fresh_reader, is_row_due};
ghost use Rattle.mysql_reply_events.specs.Standing.{RowAt, columns_of, format_of};
ghost use Rattle.mysql_reply_events.specs.States.{Says, Steps, so_far};
ghost use Rattle.mysql_reply_events.specs.Table as table;
ghost use Rattle.mysql_reply_events.specs.Views.{awaited_view, due_view, event_view, turn_of};

use crate::awaited::{Awaited, Due, Turn};
use crate::behind::{pass, pass_column, turn_behind};
use crate::context::{Context, ReplyKind};
use crate::event::ReplyEvent;
use crate::fault::ReplyFault;
use crate::forms::is_report_like;
use crate::packets::report_packet;
use crate::rows::row_packet;
use crate::standing::StandingColumns;
use crate::state::ReplyState;
use crate::steps::{place_event, take_column};
use mysql_columns::{Column, ExtendedColumn};
use mysql_const::Capabilities;
use mysql_row_refs::{RowFormat, RowRef, is_row};
use mysql_rows::Row;
use std::alloc::{AllocError, Global};
use std::marker::Model;
use std::rc::RcSlice;

/// A payload of the server is due.
fn is_due(awaited: &Awaited) -> bool
    ensures { result ≡ table.is_due (awaited_view awaited.now) }
{
    match awaited {
        Awaited::FileData | Awaited::Nothing => false,
        _ => true,
    }
}

/// What a payload of the server says.
fn says(
    alloc: Global,
    context: Context,
    state: &ReplyState,
    payload: &[u8],
) -> Result<ReplyEvent, ReplyFault>
    ensures { Says (table.event_at context (so_far state.now) payload.now) result }
{
    if is_due(&state.awaited) && is_report_like(context, payload) {
        let report = report_packet(alloc, payload)?;
        Ok(ReplyEvent::Progress(report))
    } else {
        place_event(alloc, context, state, payload)
    }
}

/// What a payload of the server leads to: what it says, and what is awaited behind that.
pub fn step(
    alloc: Global,
    context: Context,
    state: &mut ReplyState,
    payload: &[u8],
) -> Result<ReplyEvent, ReplyFault>
    ensures step { Steps (table.event_at context (so_far state.old) payload.now) result state.new }
    ensures kept { OnErr result (state.new.standing ≡ state.old.standing) }
    ensures format { state.new.standing.format ≡ state.old.standing.format }
{
    match says(alloc, context, state, payload)? {
        ReplyEvent::Column(column) => {
            take_column(alloc, context, state, column.column())?;
            Ok(ReplyEvent::Column(column))
        }
        event => {
            pass(alloc, context, state, &event);
            Ok(event)
        }
    }
}

/// The command is a fetch.
fn is_fetch(kind: ReplyKind) -> bool
    ensures { result ≡ table.is_fetch kind }
{
    match kind {
        ReplyKind::Fetch => true,
        _ => false,
    }
}

/// A row is due that may be lent.
fn awaits_rows(context: Context, state: &ReplyState) -> bool
    ensures { result ≡ awaits_rows context (so_far state.now) (awaited_view state.now.awaited) }
{
    match &state.awaited {
        Awaited::Rows { known } => *known && state.standing.columns().is_some(),
        Awaited::First => is_fetch(context.kind) && state.standing.columns().is_some(),
        _ => false,
    }
}

/// The payload is one in a row's place that is read as a row.
fn is_row_due(context: Context, state: &ReplyState, payload: &[u8]) -> bool
    ensures { result ≡ is_row_due context (so_far state.now) payload.now }
{
    awaits_rows(context, state)
        && !is_report_like(context, payload)
        && is_row(payload, context.deprecates_eof())
}

/// A row is due behind another one, and the payload begins as one.
fn is_next_row(awaited: &Awaited, payload: &[u8]) -> bool
    ensures { result ≡ is_next_row (awaited_view awaited.now) payload.now }
{
    match (awaited, payload) {
        (Awaited::Rows { known: true }, [first, ..]) => *first < 254,
        _ => false,
    }
}

/// The format of rows, by the kind of the command.
pub fn format_of(kind: ReplyKind) -> RowFormat
    ensures { result ≡ format_of kind }
{
    if kind.has_binary_rows() {
        RowFormat::Binary
    } else {
        RowFormat::Text
    }
}

/// Reads the payloads of one reply of a server, one event each.
///
/// It is told the kind of the command, the capabilities in force and the columns that the statement
/// last had. [`EventReader::turn`] tells whose payload is due: the server's go to
/// [`EventReader::read`], those of a file that the server asked for to
/// [`EventReader::file_data`]. It keeps no row, no parameter and no text, but columns: those that
/// came of a group that isn't whole, and those that stand.
///
///     let mut reader = EventReader::new(alloc, ReplyKind::Text, capabilities, None);
///     while reader.turn() == Turn::Server {
///         match reader.read(payload)? {
///             ReplyEvent::Row(row) => ..
///         }
///     }
///
/// After an `Err` it has failed: each call answers that fault from then on, and nothing changes.
///
/// MySQL: Client/Server Protocol, "Command Phase".
#[derive(Drop)]
pub struct EventReader {
    alloc: Global,
    context: Context,
    state: ReplyState,
    fault: Option<ReplyFault>,
}

impl Model for EventReader {
    ghost use Rattle.mysql_reply_events.specs.Reader.{ReaderState};

    ghost Value = { ReaderState };

    ghost use Rattle.mysql_reply_events.specs.States.{so_far};

    ghost view = { λ r. record {
      context = r.context;
      so_far = so_far r.state;
      fault = r.fault;
      rows = r.state.standing.reader;
    } };

    ghost use Rattle.std.specs.Prelude.{◌≡◌};
    ghost use Rattle.mysql_reply_events.specs.Standing.{format_of};

    ghost invariant = { λ r. r.state.standing.format ≡ format_of r.context.kind };
}

impl EventReader {
    /// A reader of the reply to a command of this kind, with the capabilities in force.
    ///
    /// `columns` are those that the statement last had, of its prepare or of its last result. Rows
    /// of a fetch are read by them, and those of an execution whose columns don't follow.
    pub fn new(
        alloc: Global,
        kind: ReplyKind,
        capabilities: Capabilities,
        columns: Option<RcSlice<Column>>,
    ) -> EventReader
        ensures { result ≡ fresh_reader (record { kind = kind; capabilities = capabilities }) (columns_of columns) }
    {
        EventReader {
            alloc,
            context: Context { kind, capabilities },
            state: ReplyState {
                awaited: Awaited::First,
                standing: StandingColumns::new(columns, format_of(kind)),
            },
            fault: None,
        }
    }

    /// Reads the next payload of the server.
    ///
    /// Promise: the event and what is awaited behind it are exactly those of the table, or its fault,
    /// for any bytes (`event_at`).
    ///
    /// # Errors
    /// - `NotDue` where no payload of the server is due.
    /// - The fault of the packet that is due, each named by what can't be read.
    /// - `Memory`.
    ///
    /// MySQL: Client/Server Protocol, "COM_QUERY Response", "COM_STMT_PREPARE Response",
    /// "COM_STMT_FETCH Response", "COM_FIELD_LIST Response" and "COM_STATISTICS".
    pub fn read(&mut self, payload: &[u8]) -> Result<ReplyEvent, ReplyFault>
        ensures failed { IfSome self.old.fault (λ fault. (result ≡ Err fault) × (self.new ≡ self.old)) }
        ensures reads { self.old.fault ≡ None → ReadsOn self.old payload.now result self.new }
    {
        if let Some(fault) = self.fault {
            return Err(fault);
        }
        match step(self.alloc, self.context, &mut self.state, payload) {
            Ok(event) => Ok(event),
            Err(fault) => Err(self.fail(fault)),
        }
    }

    /// What the next payload of the server would be, which isn't taken.
    ///
    /// Promise: the event is the one that [`EventReader::read`] would answer, or the fault
    /// (`event_at`).
    ///
    /// # Errors
    /// - Those of [`EventReader::read`], in the same order.
    ///
    /// MySQL: Client/Server Protocol, "COM_QUERY Response".
    pub fn peek(&self, payload: &[u8]) -> Result<ReplyEvent, ReplyFault>
        ensures failed { IfSome self.now.fault (λ fault. result ≡ Err fault) }
        ensures peeks { self.now.fault ≡ None → Peeks self.now payload.now result }
    {
        if let Some(fault) = self.fault {
            return Err(fault);
        }
        says(self.alloc, self.context, &self.state, payload)
    }

    /// Takes a payload of the client's file; an empty one ends the file.
    ///
    /// Promise: what is awaited behind it is what the table says, or its fault (`file_data_at`).
    ///
    /// # Errors
    /// - `NotDue` where no file is due.
    ///
    /// MySQL: Client/Server Protocol, "LOCAL INFILE Request".
    pub fn file_data(&mut self, payload: &[u8]) -> Result<(), ReplyFault>
        ensures failed { IfSome self.old.fault (λ fault. (result ≡ Err fault) × (self.new ≡ self.old)) }
        ensures takes { self.old.fault ≡ None → TakesFileData self.old payload.now result self.new }
    {
        if let Some(fault) = self.fault {
            return Err(fault);
        }
        match self.state.awaited {
            Awaited::FileData => {
                if payload.is_empty() {
                    self.state.awaited = Awaited::First;
                }
                Ok(())
            }
            _ => Err(self.fail(ReplyFault::NotDue)),
        }
    }

    /// Goes on behind an event that was put, without reading it: any but a column.
    ///
    /// A column goes to [`EventReader::pass_column`], since it is kept.
    ///
    /// Promise: what is awaited then is what follows from the event, and it is what reading a payload
    /// of this event would leave (`behind`, `EventsLeadOn`).
    ///
    /// MySQL: Client/Server Protocol, "COM_QUERY Response" and "COM_STMT_PREPARE Response".
    #[inline(always)]
    pub fn pass(&mut self, event: &ReplyEvent)
        requires going { self.old.fault ≡ None }
        requires other { is_column (event_view event.now) ≡ false }
        ensures { self.new ≡ record self.old {
          so_far = behind self.old.context self.old.so_far (event_view event.now);
        } }
    {
        pass(self.alloc, self.context, &mut self.state, event);
    }

    /// Goes on behind a column that was put, without reading it. Answers the columns that stand then.
    ///
    /// They are shared: at the last column of a group, but for parameters, those of the group.
    ///
    /// Promise: what is awaited then is what follows from the column, and it is what reading it would
    /// leave (`behind`, `EventsLeadOn`).
    ///
    /// # Errors
    /// - `AllocError` for want of memory. Nothing has changed then.
    ///
    /// MySQL: Client/Server Protocol, "Column Definition".
    pub fn pass_column(
        &mut self,
        column: &ExtendedColumn,
    ) -> Result<Option<RcSlice<Column>>, AllocError>
        requires going { self.old.fault ≡ None }
        ensures behind { OnOk result (self.new.so_far ≡
            behind self.old.context self.old.so_far (ColumnEvent (extended_view column.now))) }
        ensures goes_on { GoesOn self.old self.new }
        ensures columns { IfOk result (λ columns. columns_of columns ≡ self.new.so_far.columns) }
        ensures unchanged { OnErr result (self.new ≡ self.old) }
    {
        pass_column(self.alloc, self.context, &mut self.state, column.column())
    }

    // The payload has no place, or memory ran out.
    fn fail(&mut self, fault: ReplyFault) -> ReplyFault
        ensures fails { HasFailed self.old fault self.new }
        ensures same { result ≡ fault }
    {
        self.state.awaited = Awaited::Nothing;
        self.fault = Some(fault);
        fault
    }

    // Reads a row that is due, where it lies.
    fn row_in_place(&mut self, payload: &[u8]) -> Result<Option<ReplyEvent>, ReplyFault>
        requires going { self.old.fault ≡ None }
        requires due { is_row_due self.old.context self.old.so_far payload.now ≡ true }
        ensures { ReadsInPlace self.old payload.now result self.new }
    {
        match self.state.standing.read(self.alloc, payload) {
            Ok(()) => {
                self.state.awaited.pass_row();
                Ok(None)
            }
            Err(fault) => Err(self.fail(fault)),
        }
    }

    /// Reads the next payload of the server as [`EventReader::read`] does, but a row where it lies.
    ///
    /// `None` is a row: [`EventReader::row_ref`] of this payload then gives it. None of it is copied,
    /// and memory is asked for at the first row of a result alone.
    ///
    /// Promise: the row is the one that `read` would answer, and so is what is awaited behind it
    /// (`ReadsInPlace`).
    ///
    /// # Errors
    /// - Those of [`EventReader::read`], in the same order.
    ///
    /// MySQL: Client/Server Protocol, "Text Resultset Row" and "Binary Protocol Resultset Row"; C
    /// API, "mysql_use_result()".
    pub fn read_in_place(&mut self, payload: &[u8]) -> Result<Option<ReplyEvent>, ReplyFault>
        ensures failed { IfSome self.old.fault (λ fault. (result ≡ Err fault) × (self.new ≡ self.old)) }
        ensures reads { self.old.fault ≡ None → ReadsInPlace self.old payload.now result self.new }
    {
        if self.fault.is_none() && is_row_due(self.context, &self.state, payload) {
            return self.row_in_place(payload);
        }
        match self.read(payload) {
            Ok(event) => Ok(Some(event)),
            Err(fault) => Err(fault),
        }
    }

    /// Reads a row that is due behind another one where it lies, as most payloads of a long result
    /// are. `false` says nothing of the payload: [`EventReader::read_in_place`] reads it then.
    ///
    /// Neither a first row is read here, for which memory is asked, nor a payload that begins as an
    /// error or a terminator does.
    ///
    /// Promise: where it is `true`, the row is the one that `read` would answer, and
    /// [`EventReader::row_ref`] gives it. Else nothing has changed but what `row_ref` gives
    /// (`TakesRow`).
    ///
    /// MySQL: Client/Server Protocol, "Text Resultset Row" and "Binary Protocol Resultset Row".
    #[inline(always)]
    pub fn take_row(&mut self, payload: &[u8]) -> bool
        requires { self.old.fault ≡ None }
        ensures { TakesRow self.old payload.now result self.new }
    {
        if is_next_row(&self.state.awaited, payload) {
            self.state.standing.take_row(payload)
        } else {
            false
        }
    }

    /// Reads a row where it lies, if it comes next, a first one too. `false` says nothing of the payload:
    /// [`EventReader::read`] reads it then.
    ///
    /// Memory is asked for at the first row of a result alone; without it the answer is `false`.
    ///
    /// Promise: where it is `true`, the row is the one that `read` would answer, and
    /// [`EventReader::row_ref`] gives it. Else nothing has changed but what `row_ref` gives
    /// (`LendsRow`).
    ///
    /// MySQL: Client/Server Protocol, "Text Resultset Row" and "Binary Protocol Resultset Row"; C
    /// API, "mysql_use_result()".
    pub fn lend_row(&mut self, payload: &[u8]) -> bool
        requires { self.old.fault ≡ None }
        ensures { LendsRow self.old payload.now result self.new }
    {
        if !is_row_due(self.context, &self.state, payload) {
            return false;
        }
        match self.state.standing.read(self.alloc, payload) {
            Ok(()) => {
                self.state.awaited.pass_row();
                true
            }
            Err(_) => false,
        }
    }

    /// Reads a row that is kept, if it comes next. `None` says nothing of the payload, and nothing has
    /// changed: [`EventReader::read`] reads it then.
    ///
    /// Promise: the row is the one that `read` would answer, and so is what is awaited behind it
    /// (`KeepsRow`).
    ///
    /// # Errors
    /// - Those of [`EventReader::read`].
    ///
    /// MySQL: Client/Server Protocol, "Text Resultset Row" and "Binary Protocol Resultset Row".
    pub fn read_row(&mut self, payload: &[u8]) -> Result<Option<Row>, ReplyFault>
        requires { self.old.fault ≡ None }
        ensures { KeepsRow self.old payload.now result self.new }
    {
        if !is_row_due(self.context, &self.state, payload) {
            return Ok(None);
        }
        let Some(columns) = self.state.standing.columns() else {
            return Ok(None);
        };
        match row_packet(self.alloc, self.context, columns, payload) {
            Ok(row) => {
                self.state.awaited.pass_row();
                Ok(Some(row))
            }
            Err(fault) => Err(self.fail(fault)),
        }
    }

    /// The row that was read last where it lies, which borrows its payload.
    ///
    /// MySQL: Client/Server Protocol, "Text Resultset Row" and "Binary Protocol Resultset Row".
    pub fn row_ref<'r, 'p>(&'r self, payload: &'p [u8]) -> RowRef<'r, 'p>
        requires { (row : rows.Row) × RowAt self.now.rows payload.now row }
        ensures { RowAt self.now.rows payload.now (row_ref_view result) }
    {
        let Some(reader) = self.state.standing.reader() else {
            unreachable!()
        };
        reader.row_ref(payload)
    }

    /// What is awaited, without the columns of a group that came before. Behind a fault nothing is.
    pub fn due(&self) -> Due
        ensures { due_view result ≡ bare self.now.so_far.awaited }
    {
        self.state.awaited.due()
    }

    /// Whose payload is due. Behind a fault nobody's is.
    pub fn turn(&self) -> Turn
        ensures { result ≡ turn_of self.now.so_far.awaited }
    {
        self.state.awaited.turn()
    }

    /// Whose payload is due behind an event that is put.
    ///
    /// Promise: whose it is once the reader goes on behind the event (`behind`).
    ///
    /// MySQL: Client/Server Protocol, "COM_QUERY Response" and "COM_STMT_PREPARE Response".
    pub fn turn_behind(&self, event: &ReplyEvent) -> Turn
        ensures { result ≡
            turn_of (behind self.now.context self.now.so_far (event_view event.now)).awaited }
    {
        turn_behind(self.alloc, self.context, &self.state, event)
    }

    /// What the reply is read by.
    pub fn context(&self) -> Context
        ensures { result ≡ self.now.context }
    {
        self.context
    }

    /// The fault that was found.
    pub fn fault(&self) -> Option<ReplyFault>
        ensures { result ≡ self.now.fault }
    {
        self.fault
    }

    /// The columns that stand. They are those of the last result set or statement whose columns
    /// came, before that those that the statement had.
    pub fn columns(&self) -> Option<&RcSlice<Column>>
        ensures { option_map (λ columns. shared_columns columns.now) result ≡ self.now.so_far.columns }
    {
        match self.state.standing.columns() {
            Some(columns) => Some(columns),
            None => None,
        }
    }

    /// The columns that stand, shared.
    ///
    /// # Errors
    /// - `AllocError` for want of memory.
    pub fn share_columns(&self) -> Result<Option<RcSlice<Column>>, AllocError>
        ensures { IfOk result (λ columns. columns_of columns ≡ self.now.so_far.columns) }
    {
        self.state.standing.share_columns()
    }

    /// The columns that stand, for the statement's next reply.
    pub fn into_columns(self) -> Option<RcSlice<Column>>
        ensures { columns_of result ≡ self.so_far.columns }
    {
        let EventReader {
            alloc: _,
            context: _,
            state,
            fault: _,
        } = self;
        let ReplyState {
            awaited: _,
            standing,
        } = state;
        standing.into_columns()
    }
}
