//! One payload at a time.

ghost use Rattle.std.specs.Prelude.{◌≡◌, ◌<◌, ◌^◌, [], Option, Some, None, Ok, OnOk, OnErr};
ghost use Rattle.std.specs.Prelude.{length};
ghost use Rattle.std.specs.Option.{option_or};
ghost use Rattle.mysql_receive.specs.Query.{IsQuery};
ghost use Rattle.mysql_receive.specs.Layout.{Prepare, Text, Execute, Bulk, LongData, Reset, Close, command_of};
ghost use Rattle.mysql_receive.specs.InForce.{StatementState as InForce, after, after_command, freshly_prepared};
ghost use Rattle.mysql_receive.specs.InForce.{nothing_yet, more_data, with_data, with_types, without_data};
ghost use Rattle.mysql_receive.specs.Reading.{prepared_data, statement_alone_at};
ghost use Rattle.mysql_receive.specs.Views.{Gives, place_data_of, Judged, PayloadJudged, types_carried, types_kept};
ghost use Rattle.mysql_receive.specs.Views.{statement_view, state_of, data_waiting};

use crate::carried::Carried;
use crate::fault::StreamFault;
use crate::layout::{PlaceData, check_id, read_long_data};
use crate::param_type::OwnTypes;
use crate::read_error::ReadError;
use crate::reading::{read_bulk, read_execute};
use crate::statement::{Statement, StatementState};
use mysql_const::Command;
use mysql_values::read_text_in;
use std::alloc::{AllocError, Global};

impl StatementState {
    /// What is in force behind a prepare.
    pub fn prepare(&mut self)
        ensures { state_of self.new ≡ freshly_prepared }
    {
        self.prepared = true;
        self.types = None;
        self.long_data.clear();
    }

    /// What is in force behind an execute that carries these types, those in force, or none.
    pub fn execute(&mut self, own: OwnTypes)
        ensures { state_of self.new ≡
            without_data (with_types (state_of self.old)
            (option_or (types_carried (types_kept self.old.types) own) (types_kept self.old.types))) }
    {
        if let OwnTypes::Anew(types) = own {
            self.types = Some(types);
        }
        self.long_data.clear();
    }

    /// What is in force behind a reset.
    pub fn reset(&mut self)
        ensures { state_of self.new ≡ without_data (state_of self.old) }
    {
        self.long_data.clear();
    }

    /// What is in force behind a close.
    pub fn close(&mut self)
        ensures { state_of self.new ≡ nothing_yet }
    {
        self.prepare();
        self.prepared = false;
    }

    /// What is in force behind a bulk that carries these types, those in force, or none.
    pub fn execute_bulk(&mut self, own: OwnTypes)
        ensures { state_of self.new ≡
            with_types (state_of self.old)
            (option_or (types_carried (types_kept self.old.types) own) (types_kept self.old.types)) }
    {
        if let OwnTypes::Anew(types) = own {
            self.types = Some(types);
        }
    }
}

/// Reads a text query.
fn read_text_query(alloc: Global, statement: &Statement, body: &[u8]) -> Result<Carried, ReadError>
    requires { IsQuery (statement_view statement.now).query }
    ensures { (s : InForce) → Judged (statement_view statement.now) s Text body.now result }
{
    if !statement.alone {
        return Err(ReadError::Fault(StreamFault::NotAlone));
    }
    match read_text_in(
        alloc,
        &statement.query,
        &statement.places,
        body,
        statement.mode,
        statement.spelling,
    )? {
        Some(set) => Ok(Carried::One(set)),
        None => Err(ReadError::Fault(StreamFault::TextMismatch)),
    }
}

/// The most placeholders that a statement can have.
const MAX_PLACES: usize = 65535;

/// Checks that a prepare is that of the statement's query.
fn check_prepare(statement: &Statement, body: &[u8]) -> Result<Carried, ReadError>
    ensures { (s : InForce) → Judged (statement_view statement.now) s Prepare body.now result }
{
    if body != statement.parsed.as_slice() {
        return Err(ReadError::Fault(StreamFault::PrepareMismatch));
    }
    if statement.places.len() > MAX_PLACES {
        return Err(ReadError::Fault(StreamFault::TooManyPlaces));
    }
    Ok(Carried::Nothing)
}

impl StatementState {
    /// What is in force behind data for a place.
    pub fn add_long_data(
        &mut self,
        alloc: Global,
        place: usize,
        bytes: &[u8],
    ) -> Result<(), AllocError>
        requires { place < 2 ^ 32 }
        ensures ok { OnOk result (state_of self.new ≡
            with_data (state_of self.old) (more_data (state_of self.old).long_data place bytes.now)) }
        ensures err { OnErr result (state_of self.new ≡ state_of self.old) }
    {
        extend_to(&mut self.long_data, place)?;
        append_data(alloc, &mut self.long_data, place, bytes)
    }
}

/// Makes the list reach a place, by places where nothing waits.
fn extend_to(long_data: &mut Vec<Option<Vec<u8>>>, place: usize) -> Result<(), AllocError>
    requires { place < 2 ^ 32 }
    ensures same { data_waiting long_data.new.items ≡ data_waiting long_data.old.items }
    ensures long { OnOk result (place < length long_data.new.items) }
{
    while long_data.len() <= place {
        long_data.push(None)?;
    }
    Ok(())
}

/// Appends to what waits for a place.
fn append_data(
    alloc: Global,
    long_data: &mut Vec<Option<Vec<u8>>>,
    place: usize,
    bytes: &[u8],
) -> Result<(), AllocError>
    requires { place < length long_data.old.items }
    ensures ok { OnOk result (data_waiting long_data.new.items ≡
        more_data (data_waiting long_data.old.items) place bytes.now) }
    ensures err { OnErr result (data_waiting long_data.new.items ≡ data_waiting long_data.old.items) }
{
    let waiting = &mut long_data[place];
    match waiting {
        Some(data) => data.extend_from_slice(bytes),
        None => {
            *waiting = Some(Vec::from_slice(alloc, bytes)?);
            Ok(())
        }
    }
}

/// Reads a prepare. A refusal changes nothing, here and below.
fn on_prepare(
    statement: &Statement,
    state: &mut StatementState,
    body: &[u8],
) -> Result<Carried, ReadError>
    ensures judged { Judged (statement_view statement.now) (state_of state.old) Prepare body.now result }
    ensures ok { OnOk result (state_of state.new ≡
        after_command (statement_view statement.now) (state_of state.old) Prepare body.now) }
    ensures err { OnErr result (state_of state.new ≡ state_of state.old) }
{
    let sets = check_prepare(statement, body)?;
    state.prepare();
    Ok(sets)
}

/// Reads an execute.
fn on_execute(
    alloc: Global,
    statement: &Statement,
    state: &mut StatementState,
    body: &[u8],
) -> Result<Carried, ReadError>
    ensures judged { Judged (statement_view statement.now) (state_of state.old) Execute body.now result }
    ensures ok { OnOk result (state_of state.new ≡
        after_command (statement_view statement.now) (state_of state.old) Execute body.now) }
    ensures err { OnErr result (state_of state.new ≡ state_of state.old) }
{
    let (set, own) = read_execute(alloc, statement, state, body)?;
    state.execute(own);
    Ok(Carried::One(set))
}

/// Reads a bulk.
fn on_bulk(
    alloc: Global,
    statement: &Statement,
    state: &mut StatementState,
    body: &[u8],
) -> Result<Carried, ReadError>
    ensures judged { Judged (statement_view statement.now) (state_of state.old) Bulk body.now result }
    ensures ok { OnOk result (state_of state.new ≡
        after_command (statement_view statement.now) (state_of state.old) Bulk body.now) }
    ensures err { OnErr result (state_of state.new ≡ state_of state.old) }
{
    let (sets, own) = read_bulk(alloc, statement, state, body)?;
    state.execute_bulk(own);
    Ok(Carried::Many(sets))
}

/// Reads the body of a long data command.
#[tactic(auto, unfolding(crate::specs::Reading::prepared_data))]
fn read_prepared_data<'a>(
    statement: &Statement,
    state: &StatementState,
    body: &'a [u8],
) -> Result<PlaceData<'a>, ReadError>
    ensures { Gives place_data_of result
        (prepared_data (statement_view statement.now) (state_of state.now) body.now) }
{
    if !state.prepared {
        return Err(ReadError::Fault(StreamFault::NotPrepared));
    }
    read_long_data(statement, body)
}

/// Reads a long data command.
#[tactic(auto, unfolding(crate::specs::Reading::prepared_data, crate::specs::Reading::long_data_at))]
fn on_long_data(
    alloc: Global,
    statement: &Statement,
    state: &mut StatementState,
    body: &[u8],
) -> Result<Carried, ReadError>
    ensures judged { Judged (statement_view statement.now) (state_of state.old) LongData body.now result }
    ensures ok { OnOk result (state_of state.new ≡
        after_command (statement_view statement.now) (state_of state.old) LongData body.now) }
    ensures err { OnErr result (state_of state.new ≡ state_of state.old) }
{
    let PlaceData { place, bytes } = read_prepared_data(statement, state, body)?;
    state.add_long_data(alloc, place as usize, bytes)?;
    Ok(Carried::Nothing)
}

/// Reads the body of a reset or a close.
#[tactic(auto, unfolding(crate::specs::Reading::statement_alone_at))]
fn check_id_alone(
    statement: &Statement,
    state: &StatementState,
    body: &[u8],
) -> Result<(), ReadError>
    ensures { Gives (λ _. []) result
        (statement_alone_at (statement_view statement.now) (state_of state.now) body.now) }
{
    if !state.prepared {
        return Err(ReadError::Fault(StreamFault::NotPrepared));
    }
    let rest = check_id(statement, body)?;
    if !rest.is_empty() {
        return Err(ReadError::Fault(StreamFault::WrongId));
    }
    Ok(())
}

/// Reads a reset.
fn on_reset(
    statement: &Statement,
    state: &mut StatementState,
    body: &[u8],
) -> Result<Carried, ReadError>
    ensures judged { Judged (statement_view statement.now) (state_of state.old) Reset body.now result }
    ensures ok { OnOk result (state_of state.new ≡
        after_command (statement_view statement.now) (state_of state.old) Reset body.now) }
    ensures err { OnErr result (state_of state.new ≡ state_of state.old) }
{
    check_id_alone(statement, state, body)?;
    state.reset();
    Ok(Carried::Nothing)
}

/// Reads a close.
fn on_close(
    statement: &Statement,
    state: &mut StatementState,
    body: &[u8],
) -> Result<Carried, ReadError>
    ensures judged { Judged (statement_view statement.now) (state_of state.old) Close body.now result }
    ensures ok { OnOk result (state_of state.new ≡
        after_command (statement_view statement.now) (state_of state.old) Close body.now) }
    ensures err { OnErr result (state_of state.new ≡ state_of state.old) }
{
    check_id_alone(statement, state, body)?;
    state.close();
    Ok(Carried::Nothing)
}

/// The first bytes of the commands that are read.
const COM_QUERY: u8 = Command::COM_QUERY as u8;

const COM_STMT_PREPARE: u8 = Command::COM_STMT_PREPARE as u8;

const COM_STMT_EXECUTE: u8 = Command::COM_STMT_EXECUTE as u8;

const COM_STMT_SEND_LONG_DATA: u8 = Command::COM_STMT_SEND_LONG_DATA as u8;

const COM_STMT_RESET: u8 = Command::COM_STMT_RESET as u8;

const COM_STMT_CLOSE: u8 = Command::COM_STMT_CLOSE as u8;

const COM_STMT_BULK_EXECUTE: u8 = Command::COM_STMT_BULK_EXECUTE as u8;

/// Reads the body of a command.
fn on_command(
    alloc: Global,
    statement: &Statement,
    state: &mut StatementState,
    command: u8,
    body: &[u8],
) -> Result<Carried, ReadError>
    requires { IsQuery (statement_view statement.now).query }
    ensures judged { Judged (statement_view statement.now) (state_of state.old)
        (command_of command) body.now result }
    ensures ok { OnOk result (state_of state.new ≡
        after_command (statement_view statement.now) (state_of state.old) (command_of command) body.now) }
    ensures err { OnErr result (state_of state.new ≡ state_of state.old) }
{
    match command {
        COM_QUERY => read_text_query(alloc, statement, body),
        COM_STMT_PREPARE => on_prepare(statement, state, body),
        COM_STMT_EXECUTE => on_execute(alloc, statement, state, body),
        COM_STMT_SEND_LONG_DATA => on_long_data(alloc, statement, state, body),
        COM_STMT_BULK_EXECUTE => on_bulk(alloc, statement, state, body),
        COM_STMT_RESET => on_reset(statement, state, body),
        COM_STMT_CLOSE => on_close(statement, state, body),
        _ => Err(ReadError::Fault(StreamFault::OtherCommand)),
    }
}

/// Reads one payload, and what is in force becomes that behind it. A refusal changes nothing.
pub fn step(
    alloc: Global,
    statement: &Statement,
    state: &mut StatementState,
    payload: &[u8],
) -> Result<Carried, ReadError>
    requires { IsQuery (statement_view statement.now).query }
    ensures judged { PayloadJudged (statement_view statement.now) (state_of state.old) payload.now result }
    ensures ok { OnOk result (state_of state.new ≡
        after (statement_view statement.now) (state_of state.old) payload.now) }
    ensures err { OnErr result (state_of state.new ≡ state_of state.old) }
{
    match payload {
        [] => Err(ReadError::Fault(StreamFault::EmptyCommand)),
        [command, body @ ..] => on_command(alloc, statement, state, *command, body),
    }
}
