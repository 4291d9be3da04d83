//! Replies written: a server's side.

ghost use Rattle.std.specs.Prelude.{◌≡◌, ◌≢◌, ◌⊎◌, [], Err, IfOk, MatchOption, MatchResult, None, Some, drop, false};
ghost use Rattle.std.specs.Prelude.{length, map, option_map, take, true};
ghost use Rattle.std.specs.Rc.{rc_slice_items};
ghost use Rattle.mysql_columns.specs.Views.{column_view};
ghost use Rattle.mysql_const.specs.ColumnTypes.{column_type_named};
ghost use Rattle.mysql_server_packets.specs.Views.{sql_state_view};
ghost use Rattle.mysql_reply_writer.specs.Written.{ColumnsStep, EndStep, ErrorStep, OkStep, PreparedStep};
ghost use Rattle.mysql_rows.specs.Views.{row_view};
ghost use Rattle.mysql_c_handles.specs.Codes.{code_number};
ghost use Rattle.mysql_c_handles.specs.Sets.{unheld_code, values_held};
ghost use Rattle.mysql_c_handles.specs.declared.code.Code.TheVariants as code;
ghost use Rattle.mysql_c_replies.specs.Replies.{kind_numbered};
ghost use Rattle.mysql_c_replies.specs.Steps.{IsWriter, WritesFrom, columns_given, lacks_columns};
ghost use Rattle.mysql_c_replies.specs.Writing.{BothStay, EndsWriting, GivesColumn, HasNoSuchType, IsNewWriter};
ghost use Rattle.mysql_c_replies.specs.Writing.{OfWriter, TakesColumn, WritesRowOf, column_said, error_said};
ghost use Rattle.mysql_c_replies.specs.Writing.{packet_said, state_said, statement_said};

use crate::given::Given;
use crate::reading::kind_of;
use crate::spot::{ShownSpot, show_refusal};
use crate::steps::{has_fewer_columns, write_given};
use mysql_c_handles::{Code, Handle, Object, WrittenReply};
use mysql_cells::Value;
use mysql_columns::Column;
use mysql_const::{CapabilityFlags, ColumnFlags, ColumnType, StatusFlags};
use mysql_ok_packets::OkPacket;
use mysql_reply_writer::ReplyWriter;
use mysql_rows::{Row, new_row};
use mysql_server_packets::{ServerError, SqlState, StmtPacket};
use std::alloc::{AllocError, Global};
use std::borrow::CowSlice;
use std::rc::RcSlice;

/// The SQL state of an error, by its bytes: five, or none for no state. Other bytes are no state.
fn state_of(state: &[u8]) -> Option<Option<SqlState>>
    ensures { option_map (λ said. option_map sql_state_view said) result ≡ state_said state.now }
{
    match state {
        [] => Some(None),
        [a, b, c, d, e] => Some(Some(SqlState::new([*a, *b, *c, *d, *e]))),
        _ => None,
    }
}

/// So many columns, for a row whose own columns don't count.
fn blank_columns(alloc: Global, count: usize) -> Result<RcSlice<Column>, AllocError>
    ensures { IfOk result (λ columns. length (rc_slice_items columns) ≡ count) }
{
    let mut columns = Vec::with_capacity(alloc, count)?;
    'columns: while columns.len() < count {
        columns.push(Column::new(alloc, ColumnType::MYSQL_TYPE_NULL))?;
    }
    RcSlice::from_vec(columns)
}

/// A row of copies of these values.
fn row_of(alloc: Global, values: &[Value]) -> Result<Row, AllocError>
    ensures { IfOk result (λ row. (row_view row).cells ≡ map Some values.now) }
{
    let copies = Vec::from_clones(alloc, values)?;
    let columns = blank_columns(alloc, copies.len())?;
    new_row(alloc, copies, columns)
}

/// A row of copies of the values of a set.
fn row_at(alloc: Global, object: &Object, set: usize) -> Result<Row, Code>
    ensures { MatchOption (values_held object.now set) (result ≡ Err (unheld_code object.now))
        (λ values. MatchResult result (λ row. (row_view row).cells ≡ map Some values) (λ e. e ≡
        code.Memory)) }
{
    match object.values_at(set) {
        Ok(values) => match row_of(alloc, values) {
            Ok(row) => Ok(row),
            Err(_) => Err(Code::Memory),
        },
        Err(code) => Err(code),
    }
}

/// A row of copies of the values of a set that a handle refers to.
fn row_in(alloc: Global, sets: &mut Handle, set: usize) -> Result<Row, Code>
    ensures kept { sets.new.object ≡ sets.old.object }
    ensures row { MatchOption (values_held sets.old.object set) (result ≡
        Err (unheld_code sets.old.object))
        (λ values. MatchResult result (λ row. (row_view row).cells ≡ map Some values) (λ e. e ≡
        code.Memory)) }
{
    let Some(object) = sets.take(alloc) else {
        return Err(Code::EmptyHandle);
    };
    let row = row_at(alloc, &object, set);
    sets.put(object);
    row
}

/// A column of this type that says this.
fn column_of(
    alloc: Global,
    column_type: ColumnType,
    name: &[u8],
    flags: u16,
    charset: u16,
    length: u32,
    decimals: u8,
) -> Result<Column, AllocError>
    ensures { IfOk result (λ column. column_view column ≡
        column_said column_type name.now flags charset length decimals) }
{
    let column = Column::new(alloc, column_type).with_name(name)?;
    Ok(
        column
            .with_flags(ColumnFlags(flags))
            .with_character_set(charset)
            .with_column_length(length)
            .with_decimals(decimals),
    )
}

/// Gives one more column to a writer.
fn take_column(object: &mut Object, column: Column) -> Code
    ensures { OfWriter object.old (code_number result) object.new
        (TakesColumn (column_view column) (code_number result) object.new) }
{
    match object {
        Object::Writer(reply) => match reply.columns.push(column) {
            Ok(()) => Code::Done,
            Err(_) => Code::Memory,
        },
        Object::Empty => Code::EmptyHandle,
        _ => Code::OtherKind,
    }
}

/// Gives one more column to the writer that a handle refers to.
fn give_column(alloc: Global, handle: &mut Handle, column: Column) -> u32
    ensures { OfWriter handle.old.object result handle.new.object
        (TakesColumn (column_view column) result handle.new.object) }
{
    let Some(mut object) = handle.take(alloc) else {
        return Code::EmptyHandle.number();
    };
    let code = take_column(&mut object, column);
    handle.put(object);
    code.number()
}

/// Tells whether a reply is whole.
fn end(object: &Object, spot: &mut ShownSpot) -> Code
    ensures { EndsWriting object.now (code_number result) spot.new }
{
    match object {
        Object::Writer(reply) => match reply.writer.finish() {
            Ok(()) => Code::Done,
            Err(refusal) => show_refusal(refusal, spot),
        },
        Object::Empty => Code::EmptyHandle,
        _ => Code::OtherKind,
    }
}

/// Makes the handle refer to a writer of the reply to a command of this kind.
///
/// The kinds are 0 a query, 1 an execution, 2 a prepare. The reply's first chunk has the number
/// `first`, and a payload has at most `limit` bytes.
///
/// Promise: a number that names no kind makes no writer (`IsNewWriter`).
pub fn writer_new(
    alloc: Global,
    handle: &mut Handle,
    kind: u32,
    capabilities: u32,
    first: u8,
    limit: usize,
) -> u32
    ensures made { result ≡ 0 → IsWriter handle.new.object (IsNewWriter kind capabilities first limit) }
    ensures kept { result ≢ 0 → handle.new.object ≡ handle.old.object }
    ensures cause { (result ≡ 0) ⊎ (result ≡ code_number code.Memory) ⊎
        ((result ≡ code_number code.NoSuchKind) × (kind_numbered kind ≡ None)) }
{
    let Some(kind) = kind_of(kind) else {
        return Code::NoSuchKind.number();
    };
    let writer = ReplyWriter::new(alloc, kind, CapabilityFlags(capabilities), first, limit);
    let columns = Vec::new(alloc);
    match handle.set(alloc, Object::Writer(WrittenReply { writer, columns })) {
        Ok(()) => Code::Done.number(),
        Err(_) => Code::Memory.number(),
    }
}

/// Writes an OK packet, and whether another result follows it. An id of 0 is none.
pub fn writer_ok(
    alloc: Global,
    handle: &mut Handle,
    affected_rows: u64,
    last_insert_id: u64,
    status: u16,
    warnings: u16,
    info: &[u8],
    more: bool,
    out: &mut Handle,
    spot: &mut ShownSpot,
) -> u32
    ensures { WritesFrom (λ _. OkStep more
        (packet_said affected_rows last_insert_id status warnings info.now)) handle.old.object
        out.old.object result spot.new handle.new.object out.new.object }
{
    let packet = OkPacket::new(
        affected_rows,
        Some(last_insert_id),
        StatusFlags(status),
        warnings,
        Some(CowSlice::Borrowed(info)),
        None,
    );
    write_given(alloc, handle, Given::Ok(packet, more), out, spot)
}

/// Writes an error, as a result or as the end of rows. Its SQL state has five bytes, or none.
pub fn writer_error(
    alloc: Global,
    handle: &mut Handle,
    number: u16,
    state: &[u8],
    message: &[u8],
    out: &mut Handle,
    spot: &mut ShownSpot,
) -> u32
    ensures { MatchOption (state_said state.now)
        (BothStay code.BadPacket handle.old.object out.old.object result handle.new.object
        out.new.object) (λ said. WritesFrom (λ _. ErrorStep (error_said number message.now said))
        handle.old.object out.old.object result spot.new handle.new.object out.new.object) }
{
    let Some(said) = state_of(state) else {
        return Code::BadPacket.number();
    };
    let error = ServerError::new(number, said, CowSlice::Borrowed(message));
    write_given(alloc, handle, Given::Error(error), out, spot)
}

/// Gives a writer one more column for the next rows or the next prepared statement. Its name is copied.
pub fn writer_column(
    alloc: Global,
    handle: &mut Handle,
    column_type: u8,
    name: &[u8],
    flags: u16,
    charset: u16,
    length: u32,
    decimals: u8,
) -> u32
    ensures { MatchOption (column_type_named column_type)
        (HasNoSuchType handle.old.object result handle.new.object)
        (λ known. GivesColumn (column_said known name.now flags charset length decimals)
        handle.old.object result handle.new.object) }
{
    let Ok(known) = ColumnType::try_from(column_type) else {
        return Code::NoSuchKind.number();
    };
    match column_of(alloc, known, name, flags, charset, length, decimals) {
        Ok(column) => give_column(alloc, handle, column),
        Err(_) => Code::Memory.number(),
    }
}

/// Begins rows under the columns that were given, and uses these up.
pub fn writer_rows(
    alloc: Global,
    handle: &mut Handle,
    out: &mut Handle,
    spot: &mut ShownSpot,
) -> u32
    ensures { WritesFrom (λ reply. ColumnsStep (columns_given reply)) handle.old.object
        out.old.object result spot.new handle.new.object out.new.object }
{
    write_given(alloc, handle, Given::Columns, out, spot)
}

/// Writes a row: copies of the values of a set, by its number.
///
/// Promise: what is appended is the row's step, or the writer and the bytes stay (`WritesRowOf`).
pub fn writer_row(
    alloc: Global,
    handle: &mut Handle,
    sets: &mut Handle,
    set: usize,
    out: &mut Handle,
    spot: &mut ShownSpot,
) -> u32
    ensures kept { sets.new.object ≡ sets.old.object }
    ensures row { MatchOption (values_held sets.old.object set)
        (BothStay (unheld_code sets.old.object) handle.old.object out.old.object result
        handle.new.object out.new.object)
        (λ values. WritesRowOf values handle.old.object out.old.object result spot.new
        handle.new.object out.new.object) }
{
    match row_in(alloc, sets, set) {
        Ok(row) => write_given(alloc, handle, Given::Row(row), out, spot),
        Err(code) => code.number(),
    }
}

/// Writes what ends rows, and whether another result follows them.
pub fn writer_end_rows(
    alloc: Global,
    handle: &mut Handle,
    status: u16,
    warnings: u16,
    more: bool,
    out: &mut Handle,
    spot: &mut ShownSpot,
) -> u32
    ensures { WritesFrom (λ _. EndStep more (packet_said 0 0 status warnings [])) handle.old.object
        out.old.object result spot.new handle.new.object out.new.object }
{
    let packet = OkPacket::new(0, None, StatusFlags(status), warnings, None, None);
    write_given(alloc, handle, Given::End(packet, more), out, spot)
}

/// Writes a prepared statement, and uses up the columns that were given: so many of them are its parameters.
pub fn writer_prepared(
    alloc: Global,
    handle: &mut Handle,
    statement: u32,
    params: usize,
    warnings: u16,
    out: &mut Handle,
    spot: &mut ShownSpot,
) -> u32
    ensures fewer { lacks_columns handle.old.object params ≡ true →
        BothStay code.OutOfRange handle.old.object out.old.object result handle.new.object
        out.new.object }
    ensures enough { lacks_columns handle.old.object params ≡ false →
        WritesFrom (λ reply. PreparedStep (statement_said statement warnings)
        (take params (columns_given reply)) (drop params (columns_given reply))) handle.old.object
        out.old.object result spot.new handle.new.object out.new.object }
{
    if has_fewer_columns(alloc, handle, params) {
        return Code::OutOfRange.number();
    }
    let packet = StmtPacket::new(statement, 0, 0, warnings);
    write_given(alloc, handle, Given::Prepared(packet, params), out, spot)
}

/// Tells whether the reply that a writer wrote is whole, and else why not.
///
/// Promise: the code says whether the reply that was written is whole, and else why not
/// (`EndsWriting`).
pub fn writer_end(alloc: Global, handle: &mut Handle, spot: &mut ShownSpot) -> u32
    ensures kept { handle.new.object ≡ handle.old.object }
    ensures whole { EndsWriting handle.old.object result spot.new }
{
    let Some(object) = handle.take(alloc) else {
        return Code::EmptyHandle.number();
    };
    let code = end(&object, spot);
    handle.put(object);
    code.number()
}
