//! What packets and errors print, bytes of packets as texts, and texts of queries with values.

use crate::fields::column_named;
use crate::given::named;
use crate::support::{Asserting, assert_behind, front};
use mysql_bulk_builder::InvalidComStmtBulkExecuteHeader;
use mysql_fields::InvalidLengthEncodedInteger;
use mysql_ok_packets::{
    Gtids, InvalidOkPacketHeader, Schema, SystemVariable, TransactionCharacteristics,
    TransactionState, Unsupported,
};
use mysql_packets::{
    ErrPacket, InvalidCatalog, InvalidErrPacketHeader, InvalidFixedLengthFieldsLen,
    InvalidLocalInfileHeader, InvalidSqlStateMarker, InvalidStmtPacketStatus, LocalInfilePacket,
    ProgressReport, ServerError, SqlState,
};
use mysql_stmt::{
    InvalidComStmtCloseHeader, InvalidComStmtExecuteHeader, InvalidComStmtResetHeader,
    InvalidComStmtSendLongDataHeader, InvalidIterationCount,
};
use mysql_values::{BindError, Params, bind_text, bind_text_at, places};
use std::alloc::Global;
use std::borrow::{CowSlice, CowStr};
use std::fmt::Display;
use tests_support::{Assert, again, assert_bytes, once_more};

/// Asserts how a value prints.
fn assert_prints<T: Display>(assert: &impl Assert, alloc: Global, value: &T, wanted: &str) {
    let text = again!(assert, value.to_string(alloc));
    assert_bytes(assert, text.as_bytes(), wanted.as_bytes());
}

const TEXT_OF_ERROR: &str = "ERROR 1096 (HY000): No tables used";

const TEXT_OF_REPORT: &str = "Stage: 1 of 10 'stage name'  23.50% of stage done";

#[test]
fn printed_packets(rt: HostRuntime) {
    let a = Asserting(&rt);
    let alloc = rt.alloc();
    let state = Some(SqlState::new(*b"HY000"));
    let error = ServerError::new(1096, state, CowSlice::Borrowed(b"No tables used"));
    let packet = ErrPacket::Error(error);
    assert_prints(&a, alloc, &packet, TEXT_OF_ERROR);
    a.holds(packet.is_error());
    assert_prints(&a, alloc, packet.server_error(), TEXT_OF_ERROR);
    drop(packet);
    let error = ServerError::new(1040, None, CowSlice::Borrowed(b"Too many connections"));
    assert_prints(&a, alloc, &error, "ERROR 1040: Too many connections");
    drop(error);
    let report = ProgressReport::new(1, 10, 23500, CowSlice::Borrowed(b"stage name"));
    let packet = ErrPacket::Progress(report);
    assert_prints(&a, alloc, &packet, TEXT_OF_REPORT);
    a.holds(packet.is_progress_report());
    assert_prints(&a, alloc, packet.progress_report(), TEXT_OF_REPORT);
    drop(packet);
}

#[test]
fn printed_errors(rt: HostRuntime) {
    let a = Asserting(&rt);
    let alloc = rt.alloc();
    assert_prints(
        &a,
        alloc,
        &InvalidErrPacketHeader,
        "Invalid error packet header",
    );
    assert_prints(
        &a,
        alloc,
        &InvalidSqlStateMarker,
        "Invalid SqlStateMarker value",
    );
    assert_prints(
        &a,
        alloc,
        &InvalidLocalInfileHeader,
        "Invalid LOCAL_INFILE header",
    );
    assert_prints(
        &a,
        alloc,
        &InvalidStmtPacketStatus,
        "Invalid statement packet status",
    );
    assert_prints(
        &a,
        alloc,
        &InvalidOkPacketHeader,
        "Invalid OK packet header",
    );
    let catalog = "Invalid catalog value in the column definition";
    assert_prints(&a, alloc, &InvalidCatalog, catalog);
    let len = "Invalid fixed length field length in the column definition";
    assert_prints(&a, alloc, &InvalidFixedLengthFieldsLen, len);
    assert_prints(
        &a,
        alloc,
        &InvalidLengthEncodedInteger,
        "invalid length-encoded number",
    );
    let execute = "Invalid header for COM_STMT_EXECUTE";
    assert_prints(&a, alloc, &InvalidComStmtExecuteHeader, execute);
    let count = "Invalid iteration count for COM_STMT_EXECUTE";
    assert_prints(&a, alloc, &InvalidIterationCount, count);
    let data = "Invalid header for COM_STMT_SEND_LONG_DATA";
    assert_prints(&a, alloc, &InvalidComStmtSendLongDataHeader, data);
    assert_prints(
        &a,
        alloc,
        &InvalidComStmtCloseHeader,
        "Invalid header for COM_STMT_CLOSE",
    );
    assert_prints(
        &a,
        alloc,
        &InvalidComStmtResetHeader,
        "Invalid header for COM_STMT_RESET",
    );
    let bulk = "Invalid header for COM_STMT_BULK_EXECUTE";
    assert_prints(&a, alloc, &InvalidComStmtBulkExecuteHeader, bulk);
}

/// Bytes that are no text: U+FFFD stands for the last one, and memory is asked for.
const BYTES: &[u8] = b"abc\xff";

const ABC: &str = "abc\u{fffd}";

/// Asserts that a text, or the same text asked for once more, is the wanted one.
fn assert_text<E: Drop>(
    assert: &impl Assert,
    first: Result<CowStr<'_>, E>,
    second: Result<CowStr<'_>, E>,
    wanted: &str,
) {
    let text = once_more(assert, first, second);
    assert_bytes(assert, text.as_str().as_bytes(), wanted.as_bytes());
}

const NO_TEXTS: [&[u8]; 5] = [
    b"schema\xff",
    b"table\xff",
    b"org_table\xff",
    b"name\xff",
    b"org_name\xff",
];

#[test]
fn texts_of_columns(rt: HostRuntime) {
    let a = Asserting(&rt);
    let alloc = rt.alloc();
    let x = again!(&a, column_named(alloc, NO_TEXTS));
    assert_text(
        &a,
        x.schema_str(alloc),
        x.schema_str(alloc),
        "schema\u{fffd}",
    );
    assert_text(&a, x.table_str(alloc), x.table_str(alloc), "table\u{fffd}");
    assert_text(
        &a,
        x.org_table_str(alloc),
        x.org_table_str(alloc),
        "org_table\u{fffd}",
    );
    assert_text(&a, x.name_str(alloc), x.name_str(alloc), "name\u{fffd}");
    assert_text(
        &a,
        x.org_name_str(alloc),
        x.org_name_str(alloc),
        "org_name\u{fffd}",
    );
    drop(x);
}

/// Texts of packets and of changes of the session.
#[test]
fn texts_of_packets(rt: HostRuntime) {
    let a = Asserting(&rt);
    let alloc = rt.alloc();
    let x = SqlState::new(*b"HY00\xff");
    assert_text(&a, x.as_str(alloc), x.as_str(alloc), "HY00\u{fffd}");
    let x = ServerError::new(1096, None, CowSlice::Borrowed(BYTES));
    assert_text(&a, x.message_str(alloc), x.message_str(alloc), ABC);
    drop(x);
    let x = LocalInfilePacket::new(CowSlice::Borrowed(BYTES));
    assert_text(&a, x.file_name_str(alloc), x.file_name_str(alloc), ABC);
    drop(x);
    let x = ProgressReport::new(1, 10, 23500, CowSlice::Borrowed(BYTES));
    assert_text(&a, x.stage_info_str(alloc), x.stage_info_str(alloc), ABC);
    drop(x);
    let x = Unsupported::new(CowSlice::Borrowed(BYTES));
    assert_text(&a, x.as_str(alloc), x.as_str(alloc), ABC);
    drop(x);
    let x = Schema::new(CowSlice::Borrowed(BYTES));
    assert_text(&a, x.as_str(alloc), x.as_str(alloc), ABC);
    drop(x);
    let x = Gtids::new(CowSlice::Borrowed(BYTES));
    assert_text(&a, x.as_str(alloc), x.as_str(alloc), ABC);
    drop(x);
    let x = TransactionState::new(CowSlice::Borrowed(BYTES));
    assert_text(&a, x.as_str(alloc), x.as_str(alloc), ABC);
    drop(x);
    let x = TransactionCharacteristics::new(CowSlice::Borrowed(BYTES));
    assert_text(&a, x.as_str(alloc), x.as_str(alloc), ABC);
    drop(x);
    let x = SystemVariable::new(CowSlice::Borrowed(b"autocommit"), CowSlice::Borrowed(BYTES));
    assert_text(&a, x.name_str(alloc), x.name_str(alloc), "autocommit");
    assert_text(&a, x.value_str(alloc), x.value_str(alloc), ABC);
    drop(x);
}

const QUERY: &[u8] = b"SELECT :a";

/// Appends the text of a set over the places of the query.
fn bind_at(alloc: Global, set: &Params, out: &mut Vec<u8>) -> Result<(), BindError> {
    let places = places(alloc, QUERY)?;
    bind_text_at(alloc, QUERY, &places, set, out)
}

/// A text is bound behind `front`, which stands alone where memory is refused.
#[test]
fn bound_texts(rt: HostRuntime) {
    let a = Asserting(&rt);
    let alloc = rt.alloc();
    let set = again!(&a, named(alloc, b"a", 1));
    let mut out = front(&a, alloc);
    let first = bind_text(alloc, QUERY, &set, &mut out).is_ok();
    let second = bind_text(alloc, QUERY, &set, &mut out).is_ok();
    assert_behind(&a, &out, first, second, b"SELECT 1");
    let mut out = front(&a, alloc);
    let first = bind_at(alloc, &set, &mut out).is_ok();
    let second = bind_at(alloc, &set, &mut out).is_ok();
    assert_behind(&a, &out, first, second, b"SELECT 1");
    drop(set);
}
