//! Copies that borrow nothing, of what can be copied or made to own its bytes and isn't elsewhere.

use crate::given::SHORT;
use crate::support::Asserting;
use mysql_bulk_builder::{BulkExecuteRequestBuilderError, BulkExecuteRequestError};
use mysql_ok_packets::{SessionStateInfo, SessionStateType};
use mysql_packets::{ErrPacket, LocalInfilePacket, ProgressReport, ServerError, SqlState};
use mysql_stmt::ComStmtSendLongData;
use mysql_values::{ByteString, Content, MissingNamedParameterError, ParamsError};
use std::borrow::CowSlice;
use tests_support::{again, assert_copied, given_values};

/// Asserts that a value that is made to own its bytes is the same one, and lets go of both.
macro_rules! assert_owned {
    ($assert:expr, $alloc:expr, $value:expr) => {{
        let value = $value;
        assert_copied($assert, &value, $value.into_owned($alloc), $value.into_owned($alloc));
        drop(value);
    }};
}

/// Asserts that a copy of a value is the same one, and lets go of both.
macro_rules! assert_cloned {
    ($assert:expr, $alloc:expr, $value:expr) => {{
        let value = $value;
        assert_copied($assert, &value, value.clone($alloc), value.clone($alloc));
        drop(value);
    }};
}

/// Some bytes.
const ABC: &[u8] = b"abc";

#[test]
fn packets(rt: HostRuntime) {
    let a = Asserting(&rt);
    let alloc = rt.alloc();
    let schema = SessionStateType::SESSION_TRACK_SCHEMA;
    let state = Some(SqlState::new(*b"HY000"));
    assert_owned!(
        &a,
        alloc,
        SessionStateInfo::new(schema, CowSlice::Borrowed(ABC))
    );
    assert_owned!(
        &a,
        alloc,
        ProgressReport::new(1, 10, 23500, CowSlice::Borrowed(ABC))
    );
    assert_owned!(
        &a,
        alloc,
        ServerError::new(1096, state, CowSlice::Borrowed(ABC))
    );
    assert_owned!(&a, alloc, LocalInfilePacket::new(CowSlice::Borrowed(ABC)));
    assert_owned!(
        &a,
        alloc,
        ComStmtSendLongData::new(1, 2, CowSlice::Borrowed(ABC))
    );
    let report = ProgressReport::new(1, 10, 23500, CowSlice::Borrowed(ABC));
    assert_cloned!(&a, alloc, ErrPacket::Progress(report));
    let error = ServerError::new(1096, state, CowSlice::Borrowed(ABC));
    assert_cloned!(&a, alloc, ErrPacket::Error(error));
    assert_cloned!(&a, alloc, LocalInfilePacket::new(CowSlice::Borrowed(ABC)));
    assert_cloned!(
        &a,
        alloc,
        ComStmtSendLongData::new(1, 2, CowSlice::Borrowed(ABC))
    );
}

#[test]
fn errors(rt: HostRuntime) {
    let a = Asserting(&rt);
    let alloc = rt.alloc();
    assert_cloned!(
        &a,
        alloc,
        Content::Bytes(again!(&a, ByteString::copy(alloc, b"abc")))
    );
    let name = again!(&a, ByteString::copy(alloc, b"abc"));
    let missing = ParamsError::Missing(MissingNamedParameterError(name));
    assert_cloned!(&a, alloc, BulkExecuteRequestBuilderError::Params(missing));
    let error = BulkExecuteRequestError::RowTooLarge(again!(&a, given_values(alloc, SHORT)));
    assert_cloned!(&a, alloc, BulkExecuteRequestBuilderError::Request(error));
}
