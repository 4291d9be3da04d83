//! Bulk requests, and rows and sets that are filled into them.

use crate::given::{Cells, Given, NULL, ONE, SHORT, TWO, TWO_VALUES, named, rows};
use crate::support::{Asserting, assert_appended, assert_shown, is_made, is_shown};
use mysql_buf::ParseBuf;
use mysql_bulk_builder::{
    BulkExecuteRequestBuilderError, BulkExecuteRequestError, BulkRequests,
    ComStmtBulkExecuteRequest, ComStmtBulkExecuteRequestBuilder, StmtBulkExecuteParamType,
    StmtBulkExecuteParamValue, StmtBulkExecuteParamValues, read_bulk_row,
};
use mysql_cells::Value;
use mysql_const::{
    ColumnFlags, ColumnType, MariadbBulkIndicator, StmtBulkExecuteFlags, StmtExecuteParamFlags,
};
use mysql_fields::{MySerialize, ParseExt, Readable, WireError};
use mysql_values::Params;
use std::alloc::{AllocError, Global};
use tests_support::{
    Assert, again, assert_bytes, assert_copied, assert_equal, assert_made, first_of, given_values,
};

/// The requests of the statement 1 with types, over the rows of 1 and 2, and of 1 alone.
const TYPED_1_2: &[u8] = b"\xfa\x01\0\0\0\x80\0\x08\0\0\x01\0\0\0\0\0\0\0\0\x02\0\0\0\0\0\0\0";

const TYPED_1: &[u8] = b"\xfa\x01\0\0\0\x80\0\x08\0\0\x01\0\0\0\0\0\0\0";

const TYPED: StmtBulkExecuteFlags = StmtBulkExecuteFlags::SEND_TYPES_TO_SERVER;

const UNTYPED: StmtBulkExecuteFlags = StmtBulkExecuteFlags(0);

const UNSIGNED: Cells = &[Given::UInt(2)];

const ONE_AND_NULL: Cells = &[Given::Int(1), Given::Null];

/// What a request is asked for by: its flags, the types that are given, if any, and the rows; and its
/// bytes or the refusal.
type Asked = (
    StmtBulkExecuteFlags,
    Option<&'static [ColumnType]>,
    &'static [Cells],
    Result<&'static [u8], &'static str>,
);

const LONGLONGS: &[ColumnType] = &[
    ColumnType::MYSQL_TYPE_LONGLONG,
    ColumnType::MYSQL_TYPE_LONGLONG,
];

const LONGLONG: &[ColumnType] = &[ColumnType::MYSQL_TYPE_LONGLONG];

const ASKED: [Asked; 15] = [
    // A column has the type of its first value that isn't NULL, without a sign where any number of
    // that type has none.
    (TYPED, None, &[ONE, TWO], Ok(TYPED_1_2)),
    (
        TYPED,
        None,
        &[NULL, ONE],
        Ok(b"\xfa\x01\0\0\0\x80\0\x08\0\x01\0\x01\0\0\0\0\0\0\0"),
    ),
    (
        TYPED,
        None,
        &[NULL, NULL],
        Ok(b"\xfa\x01\0\0\0\x80\0\x06\0\x01\x01"),
    ),
    (
        TYPED,
        None,
        &[ONE, UNSIGNED],
        Ok(b"\xfa\x01\0\0\0\x80\0\x08\x80\0\x01\0\0\0\0\0\0\0\0\x02\0\0\0\0\0\0\0"),
    ),
    (
        TYPED,
        None,
        &[UNSIGNED, ONE],
        Ok(b"\xfa\x01\0\0\0\x80\0\x08\x80\0\x02\0\0\0\0\0\0\0\0\x01\0\0\0\0\0\0\0"),
    ),
    (
        TYPED,
        None,
        &[ONE, SHORT],
        Ok(b"\xfa\x01\0\0\0\x80\0\x08\0\0\x01\0\0\0\0\0\0\0\0\x01x"),
    ),
    (TYPED, None, &[ONE, TWO_VALUES], Err("MixedArity")),
    (TYPED, None, &[], Err("NoParams")),
    // A type is sent as it is given, also where no value has it.
    (TYPED, Some(LONGLONG), &[ONE, TWO], Ok(TYPED_1_2)),
    (
        TYPED,
        Some(&[ColumnType::MYSQL_TYPE_VAR_STRING]),
        &[ONE],
        Ok(b"\xfa\x01\0\0\0\x80\0\xfd\0\0\x01\0\0\0\0\0\0\0"),
    ),
    // Where types aren't sent those that are given are ignored, as many as there are.
    (
        UNTYPED,
        Some(LONGLONGS),
        &[ONE],
        Ok(b"\xfa\x01\0\0\0\0\0\0\x01\0\0\0\0\0\0\0"),
    ),
    // As many types as values are wanted where they are sent, as many values in each row, and rows.
    (TYPED, Some(&[]), &[ONE], Err("MixedArity")),
    (TYPED, Some(LONGLONGS), &[ONE], Err("MixedArity")),
    (UNTYPED, Some(&[]), &[ONE, TWO_VALUES], Err("MixedArity")),
    (TYPED, Some(LONGLONG), &[], Err("NoParams")),
];

/// Types without flags.
fn types_of(
    alloc: Global,
    kinds: &[ColumnType],
) -> Result<Vec<StmtBulkExecuteParamType>, AllocError> {
    let mut types = Vec::new(alloc);
    for kind in kinds {
        types.push(StmtBulkExecuteParamType::new(*kind, StmtExecuteParamFlags(0)))?;
    }
    Ok(types)
}

/// The request of the statement 1 that is asked for.
fn request(
    alloc: Global,
    (flags, kinds, cells, _): &Asked,
) -> Result<ComStmtBulkExecuteRequest, BulkExecuteRequestError> {
    let all = rows(alloc, *cells)?;
    match kinds {
        Some(kinds) => {
            let types = types_of(alloc, *kinds)?;
            ComStmtBulkExecuteRequest::with_types(alloc, 1, *flags, types, all)
        }
        None => ComStmtBulkExecuteRequest::new(alloc, 1, *flags, all),
    }
}

/// The request of 1 and 2, made of values in one list.
fn flat_request(alloc: Global) -> Result<ComStmtBulkExecuteRequest, AllocError> {
    let mut values = Vec::new(alloc);
    values.push(StmtBulkExecuteParamValue::new(Value::Int(1)))?;
    values.push(StmtBulkExecuteParamValue::new(Value::Int(2)))?;
    let count = values.len();
    ComStmtBulkExecuteRequest::from_flat(alloc, 1, TYPED, 1, count, &mut values)
}

/// Bytes that begin with a request over one column of long numbers, and how many are left behind
/// it. Beside them stand its own bytes, or why they are refused.
type Received = (&'static [u8], usize, Result<&'static [u8], &'static str>);

/// A request is read with its first row, and without types by those that are known.
const RECEIVED: [Received; 5] = [
    (TYPED_1_2, 9, Ok(TYPED_1)),
    (
        b"\xfa\x01\0\0\0\0\0\0\x05\0\0\0\0\0\0\0",
        0,
        Ok(b"\xfa\x01\0\0\0\0\0\0\x05\0\0\0\0\0\0\0"),
    ),
    // Another first byte, a flag without a name, an indicator without one: all bytes are left.
    (
        b"\xfb\x01\0\0\0\0\0\0\x05\0\0\0\0\0\0\0",
        16,
        Err("BadConstant"),
    ),
    (
        b"\xfa\x01\0\0\0\0\x01\0\x05\0\0\0\0\0\0\0",
        16,
        Err("UnknownValue"),
    ),
    (
        b"\xfa\x01\0\0\0\0\0\x04\x05\0\0\0\0\0\0\0",
        16,
        Err("UnknownValue"),
    ),
];

/// The type and flags of a column.
type Ctx = (ColumnType, ColumnFlags);

const NUMBER: Ctx = (ColumnType::MYSQL_TYPE_LONGLONG, ColumnFlags(0));

/// Reads such a request.
fn received(
    assert: &impl Assert,
    alloc: Global,
    (bytes, left, _): &Received,
) -> Result<ComStmtBulkExecuteRequest, WireError> {
    let columns = Vec::from_slice(alloc, &[NUMBER])?;
    let mut buf = ParseBuf(*bytes);
    let request = buf.parse::<ComStmtBulkExecuteRequest>(alloc, columns);
    assert.holds(request.is_err() | (buf.len() == *left));
    assert.holds(request.is_ok() | (buf.len() == bytes.len()));
    request
}

#[test]
fn requests(rt: HostRuntime) {
    let a = Asserting(&rt);
    let alloc = rt.alloc();
    for asked in &ASKED {
        let first = is_made(&a, alloc, request(alloc, asked), asked.3);
        a.holds(is_made(&a, alloc, request(alloc, asked), asked.3) | first);
    }
    for bytes in &RECEIVED {
        let first = is_made(&a, alloc, received(&a, alloc, bytes), bytes.2);
        a.holds(is_made(&a, alloc, received(&a, alloc, bytes), bytes.2) | first);
    }
    assert_made(
        &a,
        alloc,
        flat_request(alloc),
        flat_request(alloc),
        TYPED_1_2,
    );
    let made = again!(&a, flat_request(alloc));
    assert_copied(&a, &made, made.clone(alloc), made.clone(alloc));
    drop(made);
}

/// An indicator without a value and another byte, and that indicator.
const WITHOUT_VALUES: [(&[u8], MariadbBulkIndicator); 3] = [
    (b"\x01x", MariadbBulkIndicator::BULK_INDICATOR_NULL),
    (b"\x02x", MariadbBulkIndicator::BULK_INDICATOR_DEFAULT),
    (b"\x03x", MariadbBulkIndicator::BULK_INDICATOR_IGNORE),
];

/// Indicators 1 to 3 read no value: NULL, and for now what the column's default is and what is
/// ignored. A value keeps them.
#[test]
fn values(rt: HostRuntime) {
    let a = Asserting(&rt);
    let alloc = rt.alloc();
    let unsigned = StmtExecuteParamFlags::UNSIGNED;
    let wanted = StmtBulkExecuteParamType::new(ColumnType::MYSQL_TYPE_LONGLONG, unsigned);
    assert_equal(
        &a,
        StmtBulkExecuteParamType::from_value(&Value::UInt(2)),
        wanted,
    );
    assert_appended(&a, alloc, &wanted, b"\x08\x80");
    a.holds(StmtBulkExecuteParamType::size() == Some(2));
    let value = StmtBulkExecuteParamValue::new(Value::Int(1));
    assert_appended(&a, alloc, &value, b"\0\x01\0\0\0\0\0\0\0");
    drop(value);
    let made = again!(
        &a,
        StmtBulkExecuteParamValues::new(alloc, again!(&a, given_values(alloc, ONE_AND_NULL)))
    );
    assert_appended(&a, alloc, &made, b"\0\x01\0\0\0\0\0\0\0\x01");
    assert_copied(&a, &made, made.clone(alloc), made.clone(alloc));
    drop(made);
    for (bytes, indicator) in WITHOUT_VALUES {
        let (mut buf, mut again) = (ParseBuf(bytes), ParseBuf(bytes));
        let first = read_bulk_row(alloc, &[NUMBER], &mut buf);
        let second = read_bulk_row(alloc, &[NUMBER], &mut again);
        assert_shown(&a, alloc, first, second, "Ok([NULL])");
        a.holds((buf.len() == 1) | (again.len() == 1));
        let mut buf = ParseBuf(bytes);
        let found = first_of::<StmtBulkExecuteParamValue, Ctx>(&a, alloc, NUMBER, &mut buf);
        assert_bytes(&a, buf.0, b"x");
        assert_equal(&a, found.indicator(), indicator);
        a.holds(matches!(found.value(), Value::NULL));
        drop(found);
    }
}

/// What is added to a builder: a row, or the set that gives a name a number.
#[derive(Clone, Copy)]
enum Added {
    Row(Cells),
    Set(&'static [u8], i64),
}

/// What is done with a builder, and what it answers.
#[derive(Clone, Copy)]
enum Step {
    Adds(Added, &'static str),
    /// The rows that are held make this request, and are let go.
    Builds(&'static [u8]),
    HoldsNone,
}

/// Adds a row or a set.
fn add(
    assert: &impl Assert,
    alloc: Global,
    builder: &mut ComStmtBulkExecuteRequestBuilder<'_>,
    added: Added,
) -> Result<Option<Vec<Value>>, BulkExecuteRequestBuilderError> {
    match added {
        Added::Row(cells) => builder.add_row(again!(assert, given_values(alloc, cells))),
        Added::Set(name, number) => builder.add_params(again!(assert, named(alloc, name, number))),
    }
}

/// Asserts what a builder answers: whether memory sufficed.
fn is_answered(
    assert: &impl Assert,
    alloc: Global,
    builder: &mut ComStmtBulkExecuteRequestBuilder<'_>,
    step: &Step,
) -> bool {
    match step {
        Step::Adds(added, wanted) => {
            let answer = add(assert, alloc, builder, *added);
            is_shown(assert, alloc, answer, *wanted)
        }
        Step::Builds(bytes) => {
            assert.holds(builder.has_rows());
            let is_built = is_made(assert, alloc, builder.build(), Ok(*bytes));
            assert.holds(builder.has_rows() != is_built);
            is_built
        }
        Step::HoldsNone => {
            assert.holds(!builder.has_rows());
            is_made(assert, alloc, builder.build(), Err("NoParams"))
        }
    }
}

/// Asserts what a builder answers, step by step, each once more where memory was refused.
fn assert_steps(
    assert: &impl Assert,
    alloc: Global,
    builder: &mut ComStmtBulkExecuteRequestBuilder<'_>,
    steps: &[Step],
) {
    for step in steps {
        let first = is_answered(assert, alloc, builder, step);
        assert.holds(first || is_answered(assert, alloc, builder, step));
    }
}

const LONG: Added = Added::Row(&[Given::Filled(19)]);

const LONG_AND_NULL: Added = Added::Row(&[Given::Filled(19), Given::Null]);

const ADDS_1: Step = Step::Adds(Added::Row(ONE), "Ok(None)");

const ADDS_2: Step = Step::Adds(Added::Row(TWO), "Ok(None)");

const ADDS_X: Step = Step::Adds(Added::Row(SHORT), "Ok(None)");

const MIXED: &str = "Err(Request(MixedArity))";

const MIXES: Step = Step::Adds(Added::Row(TWO_VALUES), MIXED);

const TOO_LONG: Step = Step::Adds(
    LONG,
    "Err(Request(RowTooLarge([Bytes([120, 120, 120, 120, 120, 120, 120, 120, 120, 120, 120, \
    120, 120, 120, 120, 120, 120, 120, 120])])))",
);

/// The most bytes of a packet, and what is done with a builder of such requests.
const BUILDERS: [(usize, &[Step]); 8] = [
    (31, &[Step::HoldsNone]),
    // Both rows fit.
    (
        31,
        &[ADDS_1, ADDS_2, Step::Builds(TYPED_1_2), Step::HoldsNone],
    ),
    // A byte less: the second row comes back, and fits a request of its own, which carries no types.
    (
        30,
        &[
            ADDS_1,
            Step::Adds(Added::Row(TWO), "Ok(Some([Int(2)]))"),
            Step::Builds(TYPED_1),
            ADDS_2,
            Step::Builds(b"\xfa\x01\0\0\0\0\0\0\x02\0\0\0\0\0\0\0"),
        ],
    ),
    // Rows that fit no request leave the builder unchanged, also in how many values its rows have.
    (
        31,
        &[
            TOO_LONG,
            Step::Adds(
                LONG_AND_NULL,
                "Err(Request(RowTooLarge([Bytes([120, 120, 120, 120, 120, 120, 120, 120, 120, \
                120, 120, 120, 120, 120, 120, 120, 120, 120, 120]), NULL])))",
            ),
            ADDS_1,
            ADDS_2,
            Step::Builds(TYPED_1_2),
        ],
    ),
    // While a row is held a long one only comes back; behind its request it is refused.
    (
        31,
        &[
            ADDS_X,
            Step::Adds(
                LONG,
                "Ok(Some([Bytes([120, 120, 120, 120, 120, 120, 120, 120, 120, 120, 120, 120, \
                120, 120, 120, 120, 120, 120, 120])]))",
            ),
            Step::Builds(b"\xfa\x01\0\0\0\x80\0\xfd\0\0\x01x"),
            TOO_LONG,
        ],
    ),
    // The first row taken sets how many values each row has, over builds too.
    (31, &[ADDS_1, MIXES, ADDS_2, Step::Builds(TYPED_1_2), MIXES]),
    // A row of another length is refused as such, also where it is too large: behind a row that is
    // held, and behind its request.
    (
        31,
        &[
            ADDS_1,
            Step::Adds(LONG_AND_NULL, MIXED),
            Step::Builds(TYPED_1),
            Step::Adds(LONG_AND_NULL, MIXED),
        ],
    ),
    // No row fits a limit that the head of a request exceeds.
    (
        4,
        &[
            Step::Adds(Added::Row(NULL), "Err(Request(RowTooLarge([NULL])))"),
            Step::HoldsNone,
            Step::Adds(Added::Row(&[]), "Err(Request(RowTooLarge([])))"),
            Step::HoldsNone,
        ],
    ),
];

/// A request that asks for the result of each row.
const WITH_RESULTS: &[Step] = &[
    ADDS_X,
    Step::Builds(b"\xfa\x01\0\0\0\xc0\0\xfd\0\0\x01x"),
    ADDS_X,
];

const MISSING: &str = "Err(Params(Missing(MissingNamedParameterError([97]))))";

/// Sets which name `a` are taken, and one without it is refused and changes nothing.
const SETS: &[Step] = &[
    Step::Adds(Added::Set(b"a", 1), "Ok(None)"),
    Step::Adds(Added::Set(b"b", 7), MISSING),
    Step::Adds(Added::Set(b"a", 2), "Ok(None)"),
    Step::Builds(TYPED_1_2),
];

/// A copy of a builder holds the same rows, and so differs from one that holds none.
#[test]
fn builders(rt: HostRuntime) {
    let a = Asserting(&rt);
    let alloc = rt.alloc();
    for (limit, steps) in &BUILDERS {
        a.holds(*limit >= 4);
        let mut builder = ComStmtBulkExecuteRequestBuilder::new(alloc, 1, *limit);
        assert_steps(&a, alloc, &mut builder, *steps);
        drop(builder);
    }
    let names = [again!(&a, Vec::from_slice(alloc, b"a"))];
    let builder = ComStmtBulkExecuteRequestBuilder::new(alloc, 1, 31);
    let mut builder = builder.with_named_params(Some(&names));
    assert_steps(&a, alloc, &mut builder, SETS);
    drop(builder);
    let mut builder = ComStmtBulkExecuteRequestBuilder::new(alloc, 1, 31).with_results();
    assert_steps(&a, alloc, &mut builder, WITH_RESULTS);
    assert_copied(&a, &builder, builder.clone(alloc), builder.clone(alloc));
    let empty = ComStmtBulkExecuteRequestBuilder::new(alloc, 1, 31).with_results();
    a.holds(builder != empty);
    drop(empty);
    drop(builder);
}

/// Rows, or sets.
#[derive(Clone, Copy)]
enum All {
    Rows(&'static [Cells]),
    Sets(&'static [(&'static [u8], i64)]),
}

/// Sets that give a name a number each.
fn sets(alloc: Global, all: &[(&[u8], i64)]) -> Result<Vec<Params>, AllocError> {
    let mut sets = Vec::new(alloc);
    for (name, number) in all {
        sets.push(named(alloc, *name, *number)?)?;
    }
    Ok(sets)
}

/// The requests of a builder's rows and of these.
fn requests_of<'b, 'n>(
    assert: &impl Assert,
    alloc: Global,
    builder: &'b mut ComStmtBulkExecuteRequestBuilder<'n>,
    all: All,
) -> BulkRequests<'b, 'n> {
    match all {
        All::Rows(cells) => builder.build_iter(again!(assert, rows(alloc, cells))),
        All::Sets(given) => builder.build_params_iter(again!(assert, sets(alloc, given))),
    }
}

/// Appends requests, one behind the other.
fn put(
    requests: BulkRequests<'_, '_>,
    out: &mut Vec<u8>,
) -> Result<(), BulkExecuteRequestBuilderError> {
    for request in requests {
        request?.serialize(out)?;
    }
    Ok(())
}

/// The bytes of the requests at the limit 29.
fn bytes_of(
    assert: &impl Assert,
    alloc: Global,
    all: All,
) -> Result<Vec<u8>, BulkExecuteRequestBuilderError> {
    let names = [again!(assert, Vec::from_slice(alloc, b"a"))];
    let builder = ComStmtBulkExecuteRequestBuilder::new(alloc, 1, 29);
    let mut builder = builder.with_named_params(Some(&names));
    let mut bytes = Vec::new(alloc);
    put(requests_of(assert, alloc, &mut builder, all), &mut bytes)?;
    Ok(bytes)
}

/// Asserts that the first request is an error, which is the last item: whether memory sufficed.
fn is_ended(
    assert: &impl Assert,
    alloc: Global,
    mut requests: BulkRequests<'_, '_>,
    wanted: &str,
) -> bool {
    let text = again!(assert, format!(in alloc; "{requests:?}"));
    assert.holds(text.as_str().starts_with("BulkRequests"));
    let first = requests.next();
    let is_last = requests.next().is_none();
    drop(requests);
    assert.holds(is_last);
    is_shown(assert, alloc, first, wanted)
}

/// Rows or sets, the error that ends their requests, and the request of those before it.
type Cut = (All, &'static str, &'static [u8]);

/// Asserts which error ends the requests at the limit 31, and which one the rows before it make, which
/// stay: whether memory sufficed.
fn is_cut(assert: &impl Assert, alloc: Global, (all, wanted, held): Cut) -> bool {
    let names = [again!(assert, Vec::from_slice(alloc, b"a"))];
    let builder = ComStmtBulkExecuteRequestBuilder::new(alloc, 1, 31);
    let mut builder = builder.with_named_params(Some(&names));
    let requests = requests_of(assert, alloc, &mut builder, all);
    let is_told = is_ended(assert, alloc, requests, wanted);
    let held = Step::Builds(held);
    assert.holds(
        !is_told
            || is_answered(assert, alloc, &mut builder, &held)
            || is_answered(assert, alloc, &mut builder, &held),
    );
    drop(builder);
    is_told
}

const REQUESTS_OF_1_2_3: &[u8] =
    b"\xfa\x01\0\0\0\x80\0\x08\0\0\x01\0\0\0\0\0\0\0\xfa\x01\0\0\0\0\0\0\x02\0\0\0\0\0\0\0\0\x03\0\0\0\0\0\0\0";

/// Rows and the sets of the same ones: two rows fit a request without types alone.
const MANY: [All; 2] = [
    All::Rows(&[ONE, TWO, &[Given::Int(3)]]),
    All::Sets(&[(b"a", 1), (b"a", 2), (b"a", 3)]),
];

/// Rows and sets of which one is refused.
const CUT: [Cut; 2] = [
    (
        All::Rows(&[ONE, TWO, TWO_VALUES]),
        "Some(Err(Request(MixedArity)))",
        TYPED_1_2,
    ),
    (
        All::Sets(&[(b"a", 1), (b"b", 7), (b"a", 3)]),
        "Some(Err(Params(Missing(MissingNamedParameterError([97])))))",
        TYPED_1,
    ),
];

#[test]
fn requests_of_many(rt: HostRuntime) {
    let a = Asserting(&rt);
    let alloc = rt.alloc();
    for all in MANY {
        let bytes = again!(&a, bytes_of(&a, alloc, all));
        assert_bytes(&a, &bytes, REQUESTS_OF_1_2_3);
        drop(bytes);
    }
    for case in CUT {
        let first = is_cut(&a, alloc, case);
        a.holds(first || is_cut(&a, alloc, case));
    }
}
