//! Placeholders of a query, the query as it is parsed, and the values that a set gives it.

use crate::support::{Asserting, Given, Set, assert_value, byte_string, made_set};
use mysql_values::bind::ParsedQuery;
use mysql_values::{
    MissingNamedParameterError, MixedParamsError, NamedParamsError, ParamsError, ParsedNamedParams,
    Place, places,
};
use std::alloc::{AllocError, Global};
use std::borrow::CowSlice;
use tests_support::{Assert, assert_answer, assert_bytes, given_values, once_more};

/// Start, end, whether a name, whether it is alone.
type Expected = (usize, usize, bool, bool);

/// A query, the same with question marks in the places of its names, and its places. Then come
/// whether they are of both kinds, and the first that isn't alone.
type Row = (
    &'static [u8],
    &'static [u8],
    &'static [Expected],
    bool,
    Option<usize>,
);

const QUERIES: [Row; 26] = [
    (b"'a':b", b"'a'?", &[(3, 5, true, false)], false, Some(0)),
    (b"::a", b":?", &[(1, 3, true, false)], false, Some(0)),
    (
        b"SELECT 1-:a",
        b"SELECT 1-?",
        &[(9, 11, true, false)],
        false,
        Some(0),
    ),
    (
        b":a :b",
        b"? ?",
        &[(0, 2, true, true), (3, 5, true, true)],
        false,
        None,
    ),
    (
        b"(?,?)",
        b"(?,?)",
        &[(1, 2, false, true), (3, 4, false, true)],
        false,
        None,
    ),
    (
        b"??",
        b"??",
        &[(0, 1, false, false), (1, 2, false, false)],
        false,
        Some(0),
    ),
    (b":a-1", b"?-1", &[(0, 2, true, true)], false, None),
    (b":aB", b"?B", &[(0, 2, true, false)], false, Some(0)),
    (b"`my:table`", b"`my:table`", &[], false, None),
    (b"`\\` :a", b"`\\` ?", &[(4, 6, true, true)], false, None),
    (
        b"'it''s :a \\' ?' :b",
        b"'it''s :a \\' ?' ?",
        &[(16, 18, true, false)],
        false,
        Some(0),
    ),
    (b"# :a\n:b", b"# :a\n?", &[(5, 7, true, true)], false, None),
    (b"-- ?\n?", b"-- ?\n?", &[(5, 6, false, true)], false, None),
    (
        b"--? ?",
        b"--? ?",
        &[(2, 3, false, false), (4, 5, false, true)],
        false,
        Some(0),
    ),
    (
        b"/* ? */ ?",
        b"/* ? */ ?",
        &[(8, 9, false, true)],
        false,
        None,
    ),
    (
        b"/*/ ? */ ?",
        b"/*/ ? */ ?",
        &[(9, 10, false, true)],
        false,
        None,
    ),
    (
        b"/*! ? */ ?",
        b"/*! ? */ ?",
        &[(4, 5, false, true), (9, 10, false, true)],
        false,
        None,
    ),
    (b"'not closed :a", b"'not closed :a", &[], false, None),
    (b"a : b :C", b"a : b :C", &[], false, None),
    (
        b"SELECT :a, :a",
        b"SELECT ?, ?",
        &[(7, 9, true, true), (11, 13, true, true)],
        false,
        None,
    ),
    (
        b"? ?",
        b"? ?",
        &[(0, 1, false, true), (2, 3, false, true)],
        false,
        None,
    ),
    (
        b":a :b-",
        b"? ?-",
        &[(0, 2, true, true), (3, 5, true, true)],
        false,
        None,
    ),
    (
        b"(?,??)",
        b"(?,??)",
        &[
            (1, 2, false, true),
            (3, 4, false, false),
            (4, 5, false, false),
        ],
        false,
        Some(1),
    ),
    (
        b"? :a",
        b"? ?",
        &[(0, 1, false, true), (2, 4, true, true)],
        true,
        None,
    ),
    (
        b":a ?",
        b"? ?",
        &[(0, 2, true, true), (3, 4, false, true)],
        true,
        None,
    ),
    (b"SELECT 1", b"SELECT 1", &[], false, None),
];

/// A query, and of each placeholder whether it is alone.
const ALONE: [(&[u8], &[bool]); 37] = [
    // Hints are comments, and so is a simple version comment.
    (b"/*+ ? */ ?", &[true]),
    (b"SELECT /*+ SET_VAR(time_zone = ?) */ 1", &[]),
    (b"SELECT /*+ user's */ ?", &[true]),
    (
        b"SELECT /*+ MAX_EXECUTION_TIME(1000) */* FROM t WHERE id = ?",
        &[true],
    ),
    (
        b"SELECT /*!40001 SQL_NO_CACHE */ * FROM t WHERE id > ?",
        &[true],
    ),
    (b"/* ! */ ?", &[true]),
    (b"# /*!\n?", &[true]),
    (b"SELECT */* it's */ FROM t WHERE id = ?", &[true]),
    // A comment without a version is run by every server.
    (b"/*! ? */ ?", &[true, true]),
    (b"SELECT /*! :a */", &[true]),
    (b"? /*!? */ /*+ :a */ ?", &[true, false, true]),
    (b"SELECT /*!?", &[false]),
    // Others are read otherwise by some.
    (b"SELECT 1 /*!80000 + ? */", &[false]),
    (b"/*! /* x */ ? */ ?", &[false, false]),
    (b"/*! /*! */ ? */ ?", &[false, false]),
    (b"/*! /*! */ */ ?", &[false]),
    (b"/*! '*/' ?", &[false]),
    (b"/*! '/*' */ ?", &[false]),
    (b"/*! */*! ? */ ?", &[false, false]),
    (b"SELECT 2 /*! */*'3', '*/ ? '", &[false]),
    (b"SELECT 2 /*! * ? */, ?", &[false, false]),
    (b"SELECT 2 /*! ? */* ?", &[false]),
    (b"SELECT 1 /*!99999 /*! */ , ?", &[false]),
    (b"SELECT /*!99999 'a' */ ?", &[false]),
    (b"SELECT ?, 1 /*!99999 'a' */", &[false]),
    // So are these.
    (b"/*M! */ ?", &[false]),
    (b"SELECT /*M! 1, */ ?", &[false]),
    (b"SELECT a[1], ?", &[false]),
    (b"SELECT 1 AS $$, ?", &[false]),
    (b"SELECT $a$ ? $a$", &[false]),
    (b"SELECT a$$b$$, ?", &[true]),
    (b"SELECT $1, ?", &[true]),
    // A string next to one is one with it.
    (b"'/*!' ?", &[false]),
    (b"SELECT ? 'al'", &[false]),
    (b"SELECT 'al' /* c */ ?", &[false]),
    (b"SELECT ? /*!50000 */ 'al'", &[false]),
    (b"SELECT ? `al`, `b` ?", &[true, true]),
];

fn assert_places(assert: &impl Assert, found: &[Place], wanted: &[Expected]) {
    assert.holds(found.len() == wanted.len());
    for (place, expected) in found.iter().zip(wanted.iter()) {
        assert.holds((place.start, place.end, place.name, place.alone) == *expected);
    }
}

/// Asserts that the names of a query are `b` and `a`.
fn assert_names(assert: &impl Assert, names: &[CowSlice<'_, u8>]) {
    match names {
        [one, other] => {
            assert_bytes(assert, one.as_slice(), b"b");
            assert_bytes(assert, other.as_slice(), b"a");
        }
        _ => assert.holds(false),
    }
}

/// A query is parsed by itself, and with question marks where its placeholders are names. Copies say the same.
#[test]
fn parsed_queries(rt: HostRuntime) {
    let assert = Asserting(&rt);
    let alloc = rt.alloc();
    let (first, second) = (
        ParsedQuery::new(alloc, b":b, :a"),
        ParsedQuery::new(alloc, b":b, :a"),
    );
    let found = once_more(&assert, first, second);
    let copy = once_more(&assert, found.clone(alloc), found.clone(alloc));
    drop(found);
    assert_bytes(&assert, copy.text(), b":b, :a");
    assert_names(&assert, copy.names());
    assert_places(
        &assert,
        copy.places(),
        &[(0, 2, true, true), (4, 6, true, true)],
    );
    drop(copy);
    let first = ParsedNamedParams::parse(alloc, b":b, :a");
    let found = once_more(&assert, first, ParsedNamedParams::parse(alloc, b":b, :a"));
    let copy = once_more(&assert, found.clone(alloc), found.clone(alloc));
    drop(found);
    assert_bytes(&assert, copy.query(), b"?, ?");
    assert_names(&assert, copy.params());
    drop(copy);
}

#[test]
fn alone(rt: HostRuntime) {
    let assert = Asserting(&rt);
    let alloc = rt.alloc();
    for (query, wanted) in ALONE {
        let list = once_more(&assert, places(alloc, query), places(alloc, query));
        assert.holds(list.len() == wanted.len());
        for (place, stands_alone) in list.iter().zip(wanted.iter()) {
            assert.holds(place.alone == *stands_alone);
        }
        drop(list);
    }
}

#[test]
fn queries(rt: HostRuntime) {
    let assert = Asserting(&rt);
    let alloc = rt.alloc();
    for (query, marked, wanted, is_mixed, not_alone) in QUERIES {
        let list = once_more(&assert, places(alloc, query), places(alloc, query));
        assert_places(&assert, list.as_slice(), wanted);
        drop(list);
        let first = ParsedQuery::new(alloc, query);
        let found = once_more(&assert, first, ParsedQuery::new(alloc, query));
        assert.holds((found.is_mixed() == is_mixed) & (found.first_not_alone() == not_alone));
        let marks = once_more(&assert, found.with_marks(alloc), found.with_marks(alloc));
        assert_bytes(&assert, marks.as_slice(), marked);
        drop(marks);
        drop(found);
    }
    assert_answer(
        &assert,
        ParsedNamedParams::parse(alloc, b":a ?").err(),
        ParsedNamedParams::parse(alloc, b":a ?").err(),
        Some(NamedParamsError::Memory),
        Some(NamedParamsError::Mixed(MixedParamsError)),
    );
}

/// The names of a query.
fn copied_names(alloc: Global) -> Result<Vec<Vec<u8>>, AllocError> {
    let mut made = Vec::new(alloc);
    let names: [&[u8]; 3] = [b"a", b"b", b"a"];
    for name in names {
        made.push(Vec::from_slice(alloc, name)?)?;
    }
    Ok(made)
}

const SET: Set = Set::Named(&[("b", 6), ("a", 5)]);

/// What the set gives these names.
const GIVEN: &[Given] = &[Given::Int(5), Given::Int(6), Given::Int(5)];

/// A name without a value; what else a set doesn't give stands in the data of `conformance`, sendings.txt.
#[test]
fn values_given(rt: HostRuntime) {
    let assert = Asserting(&rt);
    let alloc = rt.alloc();
    let names = once_more(&assert, copied_names(alloc), copied_names(alloc));
    let (one, other) = (made_set(&assert, alloc, SET), made_set(&assert, alloc, SET));
    let first = one.into_values(alloc, Some(names.as_slice()));
    let second = other.into_values(alloc, Some(names.as_slice()));
    let wanted = once_more(
        &assert,
        given_values(alloc, GIVEN),
        given_values(alloc, GIVEN),
    );
    assert_answer(&assert, first, second, Err(ParamsError::Memory), Ok(wanted));
    let (one, other) = (made_set(&assert, alloc, SET), made_set(&assert, alloc, SET));
    let first = one.into_positional(alloc, names.as_slice());
    let second = other.into_positional(alloc, names.as_slice());
    let wanted = made_set(&assert, alloc, Set::List(GIVEN));
    assert_answer(&assert, first, second, Err(ParamsError::Memory), Ok(wanted));
    let set = Set::Named(&[("a", 5)]);
    let (one, other) = (made_set(&assert, alloc, set), made_set(&assert, alloc, set));
    let first = one.into_positional(alloc, names.as_slice());
    let second = other.into_positional(alloc, names.as_slice());
    drop(names);
    let missing = MissingNamedParameterError(byte_string(&assert, alloc, b"b"));
    let wanted = Err(ParamsError::Missing(missing));
    assert_answer(&assert, first, second, Err(ParamsError::Memory), wanted);
}

#[test]
fn values_lent(rt: HostRuntime) {
    let assert = Asserting(&rt);
    let alloc = rt.alloc();
    let first = ParsedNamedParams::parse(alloc, b":a, :b, :a");
    let query = once_more(
        &assert,
        first,
        ParsedNamedParams::parse(alloc, b":a, :b, :a"),
    );
    let set = made_set(&assert, alloc, SET);
    let (first, second) = (set.values_for(alloc, &query), set.values_for(alloc, &query));
    let values = once_more(&assert, first, second);
    assert.holds(values.len() == 3);
    for (value, given) in values.iter().zip(GIVEN.iter()) {
        assert_value(&assert, alloc, *value, *given);
    }
    drop(values);
    drop(set);
    drop(query);
}
