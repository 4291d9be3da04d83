//! Digests of statements, as the manual's page shows them and as its rules say.

use crate::support::Asserting;
use mysql_digests::{Mode, digest};
use tests_support::{assert_bytes, once_more};

const DEFAULT: Mode = Mode {
    no_backslash_escapes: false,
    ansi_quotes: false,
};

const ANSI_QUOTES: Mode = Mode {
    no_backslash_escapes: false,
    ansi_quotes: true,
};

const NO_BACKSLASH_ESCAPES: Mode = Mode {
    no_backslash_escapes: true,
    ansi_quotes: false,
};

/// A mode, a statement, and its digest.
type Row = (Mode, &'static [u8], &'static [u8]);

const DIGESTS: [Row; 51] = [
    (DEFAULT, b"", b""),
    (DEFAULT, b" \t\r\n", b""),
    // The manual's own examples, with words in lower case and names without backticks.
    (
        DEFAULT,
        b"SELECT * FROM orders WHERE customer_id=10 AND quantity>20",
        b"select * from orders where customer_id = ? and quantity > ?",
    ),
    (
        DEFAULT,
        b"SELECT * FROM orders WHERE customer_id = 20 AND quantity > 100",
        b"select * from orders where customer_id = ? and quantity > ?",
    ),
    (
        DEFAULT,
        b"SELECT * FROM mytable WHERE cola = 10 AND colb = 20",
        b"select * from mytable where cola = ? and colb = ?",
    ),
    // Lists and rows.
    (
        DEFAULT,
        b"SELECT a FROM t WHERE id IN (1, 2, 3)",
        b"select a from t where id in (...)",
    ),
    (
        DEFAULT,
        b"select A from T where ID in(4,5)",
        b"select a from t where id in (...)",
    ),
    (
        DEFAULT,
        b"SELECT a FROM t WHERE id IN (1)",
        b"select a from t where id in (?)",
    ),
    (
        DEFAULT,
        b"INSERT INTO t (a, b) VALUES (1,'x'),(-2,NULL),(?,:n)",
        b"insert into t ( a , b ) values (...) /* , ... */",
    ),
    (
        DEFAULT,
        b"INSERT INTO t VALUES (1), (2)",
        b"insert into t values (?) /* , ... */",
    ),
    (
        DEFAULT,
        b"INSERT INTO t VALUES (1e-7,X'41',b'1',N'a',_binary 0x41),(-2.5E-10,NULL,0b1,'a','')",
        b"insert into t values (...) /* , ... */",
    ),
    (DEFAULT, b"((1,2),(3,4))", b"( (...) /* , ... */ )"),
    (DEFAULT, b"LIMIT 5, 10", b"limit ?, ..."),
    (
        DEFAULT,
        b"f(1, g(2, 3), (4))",
        b"f ( ? , g (...) /* , ... */ )",
    ),
    (DEFAULT, b"(1, a)", b"( ? , a )"),
    // Signs.
    (DEFAULT, b"a-5", b"a - ?"),
    (DEFAULT, b"a - 5", b"a - ?"),
    (DEFAULT, b"a = -5", b"a = ?"),
    (DEFAULT, b"a - -5", b"a - ?"),
    (DEFAULT, b"a -5", b"a ?"),
    (DEFAULT, b"+5", b"+ ?"),
    // Exponents, and words that are none.
    (
        DEFAULT,
        b"1e-5 1.5E-5 -1e-5 1e5 .5e-1 1e-5-1",
        b"? ? ? ? ? ? - ?",
    ),
    (DEFAULT, b"1e+5 1e -5 1e- 5", b"? + ? ? ? ? - ?"),
    (
        DEFAULT,
        b"0x1e-5 e-5 1e-a 1ee-5",
        b"? - ? e - ? ? - a ? - ?",
    ),
    // Words and numbers.
    (DEFAULT, b"1.5 .5 0x1F 0b01 1e3", b"? ? ? ? ?"),
    (
        DEFAULT,
        b"t.c a1 @v @@s.x $y T.C",
        b"t.c a1 @v @@s.x $y t.c",
    ),
    (DEFAULT, b"null True FALSE nulls", b"? ? ? nulls"),
    // Strings and quoted identifiers.
    (DEFAULT, b"'it''s' 'a\\'b' \"c\"", b"? ? ?"),
    (DEFAULT, b"`a B`.`c?`", b"`a B` . `c?`"),
    (DEFAULT, b"'open", b"?"),
    (DEFAULT, b"x'41' B\"1\" n'a' _latin1'b'", b"? ? ? _latin1 ?"),
    (DEFAULT, b"x '41' ax'41' x`41`", b"x ? ax ? x `41`"),
    (DEFAULT, b"_utf8mb4 0x41, _BINARY'x'", b"?, ..."),
    (
        DEFAULT,
        b"ALTER USER 'u'@'h' IDENTIFIED BY 'secret'",
        b"alter user ? @ ? identified by ?",
    ),
    // Comments, blanks and operators.
    (DEFAULT, b"a/* b */c -- d\n# e\nf", b"a c f"),
    (
        DEFAULT,
        b"SELECT /*+ MAX_EXECUTION_TIME(1) */ a /*!40001 SQL_NO_CACHE */",
        b"select a",
    ),
    // Where servers disagree a mark stands for the rest.
    (DEFAULT, b"/*! A */", b"/* ... */"),
    (
        DEFAULT,
        b"SELECT 1 /*!99999 '*/' */ , 2",
        b"select ? /* ... */",
    ),
    (DEFAULT, b"a /*M! 'b' */ c", b"a /* ... */"),
    (DEFAULT, b"a = $$it's$$ , 'b'", b"a = /* ... */"),
    (DEFAULT, b"a.$b$c$b$", b"a. /* ... */"),
    (DEFAULT, b"a$$ $1 b$c$d", b"a$$ $1 b$c$d"),
    (DEFAULT, b"f(1, [a'b])", b"f ( ? , /* ... */"),
    (DEFAULT, b"'[' `$$` -- [\n a", b"? `$$` a"),
    (
        DEFAULT,
        b"a>=1 <=> !b&&c||d:=e",
        b"a >= ? <=> ! b && c || d : = e",
    ),
    (DEFAULT, b"SEL\xc3\x89 \xff", b"sel\xc3\x89 \xff"),
    (DEFAULT, b"SELECT ?; SELECT :a", b"select ? ; select ?"),
    // Modes.
    (ANSI_QUOTES, b"\"A\" 'b' x\"c\"", b"\"A\" ? x \"c\""),
    (NO_BACKSLASH_ESCAPES, b"'\\' a", b"? a"),
    (DEFAULT, b"'\\' a", b"?"),
    (NO_BACKSLASH_ESCAPES, b"\"\\\" a", b"? a"),
];

#[test]
fn digests(rt: HostRuntime) {
    let assert = Asserting(&rt);
    let alloc = rt.alloc();
    for (mode, text, wanted) in DIGESTS {
        let found = once_more(
            &assert,
            digest(alloc, mode, text),
            digest(alloc, mode, text),
        );
        assert_bytes(&assert, found.as_slice(), wanted);
        drop(found);
    }
}
