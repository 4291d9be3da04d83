//! Words that the crates of tests share, and, in `rows`, the fields of rows of data.
//!
//! A library must not end the process, and so what a test finds is handed to an `Assert`. Each
//! crate of tests has one, in which `holds` asserts.
//!
//! At most one allocation of a run is refused. So a call that answers that memory was refused is
//! made once more, and then has to answer.
#![tactic(auto)]

mod assert;
mod fields;
mod given;
pub mod rows;

pub use crate::assert::{
    Assert, assert_answer, assert_bytes, assert_equal, assert_same, once_more,
};
pub use crate::fields::{
    assert_copied, assert_cut_off, assert_made, assert_reads_back, assert_refused, assert_written,
    first_of, whole, written,
};
pub use crate::given::{Given, given_value, given_values};

/// What a call gives, or the same call made once more where memory was refused.
#[macro_export]
macro_rules! again {
    ($assert:expr, $call:expr) => {
        $crate::once_more($assert, $call, $call)
    };
}
