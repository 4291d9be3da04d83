//! Tests of `mysql_values`, `mysql_digests`, `mysql_convert` and `mysql_from_row` from outside, as
//! far as no row of data says it. They try traits of conversions, and calls that neither a stream
//! nor the library for C shows. Literals, texts, cells, modes, and sets of values in order stand in
//! bindings/testing/rows, sets of values by names in the data of `conformance`.
//!
//! At most one allocation of a run is refused. So a call that answers that memory was refused is
//! made once more, and then has to answer.
#![tactic(auto)]

#[cfg(test)]
mod cells;
#[cfg(test)]
mod conversions;
#[cfg(test)]
mod digests;
#[cfg(test)]
mod literals;
#[cfg(test)]
mod parameter_sets;
#[cfg(test)]
mod queries;
#[cfg(test)]
mod rows;
#[cfg(test)]
mod support;
#[cfg(test)]
mod values;
