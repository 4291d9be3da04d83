//! Tests of the lower layers from outside, as far as no row of data says it. They try constants,
//! numbers and texts in buffers and streams, and representations of fields. So they do the calls by
//! which packets are cut and made. What packets a stream has stands in
//! bindings/testing/rows/values/packets.txt, and numbers and texts that packets have in the rows of
//! these: bindings/testing/rows/packets.
//!
//! At most one allocation of a run is refused. So a call that answers that memory was refused is
//! looked at for what has to stand then. It is made once more, and then has to answer.
//!
//! There are few functions, and their tests go over tables.
#![tactic(auto)]

#[cfg(test)]
mod bits;
#[cfg(test)]
mod constants;
#[cfg(test)]
mod fields;
#[cfg(test)]
mod io_streams;
#[cfg(test)]
mod lists;
#[cfg(test)]
mod numbers;
#[cfg(test)]
mod packets;
#[cfg(test)]
mod parts;
#[cfg(test)]
mod support;
#[cfg(test)]
mod texts;
#[cfg(test)]
mod widths;
