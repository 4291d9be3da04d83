//! The rules of a connection: what each payload says where it comes, and that the two streams have
//! one list of events. No code reads or writes here.
//!
//! `Exchange`, `Side`, `Limits`, `Fault` and `Reason` are the words of these rules. The crates that
//! read, put and print a connection use them, and the library for C. `laws` are of reading. By
//! `agreement_laws` what is put is read as it was put; client, server and auditor agree.
#![tactic(auto)]

pub mod exchange;
pub mod fault;
pub mod laws;
pub mod limits;
pub mod reason;
pub mod side;

pub use exchange::Exchange;
pub use fault::Fault;
pub use limits::Limits;
pub use reason::Reason;
pub use side::Side;

pub mod agreement_laws;
