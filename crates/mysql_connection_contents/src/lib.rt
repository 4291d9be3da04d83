//! What a client, a server and an auditor see of one connection: the same. And what a client says of
//! a prepared statement on it, and what `receive` reads of that: the same contents. No code, but
//! theorems that a user cites of a whole connection.
//!
//! | module | of what |
//! |---|---|
//! | `promise_laws` | a client, a server and an auditor: they see the same |
//! | `laws` | executions and texts of a statement that a connection has read, and what events show of them |
//! | `packet_laws` | packets that a machine puts: which commands their payloads are; a client's record of its calls |
//! | `delivery_laws` | sets that a client puts: what the server's side reads is what was put |
//! | `example_laws` | an example, from bytes to contents: what the promise says of it |
#![tactic(auto)]

pub mod delivery_laws;
pub mod example_laws;
pub mod laws;
pub mod packet_laws;
pub mod promise_laws;
