//! Logging in, payload by payload: what a server says and what a client says, each in its phase.
//!
//! `mysql_connection_state` and `mysql_connection_writer` call it, and a user by
//! `mysql_connection`. It reads and writes by the capabilities in force.
//!
//! | phase | whose turn | read by | put by |
//! |---|---|---|---|
//! | greeting | server | [`read_greeting`] | [`put_greeting`] |
//! | response, or a request for TLS | client | [`read_response`] | [`put_response`] |
//! | the exchange, to OK or an error | server | [`read_authentication`] | [`put_authentication`] |
//!
//!     let said = read_response(alloc, greeting.capabilities(), payload)?;
//!     let both = capabilities_in_force(&greeting, login.request());
//!     let event = read_authentication(alloc, both.protocol, payload)?;
#![tactic(auto)]

mod authentication;
mod causes;
mod events;
mod fault;
mod greeting;
pub mod laws;
mod put;
mod refusal;
mod response;

pub use crate::authentication::read_authentication;
pub use crate::events::{AuthenticationEvent, GreetingEvent, LoginResponse, ResponseEvent};
pub use crate::fault::LoginFault;
pub use crate::greeting::{early_error_of, read_greeting};
pub use crate::put::{put_authentication, put_greeting, put_response};
pub use crate::refusal::LoginRefusal;
pub use crate::response::{capabilities_in_force, read_response};
