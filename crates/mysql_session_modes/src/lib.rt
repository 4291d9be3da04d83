//! What is known of a session's SQL mode and character set, behind texts and OK packets.
//!
//! A connection keeps it. A user names its items by `mysql_session` or `mysql_connection`.
//!
//! | behind | what is known |
//! |---|---|
//! | a login, a change of user, a reset | nothing: ask by [`ASK_SESSION_MODE`] |
//! | a text of one statement that changes neither | what was |
//! | an OK packet that tells one of them | that one |
//!
//!     let mut session = SessionMode::unknown();
//!     session = session.behind_text(ASK_SESSION_MODE);   // of each text, before its reply
//!     session = session.behind_ok(&reply);               // of each OK packet of the reply
#![tactic(auto)]

pub mod session_mode;
mod texts;
mod told;
mod words;

pub use mysql_bytes::Mode;
pub use session_mode::{ASK_SESSION_MODE, SessionMode};
