//! What the calls of the library for C are made of: objects behind handles, codes as answers, and
//! bytes that were written.
//!
//! `mysql_c_commands`, `mysql_c_replies` and `mysql_c_connection` use it. A [`Handle`] that C holds
//! is one pointer, to an [`Object`] or to nothing; a call takes its address.
//!
//!     mysql_session_handle h  ──►  Object::Receiver | Reply | Bytes | Sets | Writer | ..
//!
//! An `alloc` takes no bytes, so that C passes nothing for it. A slice is a pointer, which isn't
//! null, and a length. Each answer is the number of a [`Code`], 0 for success.
//!
//!     let code = bytes_new(alloc, &mut handle);
//!     let code = bytes_data(alloc, &mut handle, &mut data, &mut len);
#![tactic(auto)]

mod bytes;
mod code;
mod handle;
mod object;
mod parts;
mod sets;
mod shown;
mod start;
mod text;

pub use bytes::{append, bytes_clear, bytes_data, bytes_new};
pub use code::{Code, number_of_fault, number_of_refusal, number_of_reply_fault};
pub use handle::Handle;
pub use object::{
    FollowedStatement, Object, ParameterSets, ReplyInParts, Unanswered, WrittenReply,
};
pub use parts::Parts;
pub use shown::ShownEnd;
pub use start::start_of;
pub use text::code_text;
