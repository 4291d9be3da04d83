//! What is due, and what is held for it.

use mysql_bytes::ByteString;
use mysql_connection_rules::{Exchange, Reason};
use mysql_connection_statements::Pending;
use mysql_reply_events::EventReader;

/// What a reply is about.
#[derive(Drop)]
pub enum About {
    /// No statement.
    Nothing,
    /// A statement that is being prepared: its text, and what is kept of the command.
    Preparing { text: ByteString, size: usize },
    /// The statement of this id.
    OfStatement(u32),
    /// An execution of which no payload of the reply came.
    Executing(Pending),
    /// The session begins anew.
    Resetting,
    /// Behind one payload that is no error the connection goes on in a form of its own.
    Streaming(Reason),
}

/// A reply that isn't whole.
pub struct InReply {
    pub reader: EventReader,
    pub about: About,
    // What the columns of the result before this one take, those of this one, and how many
    // parameters are still to come, which aren't kept.
    pub earlier: usize,
    pub coming: usize,
    pub parameters: u16,
}

// Written out, so that who owns a reply lets it go in one step.
impl Drop for InReply {
    fn drop(self) {
        let InReply {
            reader: _reader,
            about: _about,
            earlier: _,
            coming: _,
            parameters: _,
        } = self;
    }
}

/// What is due.
#[derive(Drop)]
pub enum Due {
    /// The server's first payload.
    Greeting,
    /// The client's answer to it.
    Response,
    /// A payload of the server's by which a user is logged in or changed.
    Authentication(Exchange),
    /// The client's answer to such a one.
    Answer(Exchange),
    /// A command.
    Command,
    /// A payload of a reply, or of a file that it asks for.
    Reply(InReply),
    /// Nothing.
    Over(Reason),
}
