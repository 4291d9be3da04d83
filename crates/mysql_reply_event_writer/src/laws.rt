//! What holds of events that were read. The functions change nothing: their contracts are the laws.

ghost use Rattle.mysql_reply_event_writer.specs.Laws.{ReadEventsArePut};

use mysql_rows::laws::{
    binary_rows_read_back, read_binary_rows_are_written, read_text_rows_are_written,
    text_rows_begin, text_rows_read_back,
};

/// An event that was read may be put where it was read, and leads to the same again.
///
/// What [`put_event`](crate::put_event) appends of it there is read as it, though the payload that
/// it was read of had another form. This isn't so of a binary row with a negative time that is all
/// zero. Its shortest form has no sign, and the row is refused.
///
/// MySQL: Client/Server Protocol, "COM_QUERY Response" and "Binary Protocol Value".
pub fn read_events_are_put()
    ensures { ReadEventsArePut }
{
    text_rows_read_back();
    read_text_rows_are_written();
    text_rows_begin();
    binary_rows_read_back();
    read_binary_rows_are_written();
}
