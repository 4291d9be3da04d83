//! Laws of what is written: a function has no code but the laws that it rests on, and its contract is
//! the law.

ghost use Rattle.mysql_connection_writer.specs.NextRows.{RowsLeadToRows};

use mysql_reply_events::laws::events_lead_on;

/// Behind a row of a reply rows are due, and another one changes nothing of what stands.
///
/// MySQL: Client/Server Protocol, "Text Resultset" and "Binary Protocol Resultset".
pub fn rows_lead_to_rows()
    ensures { RowsLeadToRows }
{
    events_lead_on();
}
