//! Laws of the table of replies. Each function has an empty body: its contract is the law.

ghost use Rattle.mysql_reply_events.specs.Behind.{EventsLeadOn};

/// What a payload leads to is what its event leads to, whatever payload of this event it is.
///
/// So who has put an event is behind it, without reading it.
///
/// MySQL: Client/Server Protocol, "COM_QUERY Response" and "COM_STMT_PREPARE Response".
pub fn events_lead_on()
    ensures { EventsLeadOn }
{}
