//! An example, from bytes to contents. Each function has no code but the theorems that it rests on: its
//! contract is the theorem.

ghost use Rattle.mysql_connection_contents.specs.ExampleLaws.{BytesAreRead, EventsHaveContents};
ghost use Rattle.mysql_connection_contents.specs.ExampleLaws.{ExampleIsMade, ExampleIsSeen};

use crate::promise_laws::all_see_the_same;
use mysql_connection_rules::laws::run_is_one;

/// The example's bytes are read as its events, packet by packet.
///
/// A statement is prepared and answered. It is executed with long data, in bulk, and without a type.
/// Then a query is asked by text.
///
/// MySQL: Client/Server Protocol, "MySQL Packets" and "Prepared Statements".
pub fn bytes_are_read()
    ensures { BytesAreRead }
{}

/// Its events show the statement's text, and the contents of each execution.
///
/// MySQL: Client/Server Protocol, "COM_STMT_EXECUTE"; MariaDB: "COM_STMT_BULK_EXECUTE".
pub fn events_have_contents()
    ensures { EventsHaveContents }
{}

/// What a client, a server and an auditor see, between which these bytes went.
///
/// That is `all_see_the_same` of them. Their one list is the example's events. Each end put its own of them,
/// and the statement has its text. An auditor to which all bytes came has all of the list.
///
/// MySQL: Client/Server Protocol, "Connection Lifecycle".
pub fn example_is_seen()
    ensures { ExampleIsSeen }
{
    all_see_the_same();
    run_is_one();
}

/// There are calls by which the example's bytes went, so that `all_see_the_same` and `example_is_seen` speak of
/// something.
///
/// The client and the server put packets, and one execution by its values. The auditor is fed byte by byte.
///
/// MySQL: Client/Server Protocol, "Connection Lifecycle".
pub fn example_is_made()
    ensures { ExampleIsMade }
{}
