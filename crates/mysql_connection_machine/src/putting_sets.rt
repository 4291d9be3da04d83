//! Sets of a query that are put, where the server counted as many parameters as the query has
//! placeholders.

ghost use Rattle.std.specs.Prelude.{◌≡◌};
ghost use Rattle.mysql_connection_machine.specs.PuttingSets.{PutsSets, parameters_counted};

use crate::connection::Connection;
use crate::sets_refusal::SetsRefusal;
use mysql_connection_rules::Side;

impl Connection {
    // How many parameters the server counted of the statement that an id refers to.
    fn parameters_counted(&self, id: u32) -> Option<u16>
        ensures { result ≡ parameters_counted self.now id }
    {
        match self.statement(id) {
            Some(statement) => Some(statement.parameters().count()),
            None => None,
        }
    }

    /// Puts packets of a query's sets if the server counted as many parameters as it has placeholders.
    ///
    /// They are for the statement of this id. It takes what `Query::send_more` appends, and what
    /// `Query::send` appends behind its prepare, by execute or in bulk. `places` is
    /// `Query::place_count`. The bytes of an execution don't tell how many values it has. A server
    /// that counted another number runs it with other values than were meant. So sets go by this
    /// call, and not by [`Connection::put_packets`]. The packets are put as that call puts them,
    /// one after another as long as it is the client's turn.
    ///
    ///     let used = connection.put_sets(query.stmt_id(), query.place_count(), packets, &mut output)?;
    ///     socket.write_all(&output)?;
    ///
    /// Promise: packets are put only where the two numbers are the same, and then exactly as
    /// [`Connection::put_packets`] puts them. Else nothing is appended, and the connection is as it
    /// was (`PutsSets`).
    ///
    /// # Errors
    /// The first cause that there is:
    /// - `UnknownStatement`, where the server's answer to the prepare hasn't come, or the statement
    ///   is closed.
    /// - `WrongCount` with the server's number, where it isn't `places`.
    /// - `Packets` with the refusal of [`Connection::put_packets`].
    ///
    /// MySQL: Client/Server Protocol, "COM_STMT_PREPARE Response" (num_params), "COM_STMT_EXECUTE";
    /// MariaDB: Client/Server Protocol, "COM_STMT_BULK_EXECUTE".
    pub fn put_sets(
        &mut self,
        id: u32,
        places: usize,
        packets: &[u8],
        out: &mut Vec<u8>,
    ) -> Result<usize, SetsRefusal>
        ensures { PutsSets self.old id places packets.now out.old.items result self.new
            out.new.items }
    {
        let Some(count) = self.parameters_counted(id) else {
            return Err(SetsRefusal::UnknownStatement);
        };
        if count as usize != places {
            return Err(SetsRefusal::WrongCount(count));
        }
        match self.put_packets(Side::Client, packets, out) {
            Ok(used) => Ok(used),
            Err(refusal) => Err(SetsRefusal::Packets(refusal)),
        }
    }
}
