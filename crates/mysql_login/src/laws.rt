//! Laws of what is written and read: that of a change of user, and those of the crates below. The
//! functions change nothing: their contracts are the laws.

ghost use Rattle.mysql_login.specs.ChangedUserStatements.{ChangedUsersReadAgain};

pub use mysql_handshake_response::laws::ssl_requests_read_back;
pub use mysql_replication::{gtid_laws as gtid, laws as replication};

/// A change of user that was read by the capabilities in force is read again by them.
///
/// What [`ComChangeUser::put_in_force`](crate::ComChangeUser::put_in_force) writes of it is read as it.
#[tactic(auto, using(crate::proofs::ChangedUsersAgain::changed_users_read_again))]
pub fn changed_users_read_again()
    ensures { ChangedUsersReadAgain }
{}
