//! Laws of the packets. Functions without a result do nothing: their contracts are the laws.

ghost use Rattle.mysql_replication.specs.Statements.{AcknowledgementsReadBack, BinlogDumpsReadBack, GtidDumpsReadBack};
ghost use Rattle.mysql_replication.specs.Statements.{RegistrationsReadBack, TableDumpsReadBack};

/// A request for a table that was written is read again, whatever follows it.
///
/// Its names have to have at most 255 bytes.
#[tactic(auto, using(crate::proofs::Back::table_dumps_read_back))]
pub fn table_dumps_read_back()
    ensures { TableDumpsReadBack }
{}

/// What a replica wrote of itself is read again, whatever follows it, where its names have at most 255 bytes.
#[tactic(auto, using(crate::proofs::Back::registrations_read_back))]
pub fn registrations_read_back()
    ensures { RegistrationsReadBack }
{}

/// A request by transactions that was written is read again, whatever follows it.
///
/// Its name and its block have to have less than 2^32 bytes, and its flags to have names.
#[tactic(auto, using(crate::proofs::Back::gtid_dumps_read_back))]
pub fn gtid_dumps_read_back()
    ensures { GtidDumpsReadBack }
{}

/// A request from a place that was written is read again where nothing follows it and its flags have names.
#[tactic(auto, using(crate::proofs::Back::binlog_dumps_read_back))]
pub fn binlog_dumps_read_back()
    ensures { BinlogDumpsReadBack }
{}

/// An acknowledgement that was written is read again where nothing follows it.
#[tactic(auto, using(crate::proofs::Back::acknowledgements_read_back))]
pub fn acknowledgements_read_back()
    ensures { AcknowledgementsReadBack }
{}
