//! The requests that name a prepared statement and say no more: one ends it, the other resets it.
//!
//!     let request = ComStmtClose::new(stmt_id);
//!     request.serialize(&mut payload)?;

ghost use Rattle.std.specs.Prelude.{◌≡◌, ◌<◌, ◌^◌, ℕ, Some};
ghost use Rattle.mysql_fields.specs.Wire.{TellsPart};
ghost use Rattle.mysql_stmt.specs.CommandLaws.{alone_at-back, alone_at-sized};
ghost use Rattle.mysql_stmt.specs.Commands.{IsId, alone, alone_at, alone_fields_at};

use mysql_buf::ParseBuf;
use mysql_field_constants::ConstU8;
use mysql_fields::{
    LeU32, MyDeserialize, MySerialize, ParseExt, RawInt, Readable, ReadsBack, WireError, in_order,
};
use std::alloc::{AllocError, Global};

/// A request that has the number of its command and a statement's id.
///
/// Its names are [`ComStmtClose`] and [`ComStmtReset`].
///
/// Promise: its bytes are a function of its fields. Any bytes are read exactly as its layout says.
/// What was written is read back, whatever follows (`alone`, `alone_at`).
#[derive(Clone, Copy, Debug, PartialEq, Eq)]
pub struct StatementAlone<const NUMBER: u8> {
    /// The statement's id.
    pub stmt_id: u32,
}

/// Ends a prepared statement. It isn't answered.
///
/// MySQL: Client/Server Protocol, "COM_STMT_CLOSE".
pub type ComStmtClose = StatementAlone<25>;

/// Resets a prepared statement: the long data that was sent for it is dropped, and an open cursor is closed.
///
/// MySQL: Client/Server Protocol, "COM_STMT_RESET".
pub type ComStmtReset = StatementAlone<26>;

impl<const NUMBER: u8> StatementAlone<NUMBER> {
    /// The request for the statement with this id.
    pub fn new(stmt_id: u32) -> StatementAlone<NUMBER>
        ensures { result.stmt_id ≡ stmt_id }
    {
        StatementAlone { stmt_id }
    }
}

#[tactic(auto, unfolding(crate::specs::Commands::alone))]
impl<const NUMBER: u8> MySerialize for StatementAlone<NUMBER> {
    ghost written = { λ p. alone NUMBER p.stmt_id };

    fn serialize(&self, buf: &mut Vec<u8>) -> Result<(), AllocError> {
        let header: ConstU8<(), NUMBER> = ConstU8::new();
        let id: RawInt<LeU32> = RawInt::new(self.stmt_id);
        in_order!(header, id).serialize(buf)
    }
}

impl<const NUMBER: u8> Readable for StatementAlone<NUMBER> {
    type Ctx = ();

    ghost SIZE = { Some 5 };

    ghost Shown = { ℕ };

    ghost shown = { λ p. p.stmt_id };

    ghost kept = { λ p. p.stmt_id };

    ghost read_at = { λ _ bytes. alone_at NUMBER bytes };

    ghost IsReadBack = { λ _ p _. IsId p.stmt_id × (NUMBER < 2 ^ 8) };

    ghost sized = { λ _. alone_at-sized NUMBER };

    fn size() -> Option<usize>
        ensures { result ≡ Some 5 }
    {
        Some(5)
    }
}

impl<const NUMBER: u8> ReadsBack for StatementAlone<NUMBER> {
    ghost reads_back = { λ _ p rest h. alone_at-back NUMBER p.stmt_id rest h.1 h.0 };
}

#[tactic(auto, unfolding(crate::specs::Commands::alone_fields_at))]
fn read_fields<const NUMBER: u8>(
    alloc: Global,
    rest: &mut ParseBuf,
) -> Result<StatementAlone<NUMBER>, WireError>
    ensures { TellsPart (λ p. p.stmt_id) rest.new.0.now result (alone_fields_at NUMBER rest.old.0.now) }
{
    let _header: ConstU8<(), NUMBER> = rest.parse(alloc, ())?;
    let stmt_id = rest.checked_eat_u32_le().ok_or(WireError::UnexpectedEof)?;
    Ok(StatementAlone::new(stmt_id))
}

/// Reads a request. Refused by UnexpectedEof where there are fewer than 5 bytes, then by
/// BadConstant for another first byte.
///
/// MySQL: Client/Server Protocol, "COM_STMT_CLOSE", "COM_STMT_RESET".
#[tactic(auto, unfolding(crate::specs::Commands::alone_at))]
impl<'de, const NUMBER: u8> MyDeserialize<'de> for StatementAlone<NUMBER> {
    // COM_STMT_CLOSE or COM_STMT_RESET:
    //   int<1>  command 19 or 1a
    //   int<4>  statement_id
    fn deserialize(
        alloc: Global,
        _ctx: (),
        buf: &mut ParseBuf<'de>,
    ) -> Result<StatementAlone<NUMBER>, WireError> {
        // the number of the command: 1 byte
        // statement_id: 4 bytes, lowest first
        let mut rest = *buf;
        let request = read_fields(alloc, &mut rest)?;
        *buf = rest;
        Ok(request)
    }
}
