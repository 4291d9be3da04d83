//! Long data: a piece of a parameter's bytes, sent before the execution that takes it.
//!
//!     let piece = ComStmtSendLongData::new(stmt_id, 0, CowSlice::Borrowed(bytes));
//!     piece.serialize(&mut payload)?;

ghost use Rattle.std.specs.Prelude.{◌≡◌, IfOk};
ghost use Rattle.std.specs.Cow.{cow_slice_items};
ghost use Rattle.mysql_stmt.specs.Commands.{long_data};
ghost use Rattle.mysql_stmt.specs.Views.{long_data_view};

use crate::headers::ComStmtSendLongDataHeader;
use mysql_fields::{LeU16, LeU32, MySerialize, RawInt, copy_bytes, in_order, own_bytes};
use std::alloc::{AllocError, Global};
use std::borrow::CowSlice;

/// A piece of a parameter of a prepared statement, sent before the statement is executed. Pieces
/// for one place are joined.
///
/// Promise: its bytes are a function of its fields, and are appended whole or not at all
/// (`long_data`).
///
/// MySQL: Client/Server Protocol, "COM_STMT_SEND_LONG_DATA".
#[derive(Debug, PartialEq, Eq, Drop)]
pub struct ComStmtSendLongData<'a> {
    stmt_id: u32,
    param_index: u16,
    bytes: CowSlice<'a, u8>,
}

impl<'a> ComStmtSendLongData<'a> {
    /// These bytes for the parameter at this place, counted from 0, of the statement with this id.
    pub fn new(stmt_id: u32, param_index: u16, bytes: CowSlice<'a, u8>) -> ComStmtSendLongData<'a>
        ensures { long_data_view result ≡
            record { stmt_id = stmt_id; place = param_index; bytes = cow_slice_items bytes.entry } }
    {
        ComStmtSendLongData {
            stmt_id,
            param_index,
            bytes,
        }
    }

    /// The piece in bytes of its own: it borrows nothing.
    ///
    /// # Errors
    /// - `AllocError` for want of memory.
    pub fn into_owned(self, alloc: Global) -> Result<ComStmtSendLongData<'static>, AllocError>
        ensures { IfOk result (λ same. long_data_view same ≡ long_data_view self.entry) }
    {
        let ComStmtSendLongData {
            stmt_id,
            param_index,
            bytes,
        } = self;
        let bytes = own_bytes(alloc, bytes)?;
        Ok(ComStmtSendLongData {
            stmt_id,
            param_index,
            bytes,
        })
    }

    /// A copy, which borrows nothing.
    ///
    /// # Errors
    /// - `AllocError` for want of memory.
    pub fn clone(&self, alloc: Global) -> Result<ComStmtSendLongData<'static>, AllocError>
        ensures { IfOk result (λ copy. long_data_view copy ≡ long_data_view self.now) }
    {
        let bytes = copy_bytes(alloc, self.bytes.as_slice())?;
        Ok(ComStmtSendLongData {
            stmt_id: self.stmt_id,
            param_index: self.param_index,
            bytes,
        })
    }
}

// Bytes that are written as they are, to the end.
#[derive(Clone, Copy)]
struct LastBytes<'a>(&'a [u8]);

impl<'a> MySerialize for LastBytes<'a> {
    ghost written = { λ bytes. bytes.0.now };

    fn serialize(&self, buf: &mut Vec<u8>) -> Result<(), AllocError> {
        buf.extend_from_slice(self.0)
    }
}

#[tactic(auto, unfolding(crate::specs::Commands::long_data))]
impl<'a> MySerialize for ComStmtSendLongData<'a> {
    ghost written = { λ p. long_data (long_data_view p) };

    fn serialize(&self, buf: &mut Vec<u8>) -> Result<(), AllocError> {
        let id: RawInt<LeU32> = RawInt::new(self.stmt_id);
        let place: RawInt<LeU16> = RawInt::new(self.param_index);
        let bytes = LastBytes(self.bytes.as_slice());
        in_order!(ComStmtSendLongDataHeader::new(), id, place, bytes).serialize(buf)
    }
}
