//! Statement packets: the first packet of the answer to a prepare.
//!
//!     let packet: StmtPacket = ParseBuf(payload).parse(alloc, ())?;
//!     let id = packet.statement_id();

ghost use Rattle.std.specs.Prelude.{◌≡◌, Some};
ghost use Rattle.mysql_fields.specs.Wire.{TellsPart};
ghost use Rattle.mysql_server_packets.specs.PacketLaws.{prepare_ok_at-back, prepare_ok_at-sized};
ghost use Rattle.mysql_server_packets.specs.Packets.{IsPrepareOk, PrepareOk, prepare_ok, prepare_ok_at};
ghost use Rattle.mysql_server_packets.specs.Packets.{prepare_ok_fields_at};
ghost use Rattle.mysql_server_packets.specs.Views.{prepare_ok_view};

use crate::headers::StmtPacketStatus;
use mysql_buf::ParseBuf;
use mysql_field_constants::Skip;
use mysql_fields::{
    LeU16, LeU32, MyDeserialize, MySerialize, ParseExt, RawInt, Readable, ReadsBack, WireError,
    in_order,
};
use std::alloc::{AllocError, Global};

/// A prepared statement: the first packet of the answer to COM_STMT_PREPARE.
///
/// Promise: its bytes are a function of its fields. Any bytes are read exactly as its layout says,
/// with the first refusal from the left (`prepare_ok`, `prepare_ok_at`).
///
/// MySQL: Client/Server Protocol, "COM_STMT_PREPARE Response".
#[derive(Clone, Copy, Debug, PartialEq, Eq, Hash)]
pub struct StmtPacket {
    statement_id: u32,
    num_columns: u16,
    num_params: u16,
    warning_count: u16,
}

impl StmtPacket {
    /// A statement of this id, with so many columns, parameters and warnings.
    pub fn new(
        statement_id: u32,
        num_columns: u16,
        num_params: u16,
        warning_count: u16,
    ) -> StmtPacket
        ensures { prepare_ok_view result ≡
            record {
              statement_id = statement_id;
              num_columns = num_columns;
              num_params =
                  num_params;
              warning_count = warning_count;
            } }
    {
        StmtPacket {
            statement_id,
            num_columns,
            num_params,
            warning_count,
        }
    }

    /// The statement's id.
    pub fn statement_id(&self) -> u32
        ensures { result ≡ (prepare_ok_view self.now).statement_id }
    {
        self.statement_id
    }

    /// How many columns its rows have.
    pub fn num_columns(&self) -> u16
        ensures { result ≡ (prepare_ok_view self.now).num_columns }
    {
        self.num_columns
    }

    /// How many parameters it takes.
    pub fn num_params(&self) -> u16
        ensures { result ≡ (prepare_ok_view self.now).num_params }
    {
        self.num_params
    }

    /// How many warnings there are.
    pub fn warning_count(&self) -> u16
        ensures { result ≡ (prepare_ok_view self.now).warning_count }
    {
        self.warning_count
    }
}

#[tactic(auto, unfolding(crate::specs::Packets::prepare_ok_fields_at))]
fn statement_fields(alloc: Global, buf: &mut ParseBuf) -> Result<StmtPacket, WireError>
    ensures { TellsPart prepare_ok_view buf.new.0.now result (prepare_ok_fields_at buf.old.0.now) }
{
    let _status: StmtPacketStatus = buf.parse(alloc, ())?;
    let statement_id = buf.checked_eat_u32_le().ok_or(WireError::UnexpectedEof)?;
    let num_columns = buf.checked_eat_u16_le().ok_or(WireError::UnexpectedEof)?;
    let num_params = buf.checked_eat_u16_le().ok_or(WireError::UnexpectedEof)?;
    let _filler: Skip<1> = buf.parse(alloc, ())?;
    let warning_count = buf.checked_eat_u16_le().ok_or(WireError::UnexpectedEof)?;
    Ok(StmtPacket {
        statement_id,
        num_columns,
        num_params,
        warning_count,
    })
}

/// 00, the id, how many columns and parameters there are, a filler byte, how many warnings.
#[tactic(auto, unfolding(crate::specs::Packets::prepare_ok))]
impl MySerialize for StmtPacket {
    ghost written = { λ p. prepare_ok (prepare_ok_view p) };

    fn serialize(&self, buf: &mut Vec<u8>) -> Result<(), AllocError> {
        let status = StmtPacketStatus::new();
        let statement_id: RawInt<LeU32> = RawInt::new(self.statement_id);
        let num_columns: RawInt<LeU16> = RawInt::new(self.num_columns);
        let num_params: RawInt<LeU16> = RawInt::new(self.num_params);
        let filler: Skip<1> = Skip;
        let warning_count: RawInt<LeU16> = RawInt::new(self.warning_count);
        in_order!(
            status,
            statement_id,
            num_columns,
            num_params,
            filler,
            warning_count,
        )
        .serialize(buf)
    }
}

impl Readable for StmtPacket {
    type Ctx = ();

    ghost SIZE = { Some 12 };

    ghost Shown = { PrepareOk };

    ghost shown = { prepare_ok_view };

    ghost kept = { prepare_ok_view };

    ghost read_at = { λ _ bytes. prepare_ok_at bytes };

    ghost IsReadBack = { λ _ p _. IsPrepareOk (prepare_ok_view p) };

    ghost sized = { λ _. prepare_ok_at-sized };

    fn size() -> Option<usize>
        ensures { result ≡ Some 12 }
    {
        Some(12)
    }
}

impl ReadsBack for StmtPacket {
    ghost reads_back = { λ _ p. prepare_ok_at-back (prepare_ok_view p) };
}

/// Reads a statement packet. Refused by BadConstant for another first byte than 00.
///
/// MySQL: Client/Server Protocol, "COM_STMT_PREPARE Response".
#[tactic(auto, using(crate::proofs::Rules::sizes))]
impl<'de> MyDeserialize<'de> for StmtPacket {
    // COM_STMT_PREPARE_OK:
    //   int<1>  status 00
    //   int<4>  statement_id
    //   int<2>  num_columns
    //   int<2>  num_params
    //   int<1>  reserved_1
    //   int<2>  warning_count
    fn deserialize(
        alloc: Global,
        _ctx: (),
        buf: &mut ParseBuf<'de>,
    ) -> Result<StmtPacket, WireError> {
        let mut rest = *buf;
        let packet = statement_fields(alloc, &mut rest)?;
        *buf = rest;
        Ok(packet)
    }
}
