//! Packets of commands, whose bytes come in pieces.

ghost use Rattle.std.specs.Prelude.{◌≡◌};
ghost use Rattle.mysql_receive.specs.Query.{IsQuery};
ghost use Rattle.mysql_receive.specs.Views.{statement_view};
ghost use Rattle.mysql_receive.specs.Parts.{IsOpen, ReadsPiece, read_error_by};

use crate::fault::StreamFault;
use crate::progress::Progress;
use crate::read_error::ReadError;
use crate::statement::Statement;
use mysql_wire::laws::reader_laws;
use mysql_wire::{PacketCodecError, PacketReader};
use std::alloc::Global;

/// The refusal that a codec's error is.
fn read_error_of(error: PacketCodecError) -> ReadError
    ensures { result ≡ read_error_by error }
{
    match error {
        PacketCodecError::PacketTooLarge => ReadError::Fault(StreamFault::TooLarge),
        PacketCodecError::PacketsOutOfSync => ReadError::Fault(StreamFault::OutOfSync),
        PacketCodecError::Io(_) => ReadError::Memory,
        PacketCodecError::Memory => ReadError::Memory,
    }
}

// Reads each payload that the piece makes whole.
#[inline(never)]
fn read_payloads(
    packets: &mut PacketReader,
    alloc: Global,
    statement: &Statement,
    progress: &mut Progress,
    piece: &[u8],
) -> Result<(), ReadError>
    requires query { IsQuery (statement_view statement.now).query }
    requires open { IsOpen packets.old }
    ensures { ReadsPiece (statement_view statement.now) packets.old progress.old piece.now
        packets.new progress.new result }
{
    reader_laws();
    let mut rest = piece;
    'packets: loop {
        if let Some(payload) = packets.read_in_place(&mut rest) {
            progress.read_one(alloc, statement, payload)?;
            packets.reset_seq_id();
            continue 'packets;
        }
        match packets.advance(&mut rest) {
            Ok(false) => return Ok(()),
            Ok(true) => {
                progress.read_one(alloc, statement, packets.payload())?;
                packets.reset_seq_id();
            }
            Err(error) => return Err(read_error_of(error)),
        }
    }
}

/// Reads each payload that the piece makes whole. One that ends within a packet that was begun is taken at once.
#[inline(always)]
pub fn read_piece(
    packets: &mut PacketReader,
    alloc: Global,
    statement: &Statement,
    progress: &mut Progress,
    piece: &[u8],
) -> Result<(), ReadError>
    requires query { IsQuery (statement_view statement.now).query }
    requires open { IsOpen packets.old }
    ensures { ReadsPiece (statement_view statement.now) packets.old progress.old piece.now
        packets.new progress.new result }
{
    reader_laws();
    if packets.take_within(piece) {
        return Ok(());
    }
    read_payloads(packets, alloc, statement, progress, piece)
}
