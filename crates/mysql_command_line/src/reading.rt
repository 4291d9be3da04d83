//! Input in pieces, as it comes.

use crate::stop::Stop;
use mysql_session::Receiver;
use std::alloc::Global;
use std::io;
use std::io::Read;

/// How often input that is read to its end is read at most.
const MOST_READS: u64 = 1000000;

/// How many bytes a read asks for.
const PIECE_LEN: usize = 65536;

/// What takes input piece by piece.
pub(crate) trait TakesPieces {
    /// Takes the next piece, and answers whether more is wanted.
    fn take_piece(&mut self, piece: &[u8]) -> Result<bool, Stop>;
}

impl TakesPieces for Vec<u8> {
    fn take_piece(&mut self, piece: &[u8]) -> Result<bool, Stop> {
        self.extend_from_slice(piece)?;
        Ok(true)
    }
}

impl TakesPieces for Receiver {
    // The audit tells the fault.
    fn take_piece(&mut self, piece: &[u8]) -> Result<bool, Stop> {
        let _answer = self.feed(piece);
        Ok(true)
    }
}

/// Takes pieces and does nothing with them.
#[derive(Clone, Copy)]
pub(crate) struct Skips;

impl TakesPieces for Skips {
    fn take_piece(&mut self, _piece: &[u8]) -> Result<bool, Stop> {
        Ok(true)
    }
}

/// Reads the next piece into the buffer and hands it over. Answers whether the input goes on and more of it is wanted.
fn take_next<R: Read, T: TakesPieces>(
    input: &mut R,
    buffer: &mut [u8],
    taker: &mut T,
) -> Result<bool, Stop> {
    match input.read(buffer) {
        Ok(0) => Ok(false),
        Ok(count) => taker.take_piece(&buffer[..count]),
        Err(error) if error.kind() == io::ErrorKind::Interrupted => Ok(true),
        Err(_) => Err(Stop::BadInput),
    }
}

/// Hands the input over piece by piece, to its end or as far as it is wanted, by so many reads at most.
fn read_within<R: Read, T: TakesPieces>(
    alloc: Global,
    input: &mut R,
    most_reads: u64,
    taker: &mut T,
) -> Result<(), Stop> {
    let mut buffer = vec![in alloc; 0; PIECE_LEN]?;
    for _ in 0..most_reads {
        if !take_next(input, &mut buffer, taker)? {
            return Ok(());
        }
    }
    Err(Stop::BadInput)
}

/// Hands the input over to its end, piece by piece.
pub(crate) fn read_input<R: Read, T: TakesPieces>(
    alloc: Global,
    input: &mut R,
    taker: &mut T,
) -> Result<(), Stop> {
    read_within(alloc, input, MOST_READS, taker)
}

/// Hands over input that may never end, piece by piece as it comes, as far as it is wanted.
pub(crate) fn follow_input<R: Read, T: TakesPieces>(
    alloc: Global,
    input: &mut R,
    taker: &mut T,
) -> Result<(), Stop> {
    read_within(alloc, input, u64::MAX, taker)
}
