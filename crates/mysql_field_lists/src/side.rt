//! Who writes a NULL bitmap: a server begins it with two bits of no column, a client with none.
//!
//!     let of_row = NullBitmap::<ServerSide>::new(alloc, columns)?;
//!     let of_parameters = NullBitmap::<ClientSide>::new(alloc, parameters)?;

ghost use Rattle.std.specs.Prelude.{◌≤◌, ℕ};
ghost use Rattle.std.proofs.Common.{lit≤};

/// Who writes values: a bitmap's first columns stand elsewhere by a server than by a client.
pub trait SerializationSide {
    /// How many bits stand before that of the first column.
    const BIT_OFFSET: usize;

    ghost BIT_OFFSET: { ℕ };

    ghost at_most_two: { BIT_OFFSET ≤ 2 };
}

/// A server, which writes rows.
///
/// MySQL: Client/Server Protocol, "Binary Protocol Resultset Row".
#[derive(Clone, Copy, Debug, PartialEq, Eq)]
pub struct ServerSide;

impl SerializationSide for ServerSide {
    const BIT_OFFSET: usize = 2;

    ghost BIT_OFFSET = { 2 };

    ghost at_most_two = { lit≤ tt };
}

/// A client, which writes parameters.
///
/// MySQL: Client/Server Protocol, "COM_STMT_EXECUTE".
#[derive(Clone, Copy, Debug, PartialEq, Eq)]
pub struct ClientSide;

impl SerializationSide for ClientSide {
    const BIT_OFFSET: usize = 0;

    ghost BIT_OFFSET = { 0 };

    ghost at_most_two = { lit≤ tt };
}
