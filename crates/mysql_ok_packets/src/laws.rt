//! Laws of OK and EOF packets. Functions without a result do nothing: their contracts are the laws.

ghost use Rattle.mysql_ok_packets.specs.Statements.{EofPacketsAreTheirOwn, EofPacketsReadBack, KindReadsBack};
ghost use Rattle.mysql_ok_packets.specs.Statements.{OkPacketsAreTheirOwn, OkPacketsReadBack, TerminatorsAreTheirOwn};
ghost use Rattle.mysql_ok_packets.specs.Statements.{TerminatorsReadBack};

use crate::kind::OkPacketKind;

/// A packet that was written is read again by its kind where nothing follows it.
///
/// The kinds are an OK packet that answers a command, one that ends a result set, and an EOF
/// packet.
#[tactic(auto, using(crate::proofs::Back::read_back))]
pub fn ok_packets_read_back()
    ensures ok { OkPacketsReadBack }
    ensures terminator { TerminatorsReadBack }
    ensures eof { EofPacketsReadBack }
{}

/// A packet that was written as one of any kind is read again by that kind where nothing follows it.
pub fn kinds_read_back<T: OkPacketKind>()
    ensures { KindReadsBack T.HEADER T.body_at T.body_bytes T.kept }
{
    // For the proof alone: the header is a byte.
    let _header = T::HEADER;
}

/// A packet that was read can be written, and is what is read of that.
///
/// Reading and writing again gives one form.
pub fn packets_are_their_own()
    ensures ok { OkPacketsAreTheirOwn }
    ensures terminator { TerminatorsAreTheirOwn }
    ensures eof { EofPacketsAreTheirOwn }
{}
