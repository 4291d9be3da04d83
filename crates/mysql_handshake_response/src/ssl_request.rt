//! The request for a secure connection, which comes before the answer that logs in.
//!
//!     let request = SslRequest::new(capabilities, max_packet_size, character_set);
//!     request.serialize(&mut payload)?;

ghost use Rattle.std.specs.Prelude.{◌≡◌, Some};
ghost use Rattle.mysql_fields.specs.Wire.{TellsPart};
ghost use Rattle.mysql_handshake.specs.Capabilities.{offered};
ghost use Rattle.mysql_handshake_response.specs.SslRequests.{IsSslRequest, SslRequestFields, ssl_fields_at};
ghost use Rattle.mysql_handshake_response.specs.SslRequests.{ssl_request, ssl_request_at};
ghost use Rattle.mysql_handshake_response.specs.SslRequestLaws.{ssl_request_at-back, ssl_request_at-sized};
ghost use Rattle.mysql_handshake_response.specs.SslRequestViews.{ssl_request_view};

use mysql_buf::ParseBuf;
use mysql_const::{Capabilities, CapabilityFlags, MariadbCapabilities};
use mysql_field_constants::{RawFlags, Skip};
use mysql_fields::{
    LeU32, MyDeserialize, MySerialize, ParseExt, RawInt, Readable, ReadsBack, WireError, in_order,
};
use mysql_handshake::offered_by;
use std::alloc::{AllocError, Global};

/// The request for a secure connection: the first 32 bytes of a client's answer to the handshake.
/// (MySQL: Client/Server Protocol, "Protocol::SSLRequest"; MariaDB: Client/Server Protocol,
/// "Connecting", "SSLRequest Packet".)
///
/// Reading is refused by `UnexpectedEof` below 32 bytes. Bits that name no capability are dropped.
///
/// Promise: its bytes are a function of its fields. Any bytes are read exactly as its layout says,
/// with the first refusal from the left (`ssl_request`, `ssl_request_at`).
#[derive(Clone, Debug, PartialEq, Eq, Drop)]
pub struct SslRequest {
    capabilities: CapabilityFlags,
    max_packet_size: u32,
    character_set: u8,
    mariadb_capabilities: MariadbCapabilities,
}

impl SslRequest {
    /// A request of a client with these capabilities, which takes packets of at most `max_packet_size`
    /// bytes and has this collation. It has none of MariaDB's own capabilities.
    pub fn new(capabilities: CapabilityFlags, max_packet_size: u32, character_set: u8) -> SslRequest
        ensures { ssl_request_view result ≡
            record {
              capabilities = capabilities.0;
              max_packet_size =
                  max_packet_size;
              character_set = character_set;
              mariadb_capabilities = 0;
            } }
    {
        SslRequest {
            capabilities,
            max_packet_size,
            character_set,
            mariadb_capabilities: MariadbCapabilities(0),
        }
    }

    /// The request with these of MariaDB's own capabilities, which a server of MariaDB alone looks at.
    pub fn with_mariadb_capabilities(
        mut self,
        mariadb_capabilities: MariadbCapabilities,
    ) -> SslRequest
        ensures { ssl_request_view result ≡
            record (ssl_request_view self) { mariadb_capabilities = mariadb_capabilities.0 } }
    {
        self.mariadb_capabilities = mariadb_capabilities;
        self
    }

    /// What the client can do.
    pub fn capabilities(&self) -> CapabilityFlags
        ensures { result.0 ≡ (ssl_request_view self.now).capabilities }
    {
        self.capabilities
    }

    /// The most bytes of a packet that the client takes.
    pub fn max_packet_size(&self) -> u32
        ensures { result ≡ (ssl_request_view self.now).max_packet_size }
    {
        self.max_packet_size
    }

    /// The number of the client's collation.
    pub fn character_set(&self) -> u8
        ensures { result ≡ (ssl_request_view self.now).character_set }
    {
        self.character_set
    }

    /// What the client can do, by both words. Those of MariaDB's own count where
    /// `CLIENT_LONG_PASSWORD`, which MariaDB calls `CLIENT_MYSQL`, isn't set.
    /// (MariaDB: "Connecting", 'Capabilities'.)
    pub fn offered(&self) -> Capabilities
        ensures { result ≡ offered (ssl_request_view self.now).capabilities
            (ssl_request_view self.now).mariadb_capabilities }
    {
        offered_by(self.capabilities, self.mariadb_capabilities)
    }

    /// What the client can do by MariaDB's own protocol.
    pub fn mariadb_capabilities(&self) -> MariadbCapabilities
        ensures { result.0 ≡ (ssl_request_view self.now).mariadb_capabilities }
    {
        self.mariadb_capabilities
    }
}

#[tactic(auto, unfolding(crate::specs::SslRequests::ssl_fields_at))]
fn ssl_fields(alloc: Global, rest: &mut ParseBuf) -> Result<SslRequest, WireError>
    ensures { TellsPart ssl_request_view rest.new.0.now result (ssl_fields_at rest.old.0.now) }
{
    let capabilities: RawFlags<CapabilityFlags, LeU32> = rest.parse(alloc, ())?;
    let max_packet_size: RawInt<LeU32> = rest.parse(alloc, ())?;
    let character_set: RawInt<u8> = rest.parse(alloc, ())?;
    let _: Skip<19> = rest.parse(alloc, ())?;
    let mariadb_capabilities: RawFlags<MariadbCapabilities, LeU32> = rest.parse(alloc, ())?;
    Ok(SslRequest {
        capabilities: capabilities.get(),
        max_packet_size: max_packet_size.0,
        character_set: character_set.0,
        mariadb_capabilities: mariadb_capabilities.get(),
    })
}

#[tactic(auto, unfolding(crate::specs::SslRequests::ssl_request))]
impl MySerialize for SslRequest {
    ghost written = { λ p. ssl_request (ssl_request_view p) };

    fn serialize(&self, buf: &mut Vec<u8>) -> Result<(), AllocError> {
        let capabilities = RawInt::<LeU32>::new(self.capabilities.0);
        let max_packet_size = RawInt::<LeU32>::new(self.max_packet_size);
        let character_set = RawInt::<u8>::new(self.character_set);
        let mariadb_capabilities = RawInt::<LeU32>::new(self.mariadb_capabilities.0);
        in_order!(
            capabilities,
            max_packet_size,
            character_set,
            Skip::<19>,
            mariadb_capabilities,
        )
        .serialize(buf)
    }
}

impl Readable for SslRequest {
    type Ctx = ();

    ghost SIZE = { Some 32 };

    ghost Shown = { SslRequestFields };

    ghost shown = { ssl_request_view };

    ghost read_at = { λ _ bytes. ssl_request_at bytes };

    ghost kept = { ssl_request_view };

    ghost IsReadBack = { λ _ p _. IsSslRequest (ssl_request_view p) };

    ghost sized = { λ _. ssl_request_at-sized };

    fn size() -> Option<usize> {
        Some(32)
    }
}

impl ReadsBack for SslRequest {
    ghost reads_back = { λ _ p rest. ssl_request_at-back (ssl_request_view p) rest };
}

#[tactic(auto, using(crate::proofs::Rules::sizes))]
impl<'de> MyDeserialize<'de> for SslRequest {
    // Protocol::SSLRequest:
    //   int<4>      client_flag
    //   int<4>      max_packet_size
    //   int<1>      character_set
    //   string[19]  filler
    //   int<4>      MariaDB's own capabilities
    fn deserialize(
        alloc: Global,
        _ctx: (),
        buf: &mut ParseBuf<'de>,
    ) -> Result<SslRequest, WireError> {
        let mut rest = *buf;
        let request = ssl_fields(alloc, &mut rest)?;
        *buf = rest;
        Ok(request)
    }
}
