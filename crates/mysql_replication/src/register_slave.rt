//! What a replica says of itself before it asks for the binary log.
//!
//!     let packet = ComRegisterSlave::new(server_id).with_hostname(host).with_port(3306);
//!     packet.serialize(&mut payload)?;

ghost use Rattle.std.specs.Prelude.{◌≡◌, [], IfOk, None};
ghost use Rattle.std.specs.Cow.{cow_slice_items};
ghost use Rattle.mysql_buf.specs.Writing.{front};
ghost use Rattle.mysql_fields.specs.Laws.{unsized};
ghost use Rattle.mysql_fields.specs.Wire.{TellsPart};
ghost use Rattle.mysql_replication.specs.PacketLaws.{register_slave_at-back};
ghost use Rattle.mysql_replication.specs.Packets.{IsRegisterSlave, RegisterSlave, register_slave, register_slave_at};
ghost use Rattle.mysql_replication.specs.Packets.{register_slave_fields_at, replica_names_at, replica_numbers_at};
ghost use Rattle.mysql_replication.specs.Packets.{whole_register_slave};
ghost use Rattle.mysql_replication.specs.Views.{IsLossyText, names_view, numbers_view, register_slave_view};

use crate::headers::ComRegisterSlaveHeader;
use mysql_buf::{ParseBuf, front_of};
use mysql_fields::{
    LeU16, LeU32, MyDeserialize, MySerialize, ParseExt, RawBytes, RawInt, Readable, ReadsBack,
    U8Bytes, WireError, copy_bytes, in_order, lossy_text,
};
use std::alloc::{AllocError, Global};
use std::borrow::{CowSlice, CowStr};

/// What a replica says of itself before it asks for the binary log. Of each name at most 255 bytes are written.
///
/// Promise: its bytes are a function of its fields. Any bytes are read exactly as its layout says,
/// with the first refusal from the left (`register_slave`, `register_slave_at`).
///
/// MySQL: Client/Server Protocol, "COM_REGISTER_SLAVE".
#[derive(Debug, PartialEq, Eq, Hash, Drop)]
pub struct ComRegisterSlave<'a> {
    server_id: u32,
    hostname: CowSlice<'a, u8>,
    user: CowSlice<'a, u8>,
    password: CowSlice<'a, u8>,
    port: u16,
    replication_rank: u32,
    master_id: u32,
}

impl<'a> ComRegisterSlave<'a> {
    /// What the replica with this id says, with empty names and zeros.
    pub fn new(server_id: u32) -> ComRegisterSlave<'a>
        ensures { register_slave_view result ≡
            record {
              server_id = server_id;
              hostname = [];
              user = [];
              password = [];
              port =
                  0;
              replication_rank = 0;
              master_id = 0;
            } }
    {
        ComRegisterSlave {
            server_id,
            hostname: CowSlice::Borrowed(&[]),
            user: CowSlice::Borrowed(&[]),
            password: CowSlice::Borrowed(&[]),
            port: 0,
            replication_rank: 0,
            master_id: 0,
        }
    }

    /// The packet with this name of its host.
    pub fn with_hostname(mut self, hostname: CowSlice<'a, u8>) -> ComRegisterSlave<'a>
        ensures { register_slave_view result ≡
            record (register_slave_view self.entry) { hostname = cow_slice_items hostname.entry } }
    {
        self.hostname = hostname;
        self
    }

    /// The packet with this name of its user.
    pub fn with_user(mut self, user: CowSlice<'a, u8>) -> ComRegisterSlave<'a>
        ensures { register_slave_view result ≡
            record (register_slave_view self.entry) { user = cow_slice_items user.entry } }
    {
        self.user = user;
        self
    }

    /// The packet with this password.
    pub fn with_password(mut self, password: CowSlice<'a, u8>) -> ComRegisterSlave<'a>
        ensures { register_slave_view result ≡
            record (register_slave_view self.entry) { password = cow_slice_items password.entry } }
    {
        self.password = password;
        self
    }

    /// The packet with this port.
    pub fn with_port(mut self, port: u16) -> ComRegisterSlave<'a>
        ensures { register_slave_view result ≡ record (register_slave_view self.entry) { port = port } }
    {
        self.port = port;
        self
    }

    /// The packet with this rank, which servers ignore.
    pub fn with_replication_rank(mut self, replication_rank: u32) -> ComRegisterSlave<'a>
        ensures { register_slave_view result ≡
            record (register_slave_view self.entry) { replication_rank = replication_rank } }
    {
        self.replication_rank = replication_rank;
        self
    }

    /// The packet with this id of its master, usually 0.
    pub fn with_master_id(mut self, master_id: u32) -> ComRegisterSlave<'a>
        ensures { register_slave_view result ≡ record (register_slave_view self.entry) { master_id = master_id } }
    {
        self.master_id = master_id;
        self
    }

    /// The replica's id.
    pub fn server_id(&self) -> u32
        ensures { result ≡ (register_slave_view self.now).server_id }
    {
        self.server_id
    }

    /// The bytes of the host's name: those that are written, at most 255.
    pub fn hostname_raw(&self) -> &[u8]
        ensures { result.now ≡ front (register_slave_view self.now).hostname 255 }
    {
        front_of(self.hostname.as_slice(), 255)
    }

    /// The host's name as text, where bytes that aren't UTF-8 are replaced.
    ///
    /// # Errors
    /// - `Memory`.
    pub fn hostname(&self, alloc: Global) -> Result<CowStr<'_>, WireError>
        ensures { IsLossyText result (front (register_slave_view self.now).hostname 255) }
    {
        lossy_text(alloc, self.hostname_raw())
    }

    /// The bytes of the user's name: those that are written, at most 255.
    pub fn user_raw(&self) -> &[u8]
        ensures { result.now ≡ front (register_slave_view self.now).user 255 }
    {
        front_of(self.user.as_slice(), 255)
    }

    /// The user's name as text, where bytes that aren't UTF-8 are replaced.
    ///
    /// # Errors
    /// - `Memory`.
    pub fn user(&self, alloc: Global) -> Result<CowStr<'_>, WireError>
        ensures { IsLossyText result (front (register_slave_view self.now).user 255) }
    {
        lossy_text(alloc, self.user_raw())
    }

    /// The bytes of the password: those that are written, at most 255.
    pub fn password_raw(&self) -> &[u8]
        ensures { result.now ≡ front (register_slave_view self.now).password 255 }
    {
        front_of(self.password.as_slice(), 255)
    }

    /// The password as text, where bytes that aren't UTF-8 are replaced.
    ///
    /// # Errors
    /// - `Memory`.
    pub fn password(&self, alloc: Global) -> Result<CowStr<'_>, WireError>
        ensures { IsLossyText result (front (register_slave_view self.now).password 255) }
    {
        lossy_text(alloc, self.password_raw())
    }

    /// The port.
    pub fn port(&self) -> u16
        ensures { result ≡ (register_slave_view self.now).port }
    {
        self.port
    }

    /// The rank.
    pub fn replication_rank(&self) -> u32
        ensures { result ≡ (register_slave_view self.now).replication_rank }
    {
        self.replication_rank
    }

    /// The master's id.
    pub fn master_id(&self) -> u32
        ensures { result ≡ (register_slave_view self.now).master_id }
    {
        self.master_id
    }

    /// Whether its names and its password are written whole: each has at most 255 bytes. It is then
    /// read as it was written.
    pub fn is_whole(&self) -> bool
        ensures { result ≡ whole_register_slave (register_slave_view self.now) }
    {
        let hostname = self.hostname.as_slice();
        let user = self.user.as_slice();
        let password = self.password.as_slice();
        hostname.len() <= 255 && user.len() <= 255 && password.len() <= 255
    }

    /// A copy, which borrows nothing.
    ///
    /// # Errors
    /// - `AllocError` for want of memory.
    pub fn clone(&self, alloc: Global) -> Result<ComRegisterSlave<'static>, AllocError>
        ensures { IfOk result (λ copy. register_slave_view copy ≡ register_slave_view self.now) }
    {
        let hostname = copy_bytes(alloc, self.hostname.as_slice())?;
        let user = copy_bytes(alloc, self.user.as_slice())?;
        let password = copy_bytes(alloc, self.password.as_slice())?;
        Ok(ComRegisterSlave {
            server_id: self.server_id,
            hostname,
            user,
            password,
            port: self.port,
            replication_rank: self.replication_rank,
            master_id: self.master_id,
        })
    }
}

#[tactic(auto, unfolding(crate::specs::Packets::register_slave))]
impl<'a> MySerialize for ComRegisterSlave<'a> {
    ghost written = { λ p. register_slave (register_slave_view p) };

    fn serialize(&self, buf: &mut Vec<u8>) -> Result<(), AllocError> {
        let header = ComRegisterSlaveHeader::new();
        let server_id: RawInt<LeU32> = RawInt::new(self.server_id);
        let hostname: RawBytes<U8Bytes> = RawBytes::from(self.hostname.as_slice());
        let user: RawBytes<U8Bytes> = RawBytes::from(self.user.as_slice());
        let password: RawBytes<U8Bytes> = RawBytes::from(self.password.as_slice());
        let port: RawInt<LeU16> = RawInt::new(self.port);
        let replication_rank: RawInt<LeU32> = RawInt::new(self.replication_rank);
        let master_id: RawInt<LeU32> = RawInt::new(self.master_id);
        in_order!(
            header,
            server_id,
            hostname,
            user,
            password,
            port,
            replication_rank,
            master_id,
        )
        .serialize(buf)
    }
}

impl<'a> Readable for ComRegisterSlave<'a> {
    type Ctx = ();

    ghost Shown = { RegisterSlave };

    ghost shown = { register_slave_view };

    ghost kept = { register_slave_view };

    ghost read_at = { λ _ bytes. register_slave_at bytes };

    ghost IsReadBack = { λ _ p _. IsRegisterSlave (register_slave_view p) };

    ghost sized = { λ _. unsized register_slave_at };

    fn size() -> Option<usize>
        ensures { result ≡ None }
    {
        None
    }
}

impl<'a> ReadsBack for ComRegisterSlave<'a> {
    ghost reads_back = { λ _ p. register_slave_at-back (register_slave_view p) };
}

// The names of a host and of a user, and a password.
#[derive(Clone, Copy)]
struct Names<'a> {
    hostname: &'a [u8],
    user: &'a [u8],
    password: &'a [u8],
}

#[tactic(auto, unfolding(crate::specs::Packets::replica_names_at))]
fn names_from<'de>(rest: &mut ParseBuf<'de>) -> Result<Names<'de>, WireError>
    ensures { TellsPart names_view rest.new.0.now result (replica_names_at rest.old.0.now) }
{
    let hostname = rest.checked_eat_u8_str().ok_or(WireError::UnexpectedEof)?;
    let user = rest.checked_eat_u8_str().ok_or(WireError::UnexpectedEof)?;
    let password = rest.checked_eat_u8_str().ok_or(WireError::UnexpectedEof)?;
    Ok(Names {
        hostname,
        user,
        password,
    })
}

// A port, a rank and a master's id.
#[derive(Clone, Copy)]
struct Numbers {
    port: u16,
    replication_rank: u32,
    master_id: u32,
}

#[tactic(auto, unfolding(crate::specs::Packets::replica_numbers_at))]
fn numbers_from(rest: &mut ParseBuf) -> Result<Numbers, WireError>
    ensures { TellsPart numbers_view rest.new.0.now result (replica_numbers_at rest.old.0.now) }
{
    let port = rest.checked_eat_u16_le().ok_or(WireError::UnexpectedEof)?;
    let replication_rank = rest.checked_eat_u32_le().ok_or(WireError::UnexpectedEof)?;
    let master_id = rest.checked_eat_u32_le().ok_or(WireError::UnexpectedEof)?;
    Ok(Numbers {
        port,
        replication_rank,
        master_id,
    })
}

// The fields in their order.
#[tactic(auto, unfolding(crate::specs::Packets::register_slave_fields_at))]
fn fields_from<'de>(
    alloc: Global,
    rest: &mut ParseBuf<'de>,
) -> Result<ComRegisterSlave<'de>, WireError>
    ensures { TellsPart register_slave_view rest.new.0.now result (register_slave_fields_at rest.old.0.now) }
{
    let _header: ComRegisterSlaveHeader = rest.parse(alloc, ())?;
    let server_id = rest.checked_eat_u32_le().ok_or(WireError::UnexpectedEof)?;
    let names = names_from(rest)?;
    let numbers = numbers_from(rest)?;
    Ok(ComRegisterSlave {
        server_id,
        hostname: CowSlice::Borrowed(names.hostname),
        user: CowSlice::Borrowed(names.user),
        password: CowSlice::Borrowed(names.password),
        port: numbers.port,
        replication_rank: numbers.replication_rank,
        master_id: numbers.master_id,
    })
}

/// Reads what a replica says of itself. Refused by UnexpectedEof where there are fewer than 5
/// bytes, then by BadConstant for another first byte. Then it is refused by UnexpectedEof where a
/// name or a number is cut off.
///
/// MySQL: Client/Server Protocol, "COM_REGISTER_SLAVE".
#[tactic(auto, unfolding(crate::specs::Packets::register_slave_at))]
impl<'de> MyDeserialize<'de> for ComRegisterSlave<'de> {
    // COM_REGISTER_SLAVE:
    //   int<1>       command 15
    //   int<4>       server-id
    //   int<1>       hostname length
    //   string<var>  hostname
    //   int<1>       user length
    //   string<var>  user
    //   int<1>       password length
    //   string<var>  password
    //   int<2>       port
    //   int<4>       replication rank
    //   int<4>       master-id
    fn deserialize(
        alloc: Global,
        _ctx: (),
        buf: &mut ParseBuf<'de>,
    ) -> Result<ComRegisterSlave<'de>, WireError> {
        if buf.0.len() < 5 {
            return Err(WireError::UnexpectedEof);
        }
        let mut rest = *buf;
        let packet = fields_from(alloc, &mut rest)?;
        *buf = rest;
        Ok(packet)
    }
}
