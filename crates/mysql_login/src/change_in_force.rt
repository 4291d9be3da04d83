//! The command that logs another user in, by the capabilities that both sides have.
//!
//!     let command = ComChangeUser::read_in_force(alloc, capabilities, &mut ParseBuf(payload))?;
//!     command.put_in_force(capabilities, &mut payload)?;

ghost use Rattle.std.specs.Prelude.{◌≡◌, ◌==◌, not, length, option_map};
ghost use Rattle.std.specs.Cow.{cow_slice_items};
ghost use Rattle.mysql_handshake_response.specs.Parts.{if_held, if_there};
ghost use Rattle.mysql_handshake_response.specs.TextViews.{text_view};
ghost use Rattle.mysql_fields.specs.Wire.{Appends, Gives, GivesPart, Tells};
ghost use Rattle.mysql_login.specs.ChangedUsers.{answer, answer_at, change_in_force, change_in_force_at};
ghost use Rattle.mysql_login.specs.ChangedUsers.{database_and_last_at, last_fields, last_fields_at, named_and_left};
ghost use Rattle.mysql_login.specs.ChangedUserViews.{change_user_view, more_view};

use crate::change_user::{ComChangeUser, ComChangeUserHeader, ComChangeUserMoreData};
use mysql_buf::ParseBuf;
use mysql_const::CapabilityFlags;
use mysql_fields::{
    BytesRepr, LeU16, MyDeserialize, MySerialize, NullBytes, ParseExt, RawBytes, RawInt, Readable,
    U8Bytes, WireError, in_order,
};
use mysql_handshake_response::{IfHeld, has, parse_if, plugin_to_zero};
use std::alloc::{AllocError, Global};
use std::borrow::CowSlice;

// Whether a part stands there that the capabilities name.
fn is_left(capabilities: CapabilityFlags, flag: CapabilityFlags, rest: &ParseBuf) -> bool
    ensures { result ≡ named_and_left capabilities.0 flag.0 rest.now.0.now }
{
    has(capabilities, flag) && !rest.is_empty()
}

// The answer to the scramble.
fn parse_answer<'de>(
    capabilities: CapabilityFlags,
    rest: &mut ParseBuf<'de>,
) -> Result<CowSlice<'de, u8>, WireError>
    ensures { Tells cow_slice_items rest.old.0.now rest.new.0.now result (answer_at capabilities.0 rest.old.0.now) }
{
    if has(capabilities, CapabilityFlags::CLIENT_SECURE_CONNECTION) {
        U8Bytes::deserialize((), rest)
    } else {
        NullBytes::deserialize((), rest)
    }
}

// What may stand last.
#[tactic(auto, unfolding(crate::specs::ChangedUsers::last_fields_at))]
fn last_fields<'de>(
    alloc: Global,
    capabilities: CapabilityFlags,
    rest: &mut ParseBuf<'de>,
) -> Result<ComChangeUserMoreData<'de>, WireError>
    ensures { GivesPart more_view rest.new.0.now result (last_fields_at capabilities.0 rest.old.0.now) }
{
    let character_set: RawInt<LeU16> = rest.parse(alloc, ())?;
    let with_plugin = is_left(capabilities, CapabilityFlags::CLIENT_PLUGIN_AUTH, rest);
    let auth_plugin = plugin_to_zero(with_plugin, rest);
    let with_attributes = is_left(capabilities, CapabilityFlags::CLIENT_CONNECT_ATTRS, rest);
    let connect_attributes = parse_if(alloc, with_attributes, (), rest)?;
    Ok(ComChangeUserMoreData {
        character_set: character_set.0,
        auth_plugin,
        connect_attributes,
    })
}

// What may stand last, where a byte is left.
fn last_if_left<'de>(
    alloc: Global,
    capabilities: CapabilityFlags,
    rest: &mut ParseBuf<'de>,
) -> Result<Option<ComChangeUserMoreData<'de>>, WireError>
    ensures { GivesPart (option_map more_view) rest.new.0.now result
        (if_there (not (length rest.old.0.now == 0)) (last_fields_at capabilities.0) rest.old.0.now) }
{
    if rest.is_empty() {
        return Ok(None);
    }
    let more = last_fields(alloc, capabilities, rest)?;
    Ok(Some(more))
}

// The database, and what may stand last.
#[tactic(auto, unfolding(crate::specs::ChangedUsers::database_and_last_at))]
fn database_and_last<'de>(
    alloc: Global,
    capabilities: CapabilityFlags,
    rest: &mut ParseBuf<'de>,
) -> Result<(RawBytes<'de, NullBytes>, Option<ComChangeUserMoreData<'de>>), WireError>
    ensures { GivesPart (λ parts. (text_view parts.0, option_map more_view parts.1)) rest.new.0.now
        result (database_and_last_at capabilities.0 rest.old.0.now) }
{
    let database = rest.parse(alloc, ())?;
    let more_data = last_if_left(alloc, capabilities, rest)?;
    Ok((database, more_data))
}

// The answer to the scramble, in the form that the capabilities name.
#[derive(Drop)]
struct Answer<'x> {
    capabilities: CapabilityFlags,
    bytes: &'x [u8],
}

impl<'x> MySerialize for Answer<'x> {
    ghost written = { λ x. answer x.capabilities.0 x.bytes.now };

    fn serialize(&self, buf: &mut Vec<u8>) -> Result<(), AllocError> {
        if has(self.capabilities, CapabilityFlags::CLIENT_SECURE_CONNECTION) {
            U8Bytes::serialize(self.bytes, buf)
        } else {
            NullBytes::serialize(self.bytes, buf)
        }
    }
}

// What may stand last, each part where it is held.
#[derive(Drop)]
struct Last<'x, 'a>(&'x ComChangeUserMoreData<'a>);

#[tactic(auto, unfolding(crate::specs::ChangedUsers::last_fields))]
impl<'x, 'a> MySerialize for Last<'x, 'a> {
    ghost written = { λ x. last_fields (more_view x.0.now) };

    fn serialize(&self, buf: &mut Vec<u8>) -> Result<(), AllocError> {
        let character_set = RawInt::<LeU16>::new(self.0.character_set);
        let auth_plugin = IfHeld(&self.0.auth_plugin);
        let connect_attributes = IfHeld(&self.0.connect_attributes);
        in_order!(character_set, auth_plugin, connect_attributes).serialize(buf)
    }
}

// The same, where it is held.
#[derive(Drop)]
struct LastIfHeld<'x, 'a>(&'x Option<ComChangeUserMoreData<'a>>);

impl<'x, 'a> MySerialize for LastIfHeld<'x, 'a> {
    ghost written = { λ x. if_held last_fields (option_map more_view x.0.now) };

    fn serialize(&self, buf: &mut Vec<u8>) -> Result<(), AllocError> {
        match self.0 {
            Some(more) => Last(more).serialize(buf),
            None => Ok(()),
        }
    }
}

impl<'a> ComChangeUser<'a> {
    /// Reads a command by the capabilities that both sides have, as servers do. The answer to the
    /// scramble ends with a zero without `CLIENT_SECURE_CONNECTION`. The fields may end behind the
    /// database, the collation or the plugin, though the capabilities name more. A plugin's name
    /// may end with the bytes.
    /// (MySQL: Client/Server Protocol, "COM_CHANGE_USER"; MariaDB: Client/Server Protocol,
    /// "COM_CHANGE_USER".)
    ///
    /// Promise: any bytes are read exactly as that layout says, with the first refusal from the left
    /// (`change_in_force_at`).
    ///
    /// # Errors
    /// - `BadConstant` where another command's number stands first.
    /// - `UnexpectedEof` where a part is cut off.
    /// - `Memory`.
    ///
    /// All bytes are left after an error.
    #[tactic(auto, unfolding(crate::specs::ChangedUsers::change_in_force_at))]
    pub fn read_in_force(
        alloc: Global,
        capabilities: CapabilityFlags,
        buf: &mut ParseBuf<'a>,
    ) -> Result<ComChangeUser<'a>, WireError>
        ensures { Gives change_user_view buf.old.0.now buf.new.0.now result
            (change_in_force_at capabilities.0 buf.old.0.now) }
    {
        let mut rest = *buf;
        let _: ComChangeUserHeader = rest.parse(alloc, ())?;
        let user = rest.parse(alloc, ())?;
        let answer = parse_answer(capabilities, &mut rest)?;
        let (database, more_data) = database_and_last(alloc, capabilities, &mut rest)?;
        *buf = rest;
        Ok(ComChangeUser {
            user,
            auth_plugin_data: RawBytes::new(answer),
            database,
            more_data,
        })
    }

    /// Appends the command by the capabilities that both sides have. The answer to the scramble has
    /// their form; the plugin and the attributes follow where they are held.
    /// (MySQL: Client/Server Protocol, "COM_CHANGE_USER"; MariaDB: Client/Server Protocol,
    /// "COM_CHANGE_USER".)
    ///
    /// Promise: exactly the bytes of that layout are appended, or nothing (`change_in_force`).
    ///
    /// # Errors
    /// - `AllocError` for want of memory. The buffer is then as it was.
    #[tactic(auto, unfolding(crate::specs::ChangedUsers::change_in_force))]
    pub fn put_in_force(
        &self,
        capabilities: CapabilityFlags,
        buf: &mut Vec<u8>,
    ) -> Result<(), AllocError>
        ensures { Appends result buf.old.items buf.new.items
            (change_in_force capabilities.0 (change_user_view self.now)) }
    {
        let header = ComChangeUserHeader::new();
        let answer = Answer {
            capabilities,
            bytes: self.auth_plugin_data.0.as_slice(),
        };
        let more_data = LastIfHeld(&self.more_data);
        in_order!(header, self.user, answer, self.database, more_data).serialize(buf)
    }
}
