//! The command that logs another user in on an open connection.
//!
//!     let more = ComChangeUserMoreData::new(45).with_auth_plugin(Some(plugin));
//!     let command = ComChangeUser::new().with_user(Some(name)).with_more_data(Some(more));
//!     command.serialize(&mut payload)?;

ghost use Rattle.std.specs.Prelude.{◌≡◌, [], IfOk, None, map, option_map, true};
ghost use Rattle.std.specs.Cow.{cow_slice_items};
ghost use Rattle.mysql_handshake_response.specs.Attributes.{attributes};
ghost use Rattle.mysql_handshake_response.specs.AttributeViews.{attributes_view, text_attribute};
ghost use Rattle.mysql_handshake_response.specs.Parts.{or_empty};
ghost use Rattle.mysql_auth.specs.Views.{plugin_view};
ghost use Rattle.mysql_login.specs.ChangedUsers.{ChangeUserFields, MoreFields, change_user, change_user_at};
ghost use Rattle.mysql_login.specs.ChangedUsers.{database_and_more_at, more_data, more_data_at, or_none};
ghost use Rattle.mysql_login.specs.ChangedUserViews.{change_user_view, more_view};
ghost use Rattle.mysql_fields.specs.Laws.{unsized};
ghost use Rattle.mysql_fields.specs.Wire.{GivesPart};
ghost use Rattle.mysql_handshake_response.specs.TextViews.{text_view};

use indexmap::IndexMap;
use mysql_auth::AuthPlugin;
use mysql_buf::ParseBuf;
use mysql_const::CapabilityFlags;
use mysql_field_constants::ConstU8;
use mysql_fields::{
    LeU16, MyDeserialize, MySerialize, NullBytes, ParseExt, RawBytes, RawInt, Readable, U8Bytes,
    WireError, in_order,
};
use mysql_handshake_response::{
    ConnectAttributes, IfHeld, attributes_of_texts, copied_attributes, copied_pair, copied_plugin,
    has, or_no_bytes, owned_attributes, owned_pair, owned_plugin, parse_if, plugin_before_zero,
};
use std::alloc::{AllocError, Global};
use std::borrow::CowSlice;
use thiserror::Error;

/// Another byte than 11 in its place.
#[derive(Clone, Copy, Debug, Default, PartialEq, Eq, Hash, Error)]
#[error("Invalid COM_CHANGE_USER header")]
pub struct InvalidComChangeUserHeader;

/// The command's number.
/// (MySQL: Client/Server Protocol, "COM_CHANGE_USER".)
pub type ComChangeUserHeader = ConstU8<InvalidComChangeUserHeader, 0x11>;

/// What may stand last in the command that logs another user in.
/// (MySQL: Client/Server Protocol, "COM_CHANGE_USER"; MariaDB: Client/Server Protocol,
/// "COM_CHANGE_USER".)
///
/// Reading is refused by `UnexpectedEof` where a part that the capabilities name is cut off, and by
/// `Memory`.
#[derive(Debug, PartialEq, Eq, Drop)]
pub struct ComChangeUserMoreData<'a> {
    pub(crate) character_set: u16,
    pub(crate) auth_plugin: Option<AuthPlugin<'a>>,
    pub(crate) connect_attributes: Option<ConnectAttributes<'a>>,
}

impl<'a> ComChangeUserMoreData<'a> {
    /// A collation's number, no plugin and no attributes.
    pub fn new(character_set: u16) -> ComChangeUserMoreData<'a>
        ensures { more_view result ≡ record { character_set = character_set; plugin = None; attributes = None } }
    {
        ComChangeUserMoreData {
            character_set,
            auth_plugin: None,
            connect_attributes: None,
        }
    }

    /// The command with this plugin, or with none.
    pub fn with_auth_plugin(
        mut self,
        auth_plugin: Option<AuthPlugin<'a>>,
    ) -> ComChangeUserMoreData<'a>
        ensures { more_view result ≡
            record (more_view self.entry) { plugin = option_map plugin_view auth_plugin.entry } }
    {
        self.auth_plugin = auth_plugin;
        self
    }

    /// The command with the attributes of these texts, or with none.
    ///
    /// # Errors
    /// - `AllocError` for want of memory.
    pub fn with_connect_attributes(
        mut self,
        alloc: Global,
        connect_attributes: Option<IndexMap<String, String>>,
    ) -> Result<ComChangeUserMoreData<'a>, AllocError>
        ensures { IfOk result (λ more. more_view more ≡
            record (more_view self.entry) {
              attributes =
                  option_map (λ texts. map text_attribute texts.entries) connect_attributes;
            }) }
    {
        self.connect_attributes = attributes_of_texts(alloc, connect_attributes)?;
        Ok(self)
    }

    /// The number of the collation.
    pub fn character_set(&self) -> u16
        ensures { result ≡ (more_view self.now).character_set }
    {
        self.character_set
    }

    /// The plugin, where there is one.
    pub fn auth_plugin(&self) -> Option<&AuthPlugin<'a>>
        ensures { option_map (λ plugin. plugin_view plugin.now) result ≡ (more_view self.now).plugin }
    {
        self.auth_plugin.as_ref()
    }

    /// The attributes, where there are any.
    pub fn attributes(&self) -> Option<&ConnectAttributes<'a>>
        ensures { option_map (λ all. attributes_view all.now) result ≡ (more_view self.now).attributes }
    {
        self.connect_attributes.as_ref()
    }

    /// The value in bytes of its own: it borrows nothing.
    ///
    /// # Errors
    /// - `AllocError` for want of memory.
    pub fn into_owned(self, alloc: Global) -> Result<ComChangeUserMoreData<'static>, AllocError>
        ensures { IfOk result (λ more. more_view more ≡ more_view self.entry) }
    {
        Ok(ComChangeUserMoreData {
            character_set: self.character_set,
            auth_plugin: owned_plugin(alloc, self.auth_plugin)?,
            connect_attributes: owned_attributes(alloc, self.connect_attributes)?,
        })
    }

    /// A copy, which borrows nothing.
    ///
    /// # Errors
    /// - `AllocError` for want of memory.
    pub fn clone(&self, alloc: Global) -> Result<ComChangeUserMoreData<'static>, AllocError>
        ensures { IfOk result (λ copy. more_view copy ≡ more_view self.now) }
    {
        Ok(ComChangeUserMoreData {
            character_set: self.character_set,
            auth_plugin: copied_plugin(alloc, &self.auth_plugin)?,
            connect_attributes: copied_attributes(alloc, &self.connect_attributes)?,
        })
    }
}

// Attributes, which are written though there be none.
#[derive(Drop)]
struct OrNone<'x, 'a>(&'x Option<ConnectAttributes<'a>>);

impl<'x, 'a> MySerialize for OrNone<'x, 'a> {
    ghost written = { λ x. attributes (or_none (option_map attributes_view x.0.now)) };

    fn serialize(&self, buf: &mut Vec<u8>) -> Result<(), AllocError> {
        match self.0 {
            Some(all) => all.serialize(buf),
            None => buf.extend_from_slice(&[0]),
        }
    }
}

#[tactic(auto, unfolding(crate::specs::ChangedUsers::more_data))]
impl<'a> MySerialize for ComChangeUserMoreData<'a> {
    ghost written = { λ p. more_data (more_view p) };

    fn serialize(&self, buf: &mut Vec<u8>) -> Result<(), AllocError> {
        let character_set = RawInt::<LeU16>::new(self.character_set);
        let auth_plugin = IfHeld(&self.auth_plugin);
        let connect_attributes = OrNone(&self.connect_attributes);
        in_order!(character_set, auth_plugin, connect_attributes).serialize(buf)
    }
}

/// The context is what the client can do.
impl<'a> Readable for ComChangeUserMoreData<'a> {
    type Ctx = CapabilityFlags;

    ghost AsksForMemory = { true };

    ghost Shown = { MoreFields };

    ghost shown = { more_view };

    ghost read_at = { λ capabilities bytes. more_data_at capabilities.0 bytes };

    ghost kept = { more_view };

    ghost sized = { λ capabilities. unsized (more_data_at capabilities.0) };

    fn size() -> Option<usize>
        ensures { result ≡ None }
    {
        None
    }
}

#[tactic(auto, unfolding(crate::specs::ChangedUsers::more_data_at))]
impl<'de> MyDeserialize<'de> for ComChangeUserMoreData<'de> {
    // COM_CHANGE_USER, behind the database:
    //   int<2>       character set
    //   string<NUL>  authentication plugin name, with CLIENT_PLUGIN_AUTH
    //   attributes, with CLIENT_CONNECT_ATTRS:
    //     int<lenenc>  length of all keys and values
    //     string<lenenc> key and string<lenenc> value, one after another
    fn deserialize(
        alloc: Global,
        capabilities: CapabilityFlags,
        buf: &mut ParseBuf<'de>,
    ) -> Result<ComChangeUserMoreData<'de>, WireError> {
        let mut rest = *buf;
        let character_set: RawInt<LeU16> = rest.parse(alloc, ())?;
        let with_plugin = has(capabilities, CapabilityFlags::CLIENT_PLUGIN_AUTH);
        let auth_plugin = plugin_before_zero(with_plugin, &mut rest)?;
        let with_attributes = has(capabilities, CapabilityFlags::CLIENT_CONNECT_ATTRS);
        let connect_attributes = parse_if(alloc, with_attributes, (), &mut rest)?;
        *buf = rest;
        Ok(ComChangeUserMoreData {
            character_set: character_set.0,
            auth_plugin,
            connect_attributes,
        })
    }
}

/// The command that logs another user in.
/// (MySQL: Client/Server Protocol, "COM_CHANGE_USER"; MariaDB: Client/Server Protocol,
/// "COM_CHANGE_USER".)
///
/// Reading is refused in the order of the parts. It is refused by `BadConstant` where another
/// command's number stands first. It is refused by `UnexpectedEof` where a part is cut off, and by
/// `Memory`. Where no byte follows the database there is no more. [`ComChangeUser::read_in_force`]
/// and [`ComChangeUser::put_in_force`] go by the capabilities that both sides have, and let fields
/// at the end be missing.
///
/// Promise: its bytes are a function of its fields. Any bytes are read exactly as its layout says,
/// with the first refusal from the left. Each direction stands by itself (`change_user`,
/// `change_user_at`).
#[derive(Debug, PartialEq, Eq, Drop)]
pub struct ComChangeUser<'a> {
    pub(crate) user: RawBytes<'a, NullBytes>,
    pub(crate) auth_plugin_data: RawBytes<'a, U8Bytes>,
    pub(crate) database: RawBytes<'a, NullBytes>,
    pub(crate) more_data: Option<ComChangeUserMoreData<'a>>,
}

impl<'a> ComChangeUser<'a> {
    /// A command without a user's name, an answer to the scramble, a database and more.
    pub fn new() -> ComChangeUser<'a>
        ensures { change_user_view result ≡ record { user = []; scramble = []; database = []; more = None } }
    {
        ComChangeUser {
            user: RawBytes::new(or_no_bytes(None)),
            auth_plugin_data: RawBytes::new(or_no_bytes(None)),
            database: RawBytes::new(or_no_bytes(None)),
            more_data: None,
        }
    }

    /// The command for this user, or for one without a name.
    pub fn with_user(self, user: Option<CowSlice<'a, u8>>) -> ComChangeUser<'a>
        ensures { change_user_view result ≡
            record (change_user_view self.entry) {
              user =
                  or_empty (option_map cow_slice_items user.entry);
            } }
    {
        ComChangeUser {
            user: RawBytes::new(or_no_bytes(user)),
            ..self
        }
    }

    /// The command with this database, or with none.
    pub fn with_database(self, database: Option<CowSlice<'a, u8>>) -> ComChangeUser<'a>
        ensures { change_user_view result ≡
            record (change_user_view self.entry) {
              database =
                  or_empty (option_map cow_slice_items database.entry);
            } }
    {
        ComChangeUser {
            database: RawBytes::new(or_no_bytes(database)),
            ..self
        }
    }

    /// The command with this answer to the scramble, of which at most 255 bytes are written, or with none.
    pub fn with_auth_plugin_data(
        self,
        auth_plugin_data: Option<CowSlice<'a, u8>>,
    ) -> ComChangeUser<'a>
        ensures { change_user_view result ≡
            record (change_user_view self.entry) {
              scramble =
                  or_empty (option_map cow_slice_items auth_plugin_data.entry);
            } }
    {
        ComChangeUser {
            auth_plugin_data: RawBytes::new(or_no_bytes(auth_plugin_data)),
            ..self
        }
    }

    /// The command with more, or with no more.
    pub fn with_more_data(
        mut self,
        more_data: Option<ComChangeUserMoreData<'a>>,
    ) -> ComChangeUser<'a>
        ensures { change_user_view result ≡
            record (change_user_view self.entry) { more = option_map more_view more_data.entry } }
    {
        self.more_data = more_data;
        self
    }

    /// The user's name.
    pub fn user(&self) -> &[u8]
        ensures { result.now ≡ (change_user_view self.now).user }
    {
        self.user.0.as_slice()
    }

    /// The answer to the scramble.
    pub fn auth_plugin_data(&self) -> &[u8]
        ensures { result.now ≡ (change_user_view self.now).scramble }
    {
        self.auth_plugin_data.0.as_slice()
    }

    /// The database's name; no bytes are none.
    pub fn database(&self) -> &[u8]
        ensures { result.now ≡ (change_user_view self.now).database }
    {
        self.database.0.as_slice()
    }

    /// The collation, the plugin and the attributes, where they are there.
    pub fn more_data(&self) -> Option<&ComChangeUserMoreData<'a>>
        ensures { option_map (λ more. more_view more.now) result ≡ (change_user_view self.now).more }
    {
        self.more_data.as_ref()
    }

    /// The command in bytes of its own: it borrows nothing.
    ///
    /// # Errors
    /// - `AllocError` for want of memory.
    pub fn into_owned(self, alloc: Global) -> Result<ComChangeUser<'static>, AllocError>
        ensures { IfOk result (λ owned. change_user_view owned ≡ change_user_view self.entry) }
    {
        let more_data = owned_more(alloc, self.more_data)?;
        let (user, auth_plugin_data, database) = owned_texts(
            alloc,
            self.user,
            self.auth_plugin_data,
            self.database,
        )?;
        Ok(ComChangeUser {
            user,
            auth_plugin_data,
            database,
            more_data,
        })
    }

    /// A copy of the command, which borrows nothing.
    ///
    /// # Errors
    /// - `AllocError` for want of memory.
    pub fn clone(&self, alloc: Global) -> Result<ComChangeUser<'static>, AllocError>
        ensures { IfOk result (λ copy. change_user_view copy ≡ change_user_view self.now) }
    {
        let (user, database) = copied_pair(alloc, &self.user, &self.database)?;
        let auth_plugin_data = self.auth_plugin_data.clone(alloc)?;
        let more_data = copied_more(alloc, &self.more_data)?;
        Ok(ComChangeUser {
            user,
            auth_plugin_data,
            database,
            more_data,
        })
    }
}

// A user's name, an answer to the scramble and a database.
type Texts<'a> = (
    RawBytes<'a, NullBytes>,
    RawBytes<'a, U8Bytes>,
    RawBytes<'a, NullBytes>,
);

// The texts, which borrow nothing.
fn owned_texts(
    alloc: Global,
    user: RawBytes<NullBytes>,
    auth_plugin_data: RawBytes<U8Bytes>,
    database: RawBytes<NullBytes>,
) -> Result<Texts<'static>, AllocError>
    ensures user { IfOk result (λ owned. text_view owned.0 ≡ text_view user.entry) }
    ensures scramble { IfOk result (λ owned. text_view owned.1 ≡ text_view auth_plugin_data.entry) }
    ensures database { IfOk result (λ owned. text_view owned.2 ≡ text_view database.entry) }
{
    let (user, database) = owned_pair(alloc, user, database)?;
    let auth_plugin_data = auth_plugin_data.into_owned(alloc)?;
    Ok((user, auth_plugin_data, database))
}

// What may stand last, which borrows nothing, where it is there.
fn owned_more(
    alloc: Global,
    more_data: Option<ComChangeUserMoreData>,
) -> Result<Option<ComChangeUserMoreData<'static>>, AllocError>
    ensures { IfOk result (λ owned. option_map more_view owned ≡ option_map more_view more_data.entry) }
{
    match more_data {
        Some(more) => Ok(Some(more.into_owned(alloc)?)),
        None => Ok(None),
    }
}

// A copy of what may stand last, where it is there.
fn copied_more(
    alloc: Global,
    more_data: &Option<ComChangeUserMoreData>,
) -> Result<Option<ComChangeUserMoreData<'static>>, AllocError>
    ensures { IfOk result (λ copy. option_map more_view copy ≡ option_map more_view more_data.now) }
{
    match more_data {
        Some(more) => Ok(Some(more.clone(alloc)?)),
        None => Ok(None),
    }
}

/// The command that [`ComChangeUser::new`] makes.
impl<'a> Default for ComChangeUser<'a> {
    ghost is_default = { λ p. change_user_view p ≡ record { user = []; scramble = []; database = []; more = None } };

    fn default() -> ComChangeUser<'a> {
        ComChangeUser::new()
    }
}

#[tactic(auto, unfolding(crate::specs::ChangedUsers::change_user))]
impl<'a> MySerialize for ComChangeUser<'a> {
    ghost written = { λ p. change_user (change_user_view p) };

    fn serialize(&self, buf: &mut Vec<u8>) -> Result<(), AllocError> {
        let header = ComChangeUserHeader::new();
        let more_data = IfHeld(&self.more_data);
        in_order!(
            header,
            self.user,
            self.auth_plugin_data,
            self.database,
            more_data,
        )
        .serialize(buf)
    }
}

/// The context is what the client can do.
impl<'a> Readable for ComChangeUser<'a> {
    type Ctx = CapabilityFlags;

    ghost AsksForMemory = { true };

    ghost Shown = { ChangeUserFields };

    ghost shown = { change_user_view };

    ghost read_at = { λ capabilities bytes. change_user_at capabilities.0 bytes };

    ghost kept = { change_user_view };

    ghost sized = { λ capabilities. unsized (change_user_at capabilities.0) };

    fn size() -> Option<usize>
        ensures { result ≡ None }
    {
        None
    }
}

// The database, and what may stand last.
#[tactic(auto, unfolding(crate::specs::ChangedUsers::database_and_more_at))]
fn database_and_more<'de>(
    alloc: Global,
    capabilities: CapabilityFlags,
    rest: &mut ParseBuf<'de>,
) -> Result<(RawBytes<'de, NullBytes>, Option<ComChangeUserMoreData<'de>>), WireError>
    ensures { GivesPart (λ parts. (text_view parts.0, option_map more_view parts.1)) rest.new.0.now
        result (database_and_more_at capabilities.0 rest.old.0.now) }
{
    let database = rest.parse(alloc, ())?;
    let follows = !rest.is_empty();
    let more_data = parse_if(alloc, follows, capabilities, rest)?;
    Ok((database, more_data))
}

#[tactic(auto, unfolding(crate::specs::ChangedUsers::change_user_at))]
impl<'de> MyDeserialize<'de> for ComChangeUser<'de> {
    // COM_CHANGE_USER:
    //   int<1>       command 11
    //   string<NUL>  user
    //   int<1>       length of auth-response
    //   string<var>  auth-response
    //   string<NUL>  database
    //   ..           more data, where bytes follow
    fn deserialize(
        alloc: Global,
        capabilities: CapabilityFlags,
        buf: &mut ParseBuf<'de>,
    ) -> Result<ComChangeUser<'de>, WireError> {
        let mut rest = *buf;
        let _: ComChangeUserHeader = rest.parse(alloc, ())?;
        let user = rest.parse(alloc, ())?;
        let auth_plugin_data = rest.parse(alloc, ())?;
        let (database, more_data) = database_and_more(alloc, capabilities, &mut rest)?;
        *buf = rest;
        Ok(ComChangeUser {
            user,
            auth_plugin_data,
            database,
            more_data,
        })
    }
}
