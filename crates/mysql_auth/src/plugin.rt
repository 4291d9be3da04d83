//! Authentication plugins, by the names that the packets of logging in carry.
//!
//!     let plugin = AuthPlugin::from_bytes(b"caching_sha2_password");
//!     let name = plugin.as_bytes();

ghost use Rattle.std.specs.Prelude.{◌≡◌, ◌++◌, ◌∷◌, [], IfOk, MatchOption, None, Ok, Some};
ghost use Rattle.mysql_auth.specs.Plugins.{Keeps, Plugin, plugin_name, plugin_named, plugin_at, with_data};
ghost use Rattle.mysql_auth.specs.Plugins.{without_zero};
ghost use Rattle.mysql_auth.specs.Views.{plugin_view};
ghost use Rattle.mysql_fields.specs.Laws.{unsized};

use crate::parsec::parse_parsec_salt;
use crate::zero::{put_with_zero, without_zero};
use mysql_buf::ParseBuf;
use mysql_fields::{MyDeserialize, MySerialize, Readable, WireError, own_bytes};
use std::alloc::{AllocError, Global};
use std::borrow::CowSlice;

const MYSQL_OLD_PASSWORD_PLUGIN_NAME: &[u8] = b"mysql_old_password";

const MYSQL_NATIVE_PASSWORD_PLUGIN_NAME: &[u8] = b"mysql_native_password";

const CACHING_SHA2_PASSWORD_PLUGIN_NAME: &[u8] = b"caching_sha2_password";

const MYSQL_CLEAR_PASSWORD_PLUGIN_NAME: &[u8] = b"mysql_clear_password";

const ED25519_PLUGIN_NAME: &[u8] = b"client_ed25519";

const PARSEC_PLUGIN_NAME: &[u8] = b"parsec";

/// An authentication plugin.
/// (MySQL: Client/Server Protocol, "Authentication Methods"; MariaDB: "Pluggable Authentication".)
///
/// Promise: a plugin has the name that it was made of, without a zero at its end (`plugin_named`,
/// `plugin_name`).
#[derive(Debug, PartialEq, Eq, Hash, Drop)]
pub enum AuthPlugin<'a> {
    /// Old password authentication.
    MysqlOldPassword,
    /// Native password authentication.
    MysqlNativePassword,
    /// Cached SHA-2 authentication.
    CachingSha2Password,
    /// Authentication by a password in clear text.
    MysqlClearPassword,
    /// MariaDB's authentication by ed25519.
    Ed25519,
    /// MariaDB's PARSEC: a password's key is derived by so many iterations, with this salt. Both are
    /// zero until the server has told them.
    MariadbParsec {
        /// The iterations.
        iterations: u32,
        /// The salt.
        ext_salt: [u8; 18],
    },
    /// Another plugin, by its name.
    Other(CowSlice<'a, u8>),
}

impl<'a> AuthPlugin<'a> {
    /// The plugin of a name, of which one trailing zero is dropped.
    /// (MySQL: Client/Server Protocol, "Authentication Methods".)
    pub fn from_bytes(name: &'a [u8]) -> AuthPlugin<'a>
        ensures { plugin_view result ≡ plugin_named (without_zero name.now) }
    {
        let name = without_zero(name);
        if name == MYSQL_OLD_PASSWORD_PLUGIN_NAME {
            AuthPlugin::MysqlOldPassword
        } else if name == MYSQL_NATIVE_PASSWORD_PLUGIN_NAME {
            AuthPlugin::MysqlNativePassword
        } else if name == CACHING_SHA2_PASSWORD_PLUGIN_NAME {
            AuthPlugin::CachingSha2Password
        } else if name == MYSQL_CLEAR_PASSWORD_PLUGIN_NAME {
            AuthPlugin::MysqlClearPassword
        } else if name == ED25519_PLUGIN_NAME {
            AuthPlugin::Ed25519
        } else if name == PARSEC_PLUGIN_NAME {
            AuthPlugin::MariadbParsec {
                iterations: 0,
                ext_salt: [0; 18],
            }
        } else {
            AuthPlugin::Other(CowSlice::Borrowed(name))
        }
    }

    /// The plugin's name.
    pub fn as_bytes(&self) -> &[u8]
        ensures { result.now ≡ plugin_name (plugin_view self.now) }
    {
        match self {
            AuthPlugin::MysqlOldPassword => MYSQL_OLD_PASSWORD_PLUGIN_NAME,
            AuthPlugin::MysqlNativePassword => MYSQL_NATIVE_PASSWORD_PLUGIN_NAME,
            AuthPlugin::CachingSha2Password => CACHING_SHA2_PASSWORD_PLUGIN_NAME,
            AuthPlugin::MysqlClearPassword => MYSQL_CLEAR_PASSWORD_PLUGIN_NAME,
            AuthPlugin::Ed25519 => ED25519_PLUGIN_NAME,
            AuthPlugin::MariadbParsec { .. } => PARSEC_PLUGIN_NAME,
            AuthPlugin::Other(name) => name.as_slice(),
        }
    }

    /// The plugin, borrowed from this one.
    pub fn borrow(&self) -> AuthPlugin<'_>
        ensures { plugin_view result ≡ plugin_view self.now }
    {
        match self {
            AuthPlugin::MysqlOldPassword => AuthPlugin::MysqlOldPassword,
            AuthPlugin::MysqlNativePassword => AuthPlugin::MysqlNativePassword,
            AuthPlugin::CachingSha2Password => AuthPlugin::CachingSha2Password,
            AuthPlugin::MysqlClearPassword => AuthPlugin::MysqlClearPassword,
            AuthPlugin::Ed25519 => AuthPlugin::Ed25519,
            AuthPlugin::MariadbParsec {
                iterations,
                ext_salt,
            } => AuthPlugin::MariadbParsec {
                iterations: *iterations,
                ext_salt: *ext_salt,
            },
            AuthPlugin::Other(name) => AuthPlugin::Other(CowSlice::Borrowed(name.as_slice())),
        }
    }

    /// The plugin in bytes of its own: it borrows nothing.
    ///
    /// # Errors
    /// - `AllocError` for want of memory.
    pub fn into_owned(self, alloc: Global) -> Result<AuthPlugin<'static>, AllocError>
        ensures { IfOk result (λ plugin. plugin_view plugin ≡ plugin_view self.entry) }
    {
        Ok(match self {
            AuthPlugin::MysqlOldPassword => AuthPlugin::MysqlOldPassword,
            AuthPlugin::MysqlNativePassword => AuthPlugin::MysqlNativePassword,
            AuthPlugin::CachingSha2Password => AuthPlugin::CachingSha2Password,
            AuthPlugin::MysqlClearPassword => AuthPlugin::MysqlClearPassword,
            AuthPlugin::Ed25519 => AuthPlugin::Ed25519,
            AuthPlugin::MariadbParsec {
                iterations,
                ext_salt,
            } => AuthPlugin::MariadbParsec {
                iterations,
                ext_salt,
            },
            AuthPlugin::Other(name) => { AuthPlugin::Other(own_bytes(alloc, name)?) }
        })
    }

    /// A copy of the plugin, which borrows nothing.
    ///
    /// # Errors
    /// - `AllocError` for want of memory.
    pub fn clone(&self, alloc: Global) -> Result<AuthPlugin<'static>, AllocError>
        ensures { IfOk result (λ plugin. plugin_view plugin ≡ plugin_view self.now) }
    {
        self.borrow().into_owned(alloc)
    }

    /// Takes what the plugin needs beside the first data from a server's packet.
    ///
    /// For PARSEC that is the iterations and the salt, by [`parse_parsec_salt`]. None, and nothing
    /// changes, where the packet doesn't hold them, and for each other plugin. (MariaDB:
    /// "Authentication Plugin - PARSEC".)
    pub fn read_add_data(&mut self, payload: &[u8]) -> Option<()>
        ensures { MatchOption result
            (Keeps payload.now (plugin_view self.old) (plugin_view self.new))
            (λ _. with_data payload.now (plugin_view self.old) ≡ Some (plugin_view self.new)) }
    {
        let AuthPlugin::MariadbParsec { .. } = self else {
            return None;
        };
        let (iterations, salt) = parse_parsec_salt(payload)?;
        *self = AuthPlugin::MariadbParsec {
            iterations,
            ext_salt: *salt,
        };
        Some(())
    }
}

impl<'a> MySerialize for AuthPlugin<'a> {
    ghost written = { λ plugin. plugin_name (plugin_view plugin) ++ 0 ∷ [] };

    fn serialize(&self, buf: &mut Vec<u8>) -> Result<(), AllocError> {
        put_with_zero(self.as_bytes(), buf)
    }
}

/// All bytes to the end, of which one trailing zero is dropped, name a plugin.
impl<'a> Readable for AuthPlugin<'a> {
    type Ctx = ();

    ghost Shown = { Plugin };

    ghost shown = { plugin_view };

    ghost read_at = { λ _ bytes. plugin_at bytes };

    ghost kept = { plugin_view };

    ghost sized = { λ _. unsized plugin_at };

    fn size() -> Option<usize>
        ensures { result ≡ None }
    {
        None
    }
}

impl<'de> MyDeserialize<'de> for AuthPlugin<'de> {
    fn deserialize(
        _alloc: Global,
        _ctx: (),
        buf: &mut ParseBuf<'de>,
    ) -> Result<AuthPlugin<'de>, WireError> {
        Ok(AuthPlugin::from_bytes(buf.eat_all()))
    }
}
