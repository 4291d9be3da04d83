//! Whether two changes of user say the same, and the parts of which a login has some too.

ghost use Rattle.std.specs.Prelude.{◌≡◌, ◌↔◌, IsTrue, option_map, slice_get};
ghost use Rattle.mysql_auth.specs.Views.{plugin_view};
ghost use Rattle.mysql_handshake_response.specs.AttributeViews.{attributes_view};
ghost use Rattle.mysql_login.specs.ChangedUserViews.{change_user_view, more_view};

use mysql_auth::AuthPlugin;
use mysql_handshake_response::ConnectAttributes;
use mysql_login::{ComChangeUser, ComChangeUserMoreData};

/// Two plugins of the same kind, with the same parts.
fn same_plugin(one: &AuthPlugin, other: &AuthPlugin) -> bool
    ensures { IsTrue result ↔ (plugin_view one.now ≡ plugin_view other.now) }
{
    match (one, other) {
        (AuthPlugin::MysqlOldPassword, AuthPlugin::MysqlOldPassword) => true,
        (AuthPlugin::MysqlNativePassword, AuthPlugin::MysqlNativePassword) => true,
        (AuthPlugin::CachingSha2Password, AuthPlugin::CachingSha2Password) => true,
        (AuthPlugin::MysqlClearPassword, AuthPlugin::MysqlClearPassword) => true,
        (AuthPlugin::Ed25519, AuthPlugin::Ed25519) => true,
        (
            AuthPlugin::MariadbParsec {
                iterations,
                ext_salt,
            },
            AuthPlugin::MariadbParsec {
                iterations: n,
                ext_salt: salt,
            },
        ) => *iterations == *n && ext_salt.as_slice() == salt.as_slice(),
        (AuthPlugin::Other(name), AuthPlugin::Other(text)) => name.as_slice() == text.as_slice(),
        _ => false,
    }
}

/// Two plugins that are the same, or none of both.
pub fn same_plugins(one: Option<&AuthPlugin>, other: Option<&AuthPlugin>) -> bool
    ensures { IsTrue result ↔
        (option_map (λ p. plugin_view p.now) one.entry ≡ option_map (λ p. plugin_view p.now) other.entry) }
{
    match (one, other) {
        (Some(one), Some(other)) => same_plugin(one, other),
        (None, None) => true,
        _ => false,
    }
}

/// Whether the attributes at a place are the same.
fn same_pair(one: &ConnectAttributes, other: &ConnectAttributes, place: usize) -> bool
    ensures { IsTrue result ↔
        (slice_get (attributes_view one.now) place ≡ slice_get (attributes_view other.now) place) }
{
    match (one.pair(place), other.pair(place)) {
        (Some((key, value)), Some((name, text))) => key == name && value == text,
        (None, None) => true,
        _ => false,
    }
}

/// Attributes that are the same in the same order.
fn same_attributes(one: &ConnectAttributes, other: &ConnectAttributes) -> bool
    ensures { IsTrue result ↔ (attributes_view one.now ≡ attributes_view other.now) }
{
    if one.len() != other.len() {
        return false;
    }
    for place in 0..one.len() {
        if !same_pair(one, other, place) {
            return false;
        }
    }
    true
}

/// Attributes that are the same, or none of both.
pub fn same_all(one: Option<&ConnectAttributes>, other: Option<&ConnectAttributes>) -> bool
    ensures { IsTrue result ↔
        (option_map (λ all. attributes_view all.now) one.entry ≡
        option_map (λ all. attributes_view all.now) other.entry) }
{
    match (one, other) {
        (Some(one), Some(other)) => same_attributes(one, other),
        (None, None) => true,
        _ => false,
    }
}

/// What may stand last is the same.
fn same_more(one: &ComChangeUserMoreData, other: &ComChangeUserMoreData) -> bool
    ensures { IsTrue result ↔ (more_view one.now ≡ more_view other.now) }
{
    one.character_set() == other.character_set()
        && same_plugins(one.auth_plugin(), other.auth_plugin())
        && same_all(one.attributes(), other.attributes())
}

/// What may stand last is the same, or is in none of both.
fn same_last(one: Option<&ComChangeUserMoreData>, other: Option<&ComChangeUserMoreData>) -> bool
    ensures { IsTrue result ↔
        (option_map (λ more. more_view more.now) one.entry ≡ option_map (λ more. more_view more.now) other.entry) }
{
    match (one, other) {
        (Some(one), Some(other)) => same_more(one, other),
        (None, None) => true,
        _ => false,
    }
}

/// Whether two changes of user say the same.
pub(crate) fn same_login(one: &ComChangeUser, other: &ComChangeUser) -> bool
    ensures { IsTrue result ↔ (change_user_view one.now ≡ change_user_view other.now) }
{
    one.user() == other.user()
        && one.auth_plugin_data() == other.auth_plugin_data()
        && one.database() == other.database()
        && same_last(one.more_data(), other.more_data())
}
