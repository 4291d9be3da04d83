//! A server's payloads of an authentication, by the capabilities in force.
//!
//!     match read_authentication(alloc, capabilities.protocol, payload)? {
//!         AuthenticationEvent::Accepted(packet) => done(packet),
//!         AuthenticationEvent::AuthSwitch(request) => go_on(request.auth_plugin()),
//!         ..
//!     }

ghost use Rattle.std.specs.Prelude.{◌≡◌};
ghost use Rattle.mysql_auth.specs.Packets.{next_factor_at, switch_at};
ghost use Rattle.mysql_authentication.specs.Events.{Accepted, AuthSwitch, Denied, NextFactor};
ghost use Rattle.mysql_authentication.specs.Readings.{Answers, authentication_at, multi_factor, or_fault, switch_of};
ghost use Rattle.mysql_authentication.specs.Views.{authentication_view};
ghost use Rattle.mysql_authentication.specs.declared.fault.LoginFault.TheVariants.{BadError, BadOk, BadSwitch};
ghost use Rattle.mysql_field_constants.specs.Flags.{contains};
ghost use Rattle.mysql_ok_packets.specs.OkPackets.{ok_packet_at};
ghost use Rattle.mysql_server_packets.specs.Packets.{error_at};

use crate::events::AuthenticationEvent;
use crate::fault::LoginFault;
use bitflags::Flags;
use mysql_auth::{AuthMoreData, AuthNextFactor, AuthSwitchRequest, OldAuthSwitchRequest};
use mysql_buf::ParseBuf;
use mysql_const::CapabilityFlags;
use mysql_fields::ParseExt;
use mysql_ok_packets::{CommonOkPacket, OkPacketDeserializer};
use mysql_server_packets::err_packet::server_error_of;
use std::alloc::Global;
use std::borrow::CowSlice;

// Whether more than one plugin may log a user in.
pub(crate) fn has_factors(capabilities: CapabilityFlags) -> bool
    ensures { result ≡ contains capabilities.0 multi_factor }
{
    capabilities.contains(CapabilityFlags::MULTI_FACTOR_AUTHENTICATION)
}

// The OK packet.
#[tactic(auto, unfolding(mysql_ok_packets::specs::OkPackets::ok_packet_at))]
fn accepted(
    alloc: Global,
    capabilities: CapabilityFlags,
    payload: &[u8],
) -> Result<AuthenticationEvent<'_>, LoginFault>
    ensures { Answers authentication_view result (or_fault BadOk Accepted (ok_packet_at capabilities.0 payload.now)) }
{
    let mut rest = ParseBuf(payload);
    match rest.parse::<OkPacketDeserializer<CommonOkPacket>>(alloc, capabilities) {
        Ok(read) => Ok(AuthenticationEvent::Accepted(read.into_inner())),
        Err(_) => Err(LoginFault::BadOk),
    }
}

// The error.
fn denied(
    alloc: Global,
    capabilities: CapabilityFlags,
    payload: &[u8],
) -> Result<AuthenticationEvent<'_>, LoginFault>
    ensures { Answers authentication_view result (or_fault BadError Denied (error_at capabilities.0 payload.now)) }
{
    let mut rest = ParseBuf(payload);
    match server_error_of(alloc, capabilities, &mut rest) {
        Ok(error) => Ok(AuthenticationEvent::Denied(error)),
        Err(_) => Err(LoginFault::BadError),
    }
}

// The request for another plugin, by its name.
fn switched(alloc: Global, payload: &[u8]) -> Result<AuthenticationEvent<'_>, LoginFault>
    ensures { Answers authentication_view result (or_fault BadSwitch AuthSwitch (switch_at payload.now)) }
{
    let mut rest = ParseBuf(payload);
    match rest.parse::<AuthSwitchRequest>(alloc, ()) {
        Ok(request) => Ok(AuthenticationEvent::AuthSwitch(request)),
        Err(_) => Err(LoginFault::BadSwitch),
    }
}

// The request for another plugin, which fe alone begins.
fn switch_of(alloc: Global, payload: &[u8]) -> Result<AuthenticationEvent<'_>, LoginFault>
    ensures { Answers authentication_view result (switch_of payload.now) }
{
    match payload {
        [] => Err(LoginFault::BadSwitch),
        [_] => Ok(AuthenticationEvent::OldAuthSwitch(OldAuthSwitchRequest)),
        [..] => switched(alloc, payload),
    }
}

// The request for one more plugin.
fn next_factor(alloc: Global, payload: &[u8]) -> Result<AuthenticationEvent<'_>, LoginFault>
    ensures { Answers authentication_view result (or_fault BadSwitch NextFactor (next_factor_at payload.now)) }
{
    let mut rest = ParseBuf(payload);
    match rest.parse::<AuthNextFactor>(alloc, ()) {
        Ok(request) => Ok(AuthenticationEvent::NextFactor(request)),
        Err(_) => Err(LoginFault::BadSwitch),
    }
}

/// Reads a server's payload of an authentication, by the capabilities in force. The authentication
/// is that of a login or of a change of user.
///
/// The first byte tells what the payload is. Byte 00 is an OK packet, and ff an error. Byte fe is a
/// request for another plugin: alone it is one for the plugin of old passwords. Byte 01 is data of
/// the plugin. Byte 02 is a request for one more plugin, where `MULTI_FACTOR_AUTHENTICATION` is in
/// force. Any other is the first one of a plugin's data. Bytes behind the fields of an OK packet
/// are passed over.
///
/// Promise: what is answered is a function of the payload and of the capabilities
/// (`authentication_at`).
///
/// # Errors
/// - `BadHeader` where the payload is empty.
/// - `BadOk`, `BadError` for an OK packet and an error that can't be read.
/// - `BadSwitch` where no zero ends a plugin's name.
///
/// MySQL: Client/Server Protocol, "Connection Phase", "Protocol::AuthSwitchRequest",
/// "Protocol::AuthMoreData", "Protocol::AuthNextFactor".
#[tactic(auto, unfolding(crate::specs::Readings::authentication_at))]
pub fn read_authentication(
    alloc: Global,
    capabilities: CapabilityFlags,
    payload: &[u8],
) -> Result<AuthenticationEvent<'_>, LoginFault>
    ensures { Answers authentication_view result (authentication_at capabilities.0 payload.now) }
{
    let [first, data @ ..] = payload else {
        return Err(LoginFault::BadHeader);
    };
    match *first {
        0 => accepted(alloc, capabilities, payload),
        0xff => denied(alloc, capabilities, payload),
        0xfe => switch_of(alloc, payload),
        1 => {
            let more = AuthMoreData::new(CowSlice::Borrowed(data));
            Ok(AuthenticationEvent::AuthMore(more))
        }
        2 if has_factors(capabilities) => next_factor(alloc, payload),
        _ => Ok(AuthenticationEvent::PluginData(CowSlice::Borrowed(payload))),
    }
}
