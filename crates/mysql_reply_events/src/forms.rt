//! Which form a payload has: by its first bytes, its length and what is agreed on.

ghost use Rattle.std.specs.Prelude.{◌≡◌};
ghost use Rattle.mysql_reply_events.specs.Readings.{begins_ok, begins_terminator, has_report_form, has_reports};
ghost use Rattle.mysql_reply_events.specs.Readings.{reports_progress};

use crate::context::{Context, ReplyKind};
use bitflags::Flags;
use mysql_const::{CapabilityFlags, MariadbCapabilities};
use mysql_row_refs::{limit_of_terminators, starts_with};

/// Progress is reported.
#[tactic(auto, unfolding(bitflags::proofs::OnLiterals::bitflags_on_literals))]
fn reports_progress(context: Context) -> bool
    ensures { result ≡ reports_progress context }
{
    let protocol = context.capabilities.protocol;
    let mariadb = context.capabilities.mariadb;
    protocol.contains(CapabilityFlags::CLIENT_PROGRESS_OBSOLETE)
        || mariadb.contains(MariadbCapabilities::MARIADB_CLIENT_PROGRESS)
}

/// Progress reports may stand in a reply of this kind.
fn has_reports(kind: ReplyKind) -> bool
    ensures { result ≡ has_reports kind }
{
    match kind {
        ReplyKind::Line => false,
        _ => true,
    }
}

/// The payload has the form of a progress report.
pub fn is_report_like(context: Context, payload: &[u8]) -> bool
    ensures { result ≡ has_report_form context payload.now }
{
    has_reports(context.kind)
        && reports_progress(context)
        && payload.len() >= 3
        && payload[0] == 255
        && payload[1] == 255
        && payload[2] == 255
}

/// The payload begins an OK packet, and no count of columns that don't follow.
pub fn begins_ok(context: Context, payload: &[u8]) -> bool
    ensures { result ≡ begins_ok context payload.now }
{
    starts_with(payload, 0) && (!context.has_optional_metadata() || payload.len() > 6)
}

/// The payload begins a terminator.
pub fn begins_terminator(context: Context, payload: &[u8]) -> bool
    ensures { result ≡ begins_terminator context payload.now }
{
    starts_with(payload, 254) && payload.len() < limit_of_terminators(context.deprecates_eof())
}
