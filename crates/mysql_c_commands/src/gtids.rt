//! Sets of global transaction identifiers, by their text.

ghost use Rattle.std.specs.Prelude.{◌≡◌, ◌<◌, ◌++◌, ◌∷◌, ◌⊎◌, [], length, map, IfErr, IfOk, MatchOption, Ok};
ghost use Rattle.std.specs.Str.{trim};
ghost use Rattle.mysql_replication.specs.Refusals.{Gives, Refuses};
ghost use Rattle.mysql_replication.specs.Sids.{SidParts, sid_of, sid_view};
ghost use Rattle.mysql_c_handles.specs.declared.code.Code.TheVariants as code;
ghost use Rattle.mysql_c_commands.specs.Gtids.{NamesNoSids, fields_of, sids_between, sids_of};

use mysql_c_handles::Code;
use mysql_login::{Sid, SidError};
use std::alloc::Global;
use std::str::from_utf8;

/// The two parts of a text around its first comma.
fn around_comma(text: &str) -> Option<(&str, &str)>
    ensures { MatchOption result (fields_of text.now ≡ text.now ∷
        []) (λ parts. (fields_of text.now ≡ parts.0.now ∷ fields_of parts.1.now) ×
        (length parts.1.now < length text.now)) }
{
    text.split_once(',')
}

/// Puts the set that a text names behind others. White space around it is left out.
fn push_sid(alloc: Global, sids: &mut Vec<Sid<'static>>, text: &str) -> Result<(), SidError>
    ensures ok { IfOk result (λ _. (p : SidParts) × (sid_of (trim text.now) ≡ Ok p) ×
        (map sid_view sids.new.items ≡ map sid_view sids.old.items ++ p ∷ [])) }
    ensures err { IfErr result (λ e. Refuses e (sid_of (trim text.now))) }
{
    let sid = Sid::parse(alloc, text.trim())?;
    sids.push(sid)?;
    Ok(())
}

/// The sets that a text names with commas between.
fn sids_between(alloc: Global, text: &str) -> Result<Vec<Sid<'static>>, SidError>
    ensures { Gives (λ sids. map sid_view sids.items) result (sids_between (fields_of text.now)) }
{
    let mut sids = Vec::new(alloc);
    let mut rest = text;
    while let Some((front, others)) = around_comma(rest) {
        push_sid(alloc, &mut sids, front)?;
        rest = others;
    }
    push_sid(alloc, &mut sids, rest)?;
    Ok(sids)
}

/// The sets that a text names: none where there is nothing but white space.
fn sids_of(alloc: Global, text: &str) -> Result<Vec<Sid<'static>>, SidError>
    ensures { Gives (λ sids. map sid_view sids.items) result (sids_of text.now) }
{
    let text = text.trim();
    if text.is_empty() {
        return Ok(Vec::new(alloc));
    }
    sids_between(alloc, text)
}

/// The sets that bytes name.
pub(crate) fn sids_at(alloc: Global, text: &[u8]) -> Result<Vec<Sid<'static>>, Code>
    ensures ok { IfOk result (λ sids. sids_of text.now ≡ Ok (map sid_view sids.items)) }
    ensures err { IfErr result (λ e. (e ≡ code.Memory) ⊎ ((e ≡ code.BadPacket) × NamesNoSids text.now)) }
{
    let Ok(text) = from_utf8(text) else {
        return Err(Code::BadPacket);
    };
    match sids_of(alloc, text) {
        Ok(sids) => Ok(sids),
        Err(SidError::Memory) => Err(Code::Memory),
        Err(_) => Err(Code::BadPacket),
    }
}
