//! System variables of a session.

ghost use Rattle.std.specs.Prelude.{◌≡◌, IfOk, IsOkUnless, None};
ghost use Rattle.std.specs.Cow.{cow_slice_items, cow_str_bytes};
ghost use Rattle.mysql_fields.specs.Texts.{lossy_text};
ghost use Rattle.mysql_fields.specs.Laws.{unsized};
ghost use Rattle.mysql_fields.specs.declared.error.WireError.TheVariants as wire;
ghost use Rattle.mysql_ok_packets.specs.SessionStates.{IsVariable, Variable, variable, variable_at};
ghost use Rattle.mysql_ok_packets.specs.StateLaws.{variable_at-back};
ghost use Rattle.mysql_ok_packets.specs.SessionStateViews.{variable_view};

use mysql_buf::ParseBuf;
use mysql_fields::{
    LenEnc, MyDeserialize, MySerialize, RawBytes, Readable, ReadsBack, WireError, copy_bytes,
    lossy_text, own_bytes, read_lenenc_text,
};
use std::alloc::{AllocError, Global};
use std::borrow::{CowSlice, CowStr};

/// A system variable that got a value.
///
/// MySQL: Client/Server Protocol, "OK_Packet", 'Session State Information' (`SESSION_TRACK_SYSTEM_VARIABLES`).
#[derive(Debug, PartialEq, Eq, Hash, Drop)]
pub struct SystemVariable<'a> {
    name: CowSlice<'a, u8>,
    value: CowSlice<'a, u8>,
}

impl<'a> SystemVariable<'a> {
    /// The variable of this name with this value.
    pub fn new(name: CowSlice<'a, u8>, value: CowSlice<'a, u8>) -> SystemVariable<'a>
        ensures { variable_view result ≡
            record { name = cow_slice_items name.entry; value = cow_slice_items value.entry } }
    {
        SystemVariable { name, value }
    }

    /// The name, as bytes.
    pub fn name_bytes(&self) -> &[u8]
        ensures { result.now ≡ (variable_view self.now).name }
    {
        self.name.as_slice()
    }

    /// The name as text, where bytes that aren't UTF-8 are replaced.
    ///
    /// # Errors
    /// - `Memory`.
    pub fn name_str(&self, alloc: Global) -> Result<CowStr<'_>, WireError>
        ensures memory { IsOkUnless result wire.Memory }
        ensures value { IfOk result (λ text. cow_str_bytes text ≡
            lossy_text (variable_view self.now).name) }
    {
        lossy_text(alloc, self.name.as_slice())
    }

    /// The value, as bytes.
    pub fn value_bytes(&self) -> &[u8]
        ensures { result.now ≡ (variable_view self.now).value }
    {
        self.value.as_slice()
    }

    /// The value as text, where bytes that aren't UTF-8 are replaced.
    ///
    /// # Errors
    /// - `Memory`.
    pub fn value_str(&self, alloc: Global) -> Result<CowStr<'_>, WireError>
        ensures memory { IsOkUnless result wire.Memory }
        ensures value { IfOk result (λ text. cow_str_bytes text ≡
            lossy_text (variable_view self.now).value) }
    {
        lossy_text(alloc, self.value.as_slice())
    }

    /// The value in bytes of its own: it borrows nothing.
    ///
    /// # Errors
    /// - `AllocError` for want of memory.
    pub fn into_owned<'b>(self, alloc: Global) -> Result<SystemVariable<'b>, AllocError>
        ensures { IfOk result (λ same. variable_view same ≡ variable_view self.entry) }
    {
        let name = own_bytes(alloc, self.name)?;
        let value = own_bytes(alloc, self.value)?;
        Ok(SystemVariable { name, value })
    }

    /// A copy, which borrows nothing.
    ///
    /// # Errors
    /// - `AllocError` for want of memory.
    pub fn clone<'b>(&self, alloc: Global) -> Result<SystemVariable<'b>, AllocError>
        ensures { IfOk result (λ copy. variable_view copy ≡ variable_view self.now) }
    {
        let name = copy_bytes(alloc, self.name.as_slice())?;
        let value = copy_bytes(alloc, self.value.as_slice())?;
        Ok(SystemVariable { name, value })
    }
}

/// The name and the value, each after its length.
#[tactic(auto, unfolding(crate::specs::SessionStates::variable))]
impl<'a> MySerialize for SystemVariable<'a> {
    ghost written = { λ v. variable (variable_view v) };

    fn serialize(&self, buf: &mut Vec<u8>) -> Result<(), AllocError> {
        let name: RawBytes<LenEnc> = RawBytes::from(self.name.as_slice());
        let value: RawBytes<LenEnc> = RawBytes::from(self.value.as_slice());
        (name, value).serialize(buf)
    }
}

impl<'a> Readable for SystemVariable<'a> {
    type Ctx = ();

    ghost Shown = { Variable };

    ghost shown = { variable_view };

    ghost kept = { variable_view };

    ghost read_at = { λ _ bytes. variable_at bytes };

    ghost IsReadBack = { λ _ v _. IsVariable (variable_view v) };

    ghost sized = { λ _. unsized variable_at };

    fn size() -> Option<usize>
        ensures { result ≡ None }
    {
        None
    }
}

impl<'a> ReadsBack for SystemVariable<'a> {
    ghost reads_back = { λ _ v. variable_at-back (variable_view v) };
}

/// Refused by `UnexpectedEof` where the name or the value is cut off.
#[tactic(auto, unfolding(crate::specs::SessionStates::variable_at))]
impl<'de> MyDeserialize<'de> for SystemVariable<'de> {
    // SESSION_TRACK_SYSTEM_VARIABLES:
    //   string<lenenc>  name
    //   string<lenenc>  value
    fn deserialize(
        _alloc: Global,
        _ctx: (),
        buf: &mut ParseBuf<'de>,
    ) -> Result<SystemVariable<'de>, WireError> {
        let mut rest = *buf;
        let name = CowSlice::Borrowed(read_lenenc_text(&mut rest)?);
        let value = CowSlice::Borrowed(read_lenenc_text(&mut rest)?);
        *buf = rest;
        Ok(SystemVariable { name, value })
    }
}
