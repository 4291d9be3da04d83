//! Changes of a session's state that are one text.

ghost use Rattle.std.specs.Prelude.{◌≡◌, ◌<◌, ◌^◌, IfOk, IsOkUnless, List, None, Ok, [], length, ℕ};
ghost use Rattle.std.specs.Cow.{cow_slice_items, cow_str_bytes};
ghost use Rattle.mysql_fields.specs.Texts.{lossy_text};
ghost use Rattle.mysql_buf.specs.Writing.{lenenc_str};
ghost use Rattle.mysql_fields.specs.Laws.{unsized};
ghost use Rattle.mysql_fields.specs.declared.error.WireError.TheVariants as wire;
ghost use Rattle.mysql_fields.specs.TextLaws.{all-back, lenenc_text_at-back};
ghost use Rattle.mysql_fields.specs.Texts.{lenenc_text_at};
ghost use Rattle.mysql_ok_packets.specs.SessionStates.{rest_at};
ghost use Rattle.mysql_ok_packets.specs.SessionStateViews.{gtids_view, text_view};

use mysql_buf::{BufMutExt, ParseBuf};
use mysql_fields::{
    MyDeserialize, MySerialize, Readable, ReadsBack, WireError, copy_bytes, lossy_text, own_bytes,
    read_lenenc_text,
};
use std::alloc::{AllocError, Global};
use std::borrow::{CowSlice, CowStr};

/// The GTIDs of a transaction that was committed, as a text that stands to the end.
///
/// MySQL: Client/Server Protocol, "OK_Packet", 'Session State Information' (`SESSION_TRACK_GTIDS`).
#[derive(Debug, PartialEq, Eq, Hash, Drop)]
pub struct Gtids<'a>(CowSlice<'a, u8>);

impl<'a> Gtids<'a> {
    /// GTIDs of this text.
    pub fn new(text: CowSlice<'a, u8>) -> Gtids<'a>
        ensures { gtids_view result ≡ cow_slice_items text.entry }
    {
        Gtids(text)
    }

    /// The text, as bytes.
    pub fn as_bytes(&self) -> &[u8]
        ensures { result.now ≡ gtids_view self.now }
    {
        self.0.as_slice()
    }

    /// The text as text, where bytes that aren't UTF-8 are replaced.
    ///
    /// # Errors
    /// - `Memory`.
    pub fn as_str(&self, alloc: Global) -> Result<CowStr<'_>, WireError>
        ensures memory { IsOkUnless result wire.Memory }
        ensures value { IfOk result (λ text. cow_str_bytes text ≡ lossy_text (gtids_view self.now)) }
    {
        lossy_text(alloc, self.0.as_slice())
    }

    /// The value in bytes of its own: it borrows nothing.
    ///
    /// # Errors
    /// - `AllocError` for want of memory.
    pub fn into_owned(self, alloc: Global) -> Result<Gtids<'static>, AllocError>
        ensures { IfOk result (λ same. gtids_view same ≡ gtids_view self.entry) }
    {
        Ok(Gtids(own_bytes(alloc, self.0)?))
    }

    /// A copy, which borrows nothing.
    ///
    /// # Errors
    /// - `AllocError` for want of memory.
    pub fn clone(&self, alloc: Global) -> Result<Gtids<'static>, AllocError>
        ensures { IfOk result (λ copy. gtids_view copy ≡ gtids_view self.now) }
    {
        Ok(Gtids(copy_bytes(alloc, self.0.as_slice())?))
    }
}

impl<'a> MySerialize for Gtids<'a> {
    ghost written = { λ text. gtids_view text };

    fn serialize(&self, buf: &mut Vec<u8>) -> Result<(), AllocError> {
        buf.extend_from_slice(self.0.as_slice())
    }
}

impl<'a> Readable for Gtids<'a> {
    type Ctx = ();

    ghost Shown = { List ℕ };

    ghost shown = { gtids_view };

    ghost kept = { gtids_view };

    ghost read_at = { λ _ bytes. rest_at bytes };

    ghost IsReadBack = { λ _ _ rest. rest ≡ [] };

    ghost sized = { λ _. unsized rest_at };

    fn size() -> Option<usize>
        ensures { result ≡ None }
    {
        None
    }
}

impl<'a> ReadsBack for Gtids<'a> {
    ghost reads_back = { λ _ text rest. all-back (gtids_view text) rest };
}

/// All bytes to the end; never refused.
impl<'de> MyDeserialize<'de> for Gtids<'de> {
    fn deserialize(
        _alloc: Global,
        _ctx: (),
        buf: &mut ParseBuf<'de>,
    ) -> Result<Gtids<'de>, WireError> {
        Ok(Gtids(CowSlice::Borrowed(buf.eat_all())))
    }
}

/// The text of a change of a session's state. `TYPE` is the number of the change's type.
///
/// Its names are [`Schema`], [`TransactionCharacteristics`], [`TransactionState`] and
/// [`Unsupported`].
///
/// MySQL: Client/Server Protocol, "OK_Packet", 'Session State Information'.
#[derive(Debug, PartialEq, Eq, Hash, Drop)]
pub struct StateText<'a, const TYPE: u8>(CowSlice<'a, u8>);

/// The schema that became the default, by its name.
///
/// MySQL: Client/Server Protocol, "OK_Packet", 'Session State Information' (`SESSION_TRACK_SCHEMA`).
pub type Schema<'a> = StateText<'a, 1>;

/// The statements that would begin a transaction as the session's next one.
///
/// Each is ended by a semicolon; there are none where nothing was set.
///
/// MySQL: Client/Server Protocol, "OK_Packet", 'Session State Information'
/// (`SESSION_TRACK_TRANSACTION_CHARACTERISTICS`).
pub type TransactionCharacteristics<'a> = StateText<'a, 4>;

/// The state of the session's transaction, a letter for each of its properties.
///
/// MySQL: Client/Server Protocol, "OK_Packet", 'Session State Information' (`SESSION_TRACK_TRANSACTION_STATE`).
pub type TransactionState<'a> = StateText<'a, 5>;

/// The data of a change whose type has no name. No type has the number 255.
///
/// MySQL: Client/Server Protocol, "OK_Packet", 'Session State Information'.
pub type Unsupported<'a> = StateText<'a, 255>;

impl<'a, const TYPE: u8> StateText<'a, TYPE> {
    /// A change to this text.
    pub fn new(text: CowSlice<'a, u8>) -> StateText<'a, TYPE>
        ensures { text_view result ≡ cow_slice_items text.entry }
    {
        StateText(text)
    }

    /// The text, as bytes.
    pub fn as_bytes(&self) -> &[u8]
        ensures { result.now ≡ text_view self.now }
    {
        self.0.as_slice()
    }

    /// The text as text, where bytes that aren't UTF-8 are replaced.
    ///
    /// # Errors
    /// - `Memory`.
    pub fn as_str(&self, alloc: Global) -> Result<CowStr<'_>, WireError>
        ensures memory { IsOkUnless result wire.Memory }
        ensures value { IfOk result (λ text. cow_str_bytes text ≡
            lossy_text (text_view self.now)) }
    {
        lossy_text(alloc, self.0.as_slice())
    }

    /// The value in bytes of its own: it borrows nothing.
    ///
    /// # Errors
    /// - `AllocError` for want of memory.
    pub fn into_owned(self, alloc: Global) -> Result<StateText<'static, TYPE>, AllocError>
        ensures { IfOk result (λ same. text_view same ≡ text_view self.entry) }
    {
        Ok(StateText(own_bytes(alloc, self.0)?))
    }

    /// A copy, which borrows nothing.
    ///
    /// # Errors
    /// - `AllocError` for want of memory.
    pub fn clone(&self, alloc: Global) -> Result<StateText<'static, TYPE>, AllocError>
        ensures { IfOk result (λ copy. text_view copy ≡ text_view self.now) }
    {
        Ok(StateText(copy_bytes(alloc, self.0.as_slice())?))
    }
}

impl<'a, const TYPE: u8> MySerialize for StateText<'a, TYPE> {
    ghost written = { λ text. lenenc_str (text_view text) };

    fn serialize(&self, buf: &mut Vec<u8>) -> Result<(), AllocError> {
        buf.put_lenenc_str(self.0.as_slice())
    }
}

impl<'a, const TYPE: u8> Readable for StateText<'a, TYPE> {
    type Ctx = ();

    ghost Shown = { List ℕ };

    ghost shown = { text_view };

    ghost kept = { text_view };

    ghost read_at = { λ _ bytes. lenenc_text_at bytes };

    ghost IsReadBack = { λ _ text _. length (text_view text) < 2 ^ 64 };

    ghost sized = { λ _. unsized lenenc_text_at };

    fn size() -> Option<usize>
        ensures { result ≡ None }
    {
        None
    }
}

impl<'a, const TYPE: u8> ReadsBack for StateText<'a, TYPE> {
    ghost reads_back = { λ _ text rest. lenenc_text_at-back (text_view text) rest };
}

/// A text after its length. Refused by `UnexpectedEof` where it is cut off.
impl<'de, const TYPE: u8> MyDeserialize<'de> for StateText<'de, TYPE> {
    fn deserialize(
        _alloc: Global,
        _ctx: (),
        buf: &mut ParseBuf<'de>,
    ) -> Result<StateText<'de, TYPE>, WireError> {
        Ok(StateText(CowSlice::Borrowed(read_lenenc_text(buf)?)))
    }
}
