//! The attributes of a connection: pairs of texts, such as the client's name and version.
//!
//!     let attributes = ConnectAttributes::from_texts(alloc, texts)?;
//!     attributes.serialize(&mut payload)?;

ghost use Rattle.std.specs.Prelude.{◌≡◌, IfOk, IfSome, List, None, [], ◌∷◌, ◌++◌, length, map, slice_get, IsOkUnless};
ghost use Rattle.std.specs.Prelude.{option_map, true};
ghost use Rattle.std.specs.Cow.{cow_slice_items};
ghost use Rattle.std.specs.List.{flat_map};
ghost use Rattle.std.specs.String.{string_bytes};
ghost use Rattle.mysql_handshake_response.specs.Attributes.{Attribute, attribute, attribute_at, attributes};
ghost use Rattle.mysql_handshake_response.specs.Attributes.{all_attributes_at, attributes_at, last_value};
ghost use Rattle.mysql_handshake_response.specs.AttributeViews.{attributes_view, lossy_attribute};
ghost use Rattle.mysql_fields.specs.Texts.{lossy_text};
ghost use Rattle.mysql_handshake_response.specs.AttributeViews.{shown_attribute, text_attribute};
ghost use Rattle.mysql_fields.specs.Laws.{unsized};
ghost use Rattle.mysql_fields.specs.Wire.{Appends, GivesPart, TellsPart};
ghost use Rattle.mysql_fields.specs.declared.error.WireError.TheVariants as wire;

use bstr::ByteSlice;
use indexmap::IndexMap;
use mysql_buf::{BufMutExt, ParseBuf, lenenc_str_len};
use mysql_fields::{
    BytesRepr, LenEnc, MyDeserialize, MySerialize, ParseExt, RawBytes, RawInt, Readable, WireError,
};
use std::alloc::{AllocError, Global};
use std::borrow::CowSlice;

/// The attributes of a connection: a list of keys and values, in the order in which they came.
///
/// Of attributes with the same key each stands in the list. No key is hashed, since a peer chooses
/// it. (MySQL: Client/Server Protocol, "Protocol::HandshakeResponse41".)
///
/// Reading is refused by `UnexpectedEof` where the total or the bytes that it counts are cut off.
/// The same holds where an attribute doesn't end within them. Reading is refused by `Memory` too.
///
/// Promise: each attribute that is read stands in the list, in its order. What was written is read
/// back as the same list, whatever follows (`attributes`, `attributes_at`).
#[derive(Debug, PartialEq, Eq, Drop)]
pub struct ConnectAttributes<'a> {
    entries: Vec<(RawBytes<'a, LenEnc>, RawBytes<'a, LenEnc>)>,
}

impl<'a> ConnectAttributes<'a> {
    // No attributes.
    fn new(alloc: Global) -> ConnectAttributes<'a>
        ensures { attributes_view result ≡ [] }
    {
        ConnectAttributes {
            entries: Vec::new(alloc),
        }
    }

    // No attributes, with room for so many.
    fn with_room(alloc: Global, count: usize) -> Result<ConnectAttributes<'a>, AllocError>
        ensures { IfOk result (λ all. attributes_view all ≡ []) }
    {
        Ok(ConnectAttributes {
            entries: Vec::with_capacity(alloc, count)?,
        })
    }

    // Puts one more attribute behind the others.
    fn put(
        &mut self,
        key: RawBytes<'a, LenEnc>,
        value: RawBytes<'a, LenEnc>,
    ) -> Result<(), AllocError>
        ensures { IfOk result (λ _. attributes_view self.new ≡
            attributes_view self.old ++ shown_attribute (key.entry, value.entry) ∷ []) }
    {
        self.entries.push((key, value))?;
        Ok(())
    }

    /// The attributes of these texts, which are moved and not copied.
    ///
    /// # Errors
    /// - `AllocError` for want of memory.
    pub fn from_texts(
        alloc: Global,
        texts: IndexMap<String, String>,
    ) -> Result<ConnectAttributes<'a>, AllocError>
        ensures { IfOk result (λ all. attributes_view all ≡ map text_attribute texts.entries) }
    {
        let mut all = ConnectAttributes::new(alloc);
        for (key, value) in texts {
            let key = RawBytes::new(CowSlice::Owned(key.into_bytes()));
            let value = RawBytes::new(CowSlice::Owned(value.into_bytes()));
            all.put(key, value)?;
        }
        Ok(all)
    }

    /// The attributes in bytes of their own: they borrow nothing.
    ///
    /// # Errors
    /// - `AllocError` for want of memory.
    pub fn into_owned(self, alloc: Global) -> Result<ConnectAttributes<'static>, AllocError>
        ensures { IfOk result (λ all. attributes_view all ≡ attributes_view self.entry) }
    {
        let mut all = ConnectAttributes::with_room(alloc, self.entries.len())?;
        for (key, value) in self.entries {
            all.put_owned(alloc, key, value)?;
        }
        Ok(all)
    }

    /// A copy of the attributes, which borrows nothing.
    ///
    /// # Errors
    /// - `AllocError` for want of memory.
    pub fn clone(&self, alloc: Global) -> Result<ConnectAttributes<'static>, AllocError>
        ensures { IfOk result (λ all. attributes_view all ≡ attributes_view self.now) }
    {
        let mut all = ConnectAttributes::with_room(alloc, self.entries.len())?;
        for (key, value) in &self.entries {
            all.put_copy(alloc, key, value)?;
        }
        Ok(all)
    }

    /// How many attributes there are.
    pub fn len(&self) -> usize
        ensures { result ≡ length (attributes_view self.now) }
    {
        self.entries.len()
    }

    /// The key and the value of the attribute at a place, counted from 0.
    pub fn pair(&self, place: usize) -> Option<(&[u8], &[u8])>
        ensures { option_map (λ pair. (pair.0.now, pair.1.now)) result ≡ slice_get (attributes_view self.now) place }
    {
        let (key, value) = self.entries.get(place)?;
        Some((key.0.as_slice(), value.0.as_slice()))
    }

    /// The value of the attribute with this key. Of several the last one counts.
    pub fn get(&self, key: &[u8]) -> Option<&[u8]>
        ensures { option_map (λ value. value.now) result ≡ last_value key.now (attributes_view self.now) }
    {
        let mut last = None;
        for (name, value) in &self.entries {
            if name.0.as_slice() == key {
                last = Some(value.0.as_slice());
            }
        }
        last
    }

    /// The attributes as texts, all of them and in their order. Bytes that aren't UTF-8 are
    /// replaced.
    ///
    /// # Errors
    /// - `Memory`.
    pub fn texts(&self, alloc: Global) -> Result<Vec<(String, String)>, WireError>
        ensures memory { IsOkUnless result wire.Memory }
        ensures value { IfOk result (λ texts. map text_attribute texts.items ≡
            map lossy_attribute (attributes_view self.now)) }
    {
        let mut texts = Vec::new(alloc);
        for (key, value) in &self.entries {
            texts.push(lossy_pair(alloc, key.0.as_slice(), value.0.as_slice())?)?;
        }
        Ok(texts)
    }
}

impl ConnectAttributes<'static> {
    // Puts one more attribute, which then borrows nothing.
    fn put_owned(
        &mut self,
        alloc: Global,
        key: RawBytes<LenEnc>,
        value: RawBytes<LenEnc>,
    ) -> Result<(), AllocError>
        ensures { IfOk result (λ _. attributes_view self.new ≡
            attributes_view self.old ++ shown_attribute (key.entry, value.entry) ∷ []) }
    {
        let (key, value) = owned_pair(alloc, key, value)?;
        self.put(key, value)
    }

    // Puts a copy of one more attribute.
    fn put_copy(
        &mut self,
        alloc: Global,
        key: &RawBytes<LenEnc>,
        value: &RawBytes<LenEnc>,
    ) -> Result<(), AllocError>
        ensures { IfOk result (λ _. attributes_view self.new ≡
            attributes_view self.old ++ shown_attribute (key.now, value.now) ∷ []) }
    {
        let (key, value) = copied_pair(alloc, key, value)?;
        self.put(key, value)
    }
}

/// Two texts of a packet, which borrow nothing: of an attribute, or of a user and a database.
///
/// # Errors
/// - `AllocError` for want of memory.
pub fn owned_pair<T: BytesRepr, U: BytesRepr>(
    alloc: Global,
    first: RawBytes<T>,
    second: RawBytes<U>,
) -> Result<(RawBytes<'static, T>, RawBytes<'static, U>), AllocError>
    ensures first { IfOk result (λ owned. cow_slice_items owned.0.0 ≡ cow_slice_items first.entry.0) }
    ensures second { IfOk result (λ owned. cow_slice_items owned.1.0 ≡ cow_slice_items second.entry.0) }
{
    let first = first.into_owned(alloc)?;
    let second = second.into_owned(alloc)?;
    Ok((first, second))
}

/// Copies of two texts of a packet, which borrow nothing.
///
/// # Errors
/// - `AllocError` for want of memory.
pub fn copied_pair<T: BytesRepr, U: BytesRepr>(
    alloc: Global,
    first: &RawBytes<T>,
    second: &RawBytes<U>,
) -> Result<(RawBytes<'static, T>, RawBytes<'static, U>), AllocError>
    ensures first { IfOk result (λ copy. cow_slice_items copy.0.0 ≡ cow_slice_items first.now.0) }
    ensures second { IfOk result (λ copy. cow_slice_items copy.1.0 ≡ cow_slice_items second.now.0) }
{
    let first = first.clone(alloc)?;
    let second = second.clone(alloc)?;
    Ok((first, second))
}

// Bytes as text, where bytes that aren't UTF-8 are replaced.
fn lossy_string(alloc: Global, bytes: &[u8]) -> Result<String, AllocError>
    ensures { IfOk result (λ text. string_bytes text ≡ lossy_text bytes.now) }
{
    bytes.to_str_lossy(alloc)?.into_owned(alloc)
}

// An attribute as texts.
fn lossy_pair(alloc: Global, key: &[u8], value: &[u8]) -> Result<(String, String), AllocError>
    ensures { IfOk result (λ texts. text_attribute texts ≡ lossy_attribute (key.now, value.now)) }
{
    let key = lossy_string(alloc, key)?;
    let value = lossy_string(alloc, value)?;
    Ok((key, value))
}

// The attribute that stands first.
#[tactic(auto, unfolding(crate::specs::Attributes::attribute_at))]
fn parse_attribute<'de>(
    alloc: Global,
    rest: &mut ParseBuf<'de>,
) -> Result<(RawBytes<'de, LenEnc>, RawBytes<'de, LenEnc>), WireError>
    ensures { TellsPart shown_attribute rest.new.0.now result (attribute_at rest.old.0.now) }
{
    let key = rest.parse(alloc, ())?;
    let value = rest.parse(alloc, ())?;
    Ok((key, value))
}

// The attributes that stand one after another to the end.
fn parse_all<'de>(
    alloc: Global,
    mut pairs: ParseBuf<'de>,
) -> Result<ConnectAttributes<'de>, WireError>
    ensures { GivesPart attributes_view [] result (all_attributes_at pairs.entry.0.now) }
{
    let mut all = ConnectAttributes::new(alloc);
    while !pairs.is_empty() {
        let (key, value) = parse_attribute(alloc, &mut pairs)?;
        all.put(key, value)?;
    }
    Ok(all)
}

impl<'a> Readable for ConnectAttributes<'a> {
    type Ctx = ();

    ghost AsksForMemory = { true };

    ghost Shown = { List Attribute };

    ghost shown = { attributes_view };

    ghost read_at = { λ _ bytes. attributes_at bytes };

    ghost kept = { attributes_view };

    ghost sized = { λ _. unsized attributes_at };

    fn size() -> Option<usize>
        ensures { result ≡ None }
    {
        None
    }
}

#[tactic(auto, unfolding(crate::specs::Attributes::attributes_at))]
impl<'de> MyDeserialize<'de> for ConnectAttributes<'de> {
    // Connection attributes of Protocol::HandshakeResponse41:
    //   int<lenenc>  length of all keys and values
    //   for each, to the end of these bytes:
    //     string<lenenc>  key
    //     string<lenenc>  value
    fn deserialize(
        alloc: Global,
        _ctx: (),
        buf: &mut ParseBuf<'de>,
    ) -> Result<ConnectAttributes<'de>, WireError> {
        let mut rest = *buf;
        let total: RawInt<LenEnc> = rest.parse(alloc, ())?;
        let pairs: &'de [u8] = rest.parse(alloc, total.0 as usize)?;
        let all = parse_all(alloc, ParseBuf(pairs))?;
        *buf = rest;
        Ok(all)
    }
}

// How many bytes these attributes take, where 64 bits can say it.
fn bytes_of_all(all: &ConnectAttributes) -> Option<u64>
    ensures { IfSome result (λ total. total ≡ length (flat_map attribute (attributes_view all.now))) }
{
    let mut total: u64 = 0;
    for (key, value) in &all.entries {
        total = total.checked_add(lenenc_str_len(key.0.as_slice()))?;
        total = total.checked_add(lenenc_str_len(value.0.as_slice()))?;
    }
    Some(total)
}

// Appends all attributes or none.
fn put_all(all: &ConnectAttributes, buf: &mut Vec<u8>) -> Result<(), AllocError>
    ensures { Appends result buf.old.items buf.new.items (flat_map attribute (attributes_view all.now)) }
{
    let len = buf.len();
    for one in &all.entries {
        if let Err(e) = one.serialize(buf) {
            buf.truncate(len);
            return Err(e);
        }
    }
    Ok(())
}

impl<'a> MySerialize for ConnectAttributes<'a> {
    ghost written = { λ all. attributes (attributes_view all) };

    fn serialize(&self, buf: &mut Vec<u8>) -> Result<(), AllocError> {
        let Some(total) = bytes_of_all(self) else {
            return Err(AllocError);
        };
        let len = buf.len();
        buf.put_lenenc_int(total)?;
        let answer = put_all(self, buf);
        if answer.is_err() {
            buf.truncate(len);
        }
        answer
    }
}
