//! The five names of a column, in memory that its copies share.

ghost use Rattle.std.specs.Prelude.{◌≡◌, IfOk, slice_range};
ghost use Rattle.std.specs.Cmp.{partial_equiv_from_equiv};
ghost use Rattle.std.specs.Cmp.Rules.{comparing};
ghost use Rattle.std.proofs.Common.{rules};
ghost use Rattle.mysql_fields.specs.Wire.{TellsPart};
ghost use Rattle.mysql_columns.specs.Columns.{column_names, column_names_at};
ghost use Rattle.mysql_columns.specs.Views.{held_view, names_view, no_names, same_names, shared_view};

use mysql_buf::ParseBuf;
use mysql_fields::{LenEnc, MySerialize, RawBytes, WireError, in_order, read_lenenc_text};
use std::alloc::{AllocError, Global};
use std::rc::Rc;

// The names of a column.
#[derive(Clone, Copy, PartialEq, Eq)]
pub(crate) struct Names<'a> {
    pub(crate) schema: &'a [u8],
    pub(crate) table: &'a [u8],
    pub(crate) org_table: &'a [u8],
    pub(crate) name: &'a [u8],
    pub(crate) org_name: &'a [u8],
}

impl<'a> Names<'a> {
    // The number of their bytes, as far as it can be counted.
    fn len(&self) -> usize {
        let tables = self.table.len().saturating_add(self.org_table.len());
        let own = self.name.len().saturating_add(self.org_name.len());
        self.schema.len().saturating_add(tables).saturating_add(own)
    }
}

#[tactic(auto, unfolding(crate::specs::Columns::column_names))]
impl<'a> MySerialize for Names<'a> {
    ghost written = { λ n. column_names (names_view n) };

    fn serialize(&self, buf: &mut Vec<u8>) -> Result<(), AllocError> {
        let schema: RawBytes<LenEnc> = RawBytes::from(self.schema);
        let table: RawBytes<LenEnc> = RawBytes::from(self.table);
        let org_table: RawBytes<LenEnc> = RawBytes::from(self.org_table);
        let name: RawBytes<LenEnc> = RawBytes::from(self.name);
        let org_name: RawBytes<LenEnc> = RawBytes::from(self.org_name);
        in_order!(schema, table, org_table, name, org_name).serialize(buf)
    }
}

#[tactic(auto, unfolding(crate::specs::Columns::column_names_at))]
pub(crate) fn names_of<'a>(buf: &mut ParseBuf<'a>) -> Result<Names<'a>, WireError>
    ensures { TellsPart names_view buf.new.0.now result (column_names_at buf.old.0.now) }
{
    let schema = read_lenenc_text(buf)?;
    let table = read_lenenc_text(buf)?;
    let org_table = read_lenenc_text(buf)?;
    let name = read_lenenc_text(buf)?;
    let org_name = read_lenenc_text(buf)?;
    Ok(Names {
        schema,
        table,
        org_table,
        name,
        org_name,
    })
}

// The names one after another, and where each of them ends, but for the last.
#[derive(Drop)]
struct HeldNames {
    bytes: Vec<u8>,
    schema_end: usize,
    table_end: usize,
    org_table_end: usize,
    name_end: usize,
}

// The names of a column, which its copies share. Where nothing is held, all are empty.
#[derive(Drop)]
pub(crate) struct SharedNames {
    alloc: Global,
    held: Option<Rc<HeldNames>>,
}

// The bytes from a place to another, as far as there are such.
#[tactic(auto, using(crate::proofs::Parts::clamped))]
fn part(bytes: &[u8], start: usize, end: usize) -> &[u8]
    ensures { result.now ≡ slice_range bytes.now start end }
{
    let end = end.min(bytes.len());
    let start = start.min(end);
    &bytes[start..end]
}

impl HeldNames {
    // Copies of names.
    fn of(alloc: Global, names: &Names) -> Result<HeldNames, AllocError>
        ensures { IfOk result (λ held. held_view held ≡ names_view names.now) }
    {
        let mut bytes = Vec::with_capacity(alloc, names.len())?;
        bytes.extend_from_slice(names.schema)?;
        let schema_end = bytes.len();
        bytes.extend_from_slice(names.table)?;
        let table_end = bytes.len();
        bytes.extend_from_slice(names.org_table)?;
        let org_table_end = bytes.len();
        bytes.extend_from_slice(names.name)?;
        let name_end = bytes.len();
        bytes.extend_from_slice(names.org_name)?;
        Ok(HeldNames {
            bytes,
            schema_end,
            table_end,
            org_table_end,
            name_end,
        })
    }

    // The names, lent.
    fn lent(&self) -> Names<'_>
        ensures { names_view result ≡ held_view self.now }
    {
        let bytes = self.bytes.as_slice();
        Names {
            schema: part(bytes, 0, self.schema_end),
            table: part(bytes, self.schema_end, self.table_end),
            org_table: part(bytes, self.table_end, self.org_table_end),
            name: part(bytes, self.org_table_end, self.name_end),
            org_name: part(bytes, self.name_end, bytes.len()),
        }
    }
}

impl SharedNames {
    // Five empty names.
    pub(crate) fn new(alloc: Global) -> SharedNames
        ensures { shared_view result ≡ no_names }
    {
        SharedNames { alloc, held: None }
    }

    // Copies of names. Nothing is held where all are empty.
    #[tactic(auto, using(crate::proofs::Parts::nothing_held))]
    pub(crate) fn of(alloc: Global, names: &Names) -> Result<SharedNames, AllocError>
        ensures { IfOk result (λ shared. shared_view shared ≡ names_view names.now) }
    {
        let held = HeldNames::of(alloc, names)?;
        if held.bytes.is_empty() {
            return Ok(SharedNames::new(alloc));
        }
        Ok(SharedNames {
            alloc,
            held: Some(Rc::new(alloc, held)?),
        })
    }

    // The names, of which no byte is copied.
    pub(crate) fn share(&self, alloc: Global) -> Result<SharedNames, AllocError>
        ensures { IfOk result (λ shared. shared_view shared ≡ shared_view self.now) }
    {
        let held = match &self.held {
            Some(held) => Some(held.clone()?),
            None => None,
        };
        Ok(SharedNames { alloc, held })
    }

    // Copies of other names, by the allocator of these.
    pub(crate) fn replaced(&self, names: &Names) -> Result<SharedNames, AllocError>
        ensures { IfOk result (λ shared. shared_view shared ≡ names_view names.now) }
    {
        SharedNames::of(self.alloc, names)
    }

    // The names, lent.
    pub(crate) fn lent(&self) -> Names<'_>
        ensures { names_view result ≡ shared_view self.now }
    {
        match &self.held {
            Some(held) => held.lent(),
            None => Names {
                schema: &[],
                table: &[],
                org_table: &[],
                name: &[],
                org_name: &[],
            },
        }
    }
}

impl PartialEq for SharedNames {
    ghost eq = { λ x y. same_names (shared_view x) (shared_view y) };

    ghost laws = { partial_equiv_from_equiv (Prim.search (comparing, rules)) };

    fn eq(&self, other: &SharedNames) -> bool {
        self.lent() == other.lent()
    }
}

impl Eq for SharedNames {
    ghost laws = { Prim.search (comparing, rules) };
}
