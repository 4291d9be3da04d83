//! Texts are compared, hashed and shown by all their bytes.

ghost use Rattle.std.specs.Prelude.{nat_eq};
ghost use Rattle.std.specs.Hash as fed;
ghost use Rattle.std.specs.Cmp.{on_equiv, on_per, partial_equiv_from_equiv};
ghost use Rattle.std.specs.Cmp.Lexicographic.{nat_list_eq_equiv, pointwise};
ghost use Rattle.std.specs.Cmp.Rules.{hashing};
ghost use Rattle.std.specs.Cow.{cow_slice_items};
ghost use Rattle.std.proofs.Common.{rules};

use crate::texts::{BytesRepr, RawBytes};
use bstr::BStr;
use std::fmt;
use std::hash::{Hash, Hasher};

impl<'a, T: BytesRepr> PartialEq for RawBytes<'a, T> {
    ghost eq = { λ x y. pointwise nat_eq (cow_slice_items x.0) (cow_slice_items y.0) };

    ghost laws = { on_per (λ x. cow_slice_items x.0) (partial_equiv_from_equiv nat_list_eq_equiv) };

    fn eq(&self, other: &RawBytes<'a, T>) -> bool {
        self.0.as_slice() == other.0.as_slice()
    }
}

impl<'a, T: BytesRepr> Eq for RawBytes<'a, T> {
    ghost laws = { on_equiv (λ x. cow_slice_items x.0) nat_list_eq_equiv };
}

impl<'a, T: BytesRepr> Hash for RawBytes<'a, T> {
    ghost hash_input = { λ x. fed.slice fed.u8 (cow_slice_items x.0) };

    ghost respects_eq = { Prim.search (hashing, rules) };

    fn hash<H: Hasher>(&self, state: &mut H) {
        self.0.as_slice().hash(state);
    }
}

impl<'a, T: BytesRepr> fmt::Debug for RawBytes<'a, T> {
    fn fmt<W: fmt::Write>(&self, f: &mut fmt::Formatter<W>) -> fmt::Result {
        BStr::new(self.0.as_slice()).fmt(f)
    }
}
