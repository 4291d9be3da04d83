//! Tuples of one to twelve elements as parameter sets.

ghost use Rattle.std.specs.Prelude.{[], ◌∷◌};
ghost use Rattle.mysql_convert.specs.Sets.Parts.{InOrder};

use crate::objects::in_order;
use crate::sets::{IntoParams, set_of_elements};
use crate::to_value::ToValue;
use mysql_values::{Params, SetError};
use std::alloc::Global;

impl<A: ToValue + Drop> IntoParams for (A,) {
    ghost parts = { λ tuple. InOrder (A.as_value tuple.0 ∷ []) };

    fn to_params(&self, alloc: Global) -> Result<Params, SetError> {
        set_of_elements(alloc, &in_order!(self.0), &in_order!())
    }
}

impl<A: ToValue + Drop, B: ToValue + Drop> IntoParams for (A, B) {
    ghost parts = { λ tuple. InOrder (A.as_value tuple.0 ∷ B.as_value tuple.1 ∷ []) };

    fn to_params(&self, alloc: Global) -> Result<Params, SetError> {
        set_of_elements(alloc, &in_order!(self.0, self.1), &in_order!())
    }
}

impl<A: ToValue + Drop, B: ToValue + Drop, C: ToValue + Drop> IntoParams for (A, B, C) {
    ghost parts = { λ tuple. InOrder (A.as_value tuple.0 ∷ B.as_value tuple.1 ∷ C.as_value tuple.2 ∷ []) };

    fn to_params(&self, alloc: Global) -> Result<Params, SetError> {
        set_of_elements(alloc, &in_order!(self.0, self.1, self.2), &in_order!())
    }
}

impl<A: ToValue + Drop, B: ToValue + Drop, C: ToValue + Drop, D: ToValue + Drop> IntoParams
    for (A, B, C, D) {
    ghost parts = { λ tuple. InOrder (A.as_value tuple.0 ∷ B.as_value tuple.1 ∷ C.as_value tuple.2 ∷
        D.as_value tuple.3 ∷ []) };

    fn to_params(&self, alloc: Global) -> Result<Params, SetError> {
        set_of_elements(
            alloc,
            &in_order!(self.0, self.1, self.2, self.3),
            &in_order!(),
        )
    }
}

impl<
    A: ToValue + Drop,
    B: ToValue + Drop,
    C: ToValue + Drop,
    D: ToValue + Drop,
    E: ToValue + Drop,
> IntoParams for (A, B, C, D, E) {
    ghost parts = { λ tuple. InOrder (A.as_value tuple.0 ∷ B.as_value tuple.1 ∷ C.as_value tuple.2 ∷
        D.as_value tuple.3 ∷ E.as_value tuple.4 ∷ []) };

    fn to_params(&self, alloc: Global) -> Result<Params, SetError> {
        set_of_elements(
            alloc,
            &in_order!(self.0, self.1, self.2, self.3, self.4),
            &in_order!(),
        )
    }
}

impl<
    A: ToValue + Drop,
    B: ToValue + Drop,
    C: ToValue + Drop,
    D: ToValue + Drop,
    E: ToValue + Drop,
    F: ToValue + Drop,
> IntoParams for (A, B, C, D, E, F) {
    ghost parts = { λ tuple. InOrder (A.as_value tuple.0 ∷ B.as_value tuple.1 ∷ C.as_value tuple.2 ∷
        D.as_value tuple.3 ∷ E.as_value tuple.4 ∷ F.as_value tuple.5 ∷ []) };

    fn to_params(&self, alloc: Global) -> Result<Params, SetError> {
        set_of_elements(
            alloc,
            &in_order!(self.0, self.1, self.2, self.3, self.4, self.5),
            &in_order!(),
        )
    }
}

impl<
    A: ToValue + Drop,
    B: ToValue + Drop,
    C: ToValue + Drop,
    D: ToValue + Drop,
    E: ToValue + Drop,
    F: ToValue + Drop,
    G: ToValue + Drop,
> IntoParams for (A, B, C, D, E, F, G) {
    ghost parts = { λ tuple. InOrder (A.as_value tuple.0 ∷ B.as_value tuple.1 ∷ C.as_value tuple.2 ∷
        D.as_value tuple.3 ∷ E.as_value tuple.4 ∷ F.as_value tuple.5
        ∷ G.as_value tuple.6 ∷ []) };

    fn to_params(&self, alloc: Global) -> Result<Params, SetError> {
        set_of_elements(
            alloc,
            &in_order!(self.0, self.1, self.2, self.3, self.4, self.5),
            &in_order!(self.6),
        )
    }
}

impl<
    A: ToValue + Drop,
    B: ToValue + Drop,
    C: ToValue + Drop,
    D: ToValue + Drop,
    E: ToValue + Drop,
    F: ToValue + Drop,
    G: ToValue + Drop,
    H: ToValue + Drop,
> IntoParams for (A, B, C, D, E, F, G, H) {
    ghost parts = { λ tuple. InOrder (A.as_value tuple.0 ∷ B.as_value tuple.1 ∷ C.as_value tuple.2 ∷
        D.as_value tuple.3 ∷ E.as_value tuple.4 ∷ F.as_value tuple.5
        ∷ G.as_value tuple.6 ∷ H.as_value tuple.7 ∷ []) };

    fn to_params(&self, alloc: Global) -> Result<Params, SetError> {
        set_of_elements(
            alloc,
            &in_order!(self.0, self.1, self.2, self.3, self.4, self.5),
            &in_order!(self.6, self.7),
        )
    }
}

impl<
    A: ToValue + Drop,
    B: ToValue + Drop,
    C: ToValue + Drop,
    D: ToValue + Drop,
    E: ToValue + Drop,
    F: ToValue + Drop,
    G: ToValue + Drop,
    H: ToValue + Drop,
    I: ToValue + Drop,
> IntoParams for (A, B, C, D, E, F, G, H, I) {
    ghost parts = { λ tuple. InOrder (A.as_value tuple.0 ∷ B.as_value tuple.1 ∷ C.as_value tuple.2 ∷
        D.as_value tuple.3 ∷ E.as_value tuple.4 ∷ F.as_value tuple.5
        ∷ G.as_value tuple.6 ∷ H.as_value tuple.7 ∷ I.as_value tuple.8 ∷ []) };

    fn to_params(&self, alloc: Global) -> Result<Params, SetError> {
        set_of_elements(
            alloc,
            &in_order!(self.0, self.1, self.2, self.3, self.4, self.5),
            &in_order!(self.6, self.7, self.8),
        )
    }
}

impl<
    A: ToValue + Drop,
    B: ToValue + Drop,
    C: ToValue + Drop,
    D: ToValue + Drop,
    E: ToValue + Drop,
    F: ToValue + Drop,
    G: ToValue + Drop,
    H: ToValue + Drop,
    I: ToValue + Drop,
    J: ToValue + Drop,
> IntoParams for (A, B, C, D, E, F, G, H, I, J) {
    ghost parts = { λ tuple. InOrder (A.as_value tuple.0 ∷ B.as_value tuple.1 ∷ C.as_value tuple.2 ∷
        D.as_value tuple.3 ∷ E.as_value tuple.4 ∷ F.as_value tuple.5
        ∷ G.as_value tuple.6 ∷ H.as_value tuple.7 ∷ I.as_value tuple.8 ∷ J.as_value tuple.9 ∷ []) };

    fn to_params(&self, alloc: Global) -> Result<Params, SetError> {
        set_of_elements(
            alloc,
            &in_order!(self.0, self.1, self.2, self.3, self.4, self.5),
            &in_order!(self.6, self.7, self.8, self.9),
        )
    }
}

impl<
    A: ToValue + Drop,
    B: ToValue + Drop,
    C: ToValue + Drop,
    D: ToValue + Drop,
    E: ToValue + Drop,
    F: ToValue + Drop,
    G: ToValue + Drop,
    H: ToValue + Drop,
    I: ToValue + Drop,
    J: ToValue + Drop,
    K: ToValue + Drop,
> IntoParams for (A, B, C, D, E, F, G, H, I, J, K) {
    ghost parts = { λ tuple. InOrder (A.as_value tuple.0 ∷ B.as_value tuple.1 ∷ C.as_value tuple.2 ∷
        D.as_value tuple.3 ∷ E.as_value tuple.4 ∷ F.as_value tuple.5
        ∷ G.as_value tuple.6 ∷ H.as_value tuple.7 ∷ I.as_value tuple.8 ∷ J.as_value tuple.9 ∷
        K.as_value tuple.10 ∷ []) };

    fn to_params(&self, alloc: Global) -> Result<Params, SetError> {
        set_of_elements(
            alloc,
            &in_order!(self.0, self.1, self.2, self.3, self.4, self.5),
            &in_order!(self.6, self.7, self.8, self.9, self.10),
        )
    }
}

impl<
    A: ToValue + Drop,
    B: ToValue + Drop,
    C: ToValue + Drop,
    D: ToValue + Drop,
    E: ToValue + Drop,
    F: ToValue + Drop,
    G: ToValue + Drop,
    H: ToValue + Drop,
    I: ToValue + Drop,
    J: ToValue + Drop,
    K: ToValue + Drop,
    L: ToValue + Drop,
> IntoParams for (A, B, C, D, E, F, G, H, I, J, K, L) {
    ghost parts = { λ tuple. InOrder (A.as_value tuple.0 ∷ B.as_value tuple.1 ∷ C.as_value tuple.2 ∷
        D.as_value tuple.3 ∷ E.as_value tuple.4 ∷ F.as_value tuple.5
        ∷ G.as_value tuple.6 ∷ H.as_value tuple.7 ∷ I.as_value tuple.8 ∷ J.as_value tuple.9 ∷
        K.as_value tuple.10 ∷ L.as_value tuple.11 ∷ []) };

    fn to_params(&self, alloc: Global) -> Result<Params, SetError> {
        set_of_elements(
            alloc,
            &in_order!(self.0, self.1, self.2, self.3, self.4, self.5),
            &in_order!(self.6, self.7, self.8, self.9, self.10, self.11),
        )
    }
}
