//! Lent rows as tuples of one to twelve values.

ghost use Rattle.mysql_from_row.specs.FromRow.{both, numbered_as, of_columns};

use crate::FromValueRef;
use crate::lent::{FromRowRef, has_lent_columns};
use crate::lent_cells::LentCells;
use mysql_row_refs::RowRef;

impl<'p, A: FromValueRef<'p> + Drop> FromRowRef<'p> for (A,) {
    ghost Shown = { A.Shown };

    ghost shown = { λ tuple. A.shown tuple.0 };

    ghost converted = { λ row. of_columns 1 row (numbered_as A.converted row 0) };

    fn from_row_ref(row: &RowRef<'_, 'p>) -> Option<(A,)> {
        has_lent_columns(row, 1)?;
        let (a,) = <(A,)>::from_cells(row, 0)?;
        Some((a,))
    }
}

impl<'p, A: FromValueRef<'p> + Drop, B: FromValueRef<'p> + Drop> FromRowRef<'p> for (A, B) {
    ghost Shown = { A.Shown × B.Shown };

    ghost shown = { λ tuple. (A.shown tuple.0, B.shown tuple.1) };

    ghost converted = { λ row. of_columns 2 row
        (both (numbered_as A.converted row 0) (numbered_as B.converted row 1)) };

    fn from_row_ref(row: &RowRef<'_, 'p>) -> Option<(A, B)> {
        has_lent_columns(row, 2)?;
        let (a, (b,)) = <(A, (B,))>::from_cells(row, 0)?;
        Some((a, b))
    }
}

impl<
    'p,
    A: FromValueRef<'p> + Drop,
    B: FromValueRef<'p> + Drop,
    C: FromValueRef<'p> + Drop,
> FromRowRef<'p> for (A, B, C) {
    ghost Shown = { A.Shown × (B.Shown × C.Shown) };

    ghost shown = { λ tuple. (A.shown tuple.0, (B.shown tuple.1, C.shown tuple.2)) };

    ghost converted = { λ row. of_columns 3 row
        (both (numbered_as A.converted row 0)
        (both (numbered_as B.converted row 1) (numbered_as C.converted row 2))) };

    fn from_row_ref(row: &RowRef<'_, 'p>) -> Option<(A, B, C)> {
        has_lent_columns(row, 3)?;
        let (a, (b, (c,))) = <(A, (B, (C,)))>::from_cells(row, 0)?;
        Some((a, b, c))
    }
}

impl<
    'p,
    A: FromValueRef<'p> + Drop,
    B: FromValueRef<'p> + Drop,
    C: FromValueRef<'p> + Drop,
    D: FromValueRef<'p> + Drop,
> FromRowRef<'p> for (A, B, C, D) {
    ghost Shown = { A.Shown × (B.Shown × (C.Shown × D.Shown)) };

    ghost shown = { λ tuple. (A.shown tuple.0, (B.shown tuple.1, (C.shown tuple.2, D.shown tuple.3))) };

    ghost converted = { λ row. of_columns 4 row
        (both (numbered_as A.converted row 0)
        (both (numbered_as B.converted row 1)
        (both (numbered_as C.converted row 2) (numbered_as D.converted row 3)))) };

    fn from_row_ref(row: &RowRef<'_, 'p>) -> Option<(A, B, C, D)> {
        has_lent_columns(row, 4)?;
        let (a, (b, (c, (d,)))) = <(A, (B, (C, (D,))))>::from_cells(row, 0)?;
        Some((a, b, c, d))
    }
}

impl<
    'p,
    A: FromValueRef<'p> + Drop,
    B: FromValueRef<'p> + Drop,
    C: FromValueRef<'p> + Drop,
    D: FromValueRef<'p> + Drop,
    E: FromValueRef<'p> + Drop,
> FromRowRef<'p> for (A, B, C, D, E) {
    ghost Shown = { A.Shown × (B.Shown × (C.Shown × (D.Shown × E.Shown))) };

    ghost shown = { λ tuple. (
      A.shown tuple.0,
      (B.shown tuple.1, (C.shown tuple.2, (D.shown tuple.3, E.shown tuple.4))),
    ) };

    ghost converted = { λ row. of_columns 5 row
        (both (numbered_as A.converted row 0)
        (both (numbered_as B.converted row 1)
        (both (numbered_as C.converted row 2)
        (both (numbered_as D.converted row 3) (numbered_as E.converted row 4))))) };

    fn from_row_ref(row: &RowRef<'_, 'p>) -> Option<(A, B, C, D, E)> {
        has_lent_columns(row, 5)?;
        let (a, (b, (c, (d, (e,))))) = <(A, (B, (C, (D, (E,)))))>::from_cells(row, 0)?;
        Some((a, b, c, d, e))
    }
}

impl<
    'p,
    A: FromValueRef<'p> + Drop,
    B: FromValueRef<'p> + Drop,
    C: FromValueRef<'p> + Drop,
    D: FromValueRef<'p> + Drop,
    E: FromValueRef<'p> + Drop,
    F: FromValueRef<'p> + Drop,
> FromRowRef<'p> for (A, B, C, D, E, F) {
    ghost Shown = { A.Shown × (B.Shown × (C.Shown × (D.Shown × (E.Shown × F.Shown)))) };

    ghost shown = { λ tuple. (
      A.shown tuple.0,
      (B.shown tuple.1, (C.shown tuple.2, (D.shown tuple.3, (E.shown tuple.4, F.shown tuple.5)))),
    ) };

    ghost converted = { λ row. of_columns 6 row
        (both (numbered_as A.converted row 0)
        (both (numbered_as B.converted row 1)
        (both (numbered_as C.converted row 2)
        (both (numbered_as D.converted row 3)
        (both (numbered_as E.converted row 4) (numbered_as F.converted row 5)))))) };

    fn from_row_ref(row: &RowRef<'_, 'p>) -> Option<(A, B, C, D, E, F)> {
        has_lent_columns(row, 6)?;
        let (a, (b, (c, (d, (e, (f,)))))) = <(A, (B, (C, (D, (E, (F,))))))>::from_cells(row, 0)?;
        Some((a, b, c, d, e, f))
    }
}

impl<
    'p,
    A: FromValueRef<'p> + Drop,
    B: FromValueRef<'p> + Drop,
    C: FromValueRef<'p> + Drop,
    D: FromValueRef<'p> + Drop,
    E: FromValueRef<'p> + Drop,
    F: FromValueRef<'p> + Drop,
    G: FromValueRef<'p> + Drop,
> FromRowRef<'p> for (A, B, C, D, E, F, G) {
    ghost Shown = { A.Shown × (B.Shown × (C.Shown × (D.Shown × (E.Shown × (F.Shown × G.Shown))))) };

    ghost shown = { λ tuple. (
      A.shown tuple.0,
      (
        B.shown tuple.1,
        (
          C.shown tuple.2,
          (D.shown tuple.3, (E.shown tuple.4, (F.shown tuple.5, G.shown tuple.6))),
        ),
      ),
    ) };

    ghost converted = { λ row. of_columns 7 row
        (both (numbered_as A.converted row 0)
        (both (numbered_as B.converted row 1)
        (both (numbered_as C.converted row 2)
        (both (numbered_as D.converted row 3)
        (both (numbered_as E.converted row 4)
        (both (numbered_as F.converted row 5) (numbered_as G.converted row 6))))))) };

    fn from_row_ref(row: &RowRef<'_, 'p>) -> Option<(A, B, C, D, E, F, G)> {
        has_lent_columns(row, 7)?;
        let (a, (b, (c, (d, (e, (f, (g,))))))) = <(A, (B, (C, (D, (E, (F, (G,)))))))>::from_cells(
            row, 0,
        )?;
        Some((a, b, c, d, e, f, g))
    }
}

impl<
    'p,
    A: FromValueRef<'p> + Drop,
    B: FromValueRef<'p> + Drop,
    C: FromValueRef<'p> + Drop,
    D: FromValueRef<'p> + Drop,
    E: FromValueRef<'p> + Drop,
    F: FromValueRef<'p> + Drop,
    G: FromValueRef<'p> + Drop,
    H: FromValueRef<'p> + Drop,
> FromRowRef<'p> for (A, B, C, D, E, F, G, H) {
    ghost Shown = { A.Shown × (B.Shown × (C.Shown × (D.Shown × (E.Shown × (F.Shown × (G.Shown × H.Shown)))))) };

    ghost shown = { λ tuple. (
      A.shown tuple.0,
      (
        B.shown tuple.1,
        (
          C.shown tuple.2,
          (
            D.shown tuple.3,
            (
              E.shown tuple.4,
              (F.shown tuple.5, (G.shown tuple.6, H.shown tuple.7)),
            ),
          ),
        ),
      ),
    ) };

    ghost converted = { λ row. of_columns 8 row
        (both (numbered_as A.converted row 0)
        (both (numbered_as B.converted row 1)
        (both (numbered_as C.converted row 2)
        (both (numbered_as D.converted row 3)
        (both (numbered_as E.converted row 4)
        (both (numbered_as F.converted row 5)
        (both (numbered_as G.converted row 6) (numbered_as H.converted row 7)))))))) };

    fn from_row_ref(row: &RowRef<'_, 'p>) -> Option<(A, B, C, D, E, F, G, H)> {
        has_lent_columns(row, 8)?;
        let (a, (b, (c, (d, (e, (f, (g, (h,)))))))) = <(
            A,
            (B, (C, (D, (E, (F, (G, (H,))))))),
        )>::from_cells(row, 0)?;
        Some((a, b, c, d, e, f, g, h))
    }
}

impl<
    'p,
    A: FromValueRef<'p> + Drop,
    B: FromValueRef<'p> + Drop,
    C: FromValueRef<'p> + Drop,
    D: FromValueRef<'p> + Drop,
    E: FromValueRef<'p> + Drop,
    F: FromValueRef<'p> + Drop,
    G: FromValueRef<'p> + Drop,
    H: FromValueRef<'p> + Drop,
    I: FromValueRef<'p> + Drop,
> FromRowRef<'p> for (A, B, C, D, E, F, G, H, I) {
    ghost Shown = { A.Shown ×
        (B.Shown × (C.Shown × (D.Shown × (E.Shown × (F.Shown × (G.Shown × (H.Shown × I.Shown))))))) };

    ghost shown = { λ tuple. (
      A.shown tuple.0,
      (
        B.shown tuple.1,
        (
          C.shown tuple.2,
          (
            D.shown tuple.3,
            (
              E.shown tuple.4,
              (F.shown tuple.5, (G.shown tuple.6, (H.shown tuple.7, I.shown tuple.8))),
            ),
          ),
        ),
      ),
    ) };

    ghost converted = { λ row. of_columns 9 row
        (both (numbered_as A.converted row 0)
        (both (numbered_as B.converted row 1)
        (both (numbered_as C.converted row 2)
        (both (numbered_as D.converted row 3)
        (both (numbered_as E.converted row 4)
        (both (numbered_as F.converted row 5)
        (both (numbered_as G.converted row 6)
        (both (numbered_as H.converted row 7) (numbered_as I.converted row 8))))))))) };

    fn from_row_ref(row: &RowRef<'_, 'p>) -> Option<(A, B, C, D, E, F, G, H, I)> {
        has_lent_columns(row, 9)?;
        let (a, (b, (c, (d, (e, (f, (g, (h, (i,))))))))) = <(
            A,
            (B, (C, (D, (E, (F, (G, (H, (I,)))))))),
        )>::from_cells(row, 0)?;
        Some((a, b, c, d, e, f, g, h, i))
    }
}

impl<
    'p,
    A: FromValueRef<'p> + Drop,
    B: FromValueRef<'p> + Drop,
    C: FromValueRef<'p> + Drop,
    D: FromValueRef<'p> + Drop,
    E: FromValueRef<'p> + Drop,
    F: FromValueRef<'p> + Drop,
    G: FromValueRef<'p> + Drop,
    H: FromValueRef<'p> + Drop,
    I: FromValueRef<'p> + Drop,
    J: FromValueRef<'p> + Drop,
> FromRowRef<'p> for (A, B, C, D, E, F, G, H, I, J) {
    ghost Shown = { A.Shown ×
        (B.Shown × (C.Shown × (D.Shown ×
        (E.Shown × (F.Shown × (G.Shown × (H.Shown × (I.Shown × J.Shown)))))))) };

    ghost shown = { λ tuple. (
      A.shown tuple.0,
      (
        B.shown tuple.1,
        (
          C.shown tuple.2,
          (
            D.shown tuple.3,
            (
              E.shown tuple.4,
              (
                F.shown tuple.5,
                (
                  G.shown tuple.6,
                  (H.shown tuple.7, (I.shown tuple.8, J.shown tuple.9)),
                ),
              ),
            ),
          ),
        ),
      ),
    ) };

    ghost converted = { λ row. of_columns 10 row
        (both (numbered_as A.converted row 0)
        (both (numbered_as B.converted row 1)
        (both (numbered_as C.converted row 2)
        (both (numbered_as D.converted row 3)
        (both (numbered_as E.converted row 4)
        (both (numbered_as F.converted row 5)
        (both (numbered_as G.converted row 6)
        (both (numbered_as H.converted row 7)
        (both (numbered_as I.converted row 8) (numbered_as J.converted row 9)))))))))) };

    fn from_row_ref(row: &RowRef<'_, 'p>) -> Option<(A, B, C, D, E, F, G, H, I, J)> {
        has_lent_columns(row, 10)?;
        let (a, (b, (c, (d, (e, (f, (g, (h, (i, (j,)))))))))) = <(
            A,
            (B, (C, (D, (E, (F, (G, (H, (I, (J,))))))))),
        )>::from_cells(row, 0)?;
        Some((a, b, c, d, e, f, g, h, i, j))
    }
}

impl<
    'p,
    A: FromValueRef<'p> + Drop,
    B: FromValueRef<'p> + Drop,
    C: FromValueRef<'p> + Drop,
    D: FromValueRef<'p> + Drop,
    E: FromValueRef<'p> + Drop,
    F: FromValueRef<'p> + Drop,
    G: FromValueRef<'p> + Drop,
    H: FromValueRef<'p> + Drop,
    I: FromValueRef<'p> + Drop,
    J: FromValueRef<'p> + Drop,
    K: FromValueRef<'p> + Drop,
> FromRowRef<'p> for (A, B, C, D, E, F, G, H, I, J, K) {
    ghost Shown = { A.Shown ×
        (B.Shown × (C.Shown × (D.Shown ×
        (E.Shown × (F.Shown × (G.Shown × (H.Shown × (I.Shown × (J.Shown × K.Shown))))))))) };

    ghost shown = { λ tuple. (
      A.shown tuple.0,
      (
        B.shown tuple.1,
        (
          C.shown tuple.2,
          (
            D.shown tuple.3,
            (
              E.shown tuple.4,
              (
                F.shown tuple.5,
                (
                  G.shown tuple.6,
                  (H.shown tuple.7, (I.shown tuple.8, (J.shown tuple.9, K.shown tuple.10))),
                ),
              ),
            ),
          ),
        ),
      ),
    ) };

    ghost converted = { λ row. of_columns 11 row
        (both (numbered_as A.converted row 0)
        (both (numbered_as B.converted row 1)
        (both (numbered_as C.converted row 2)
        (both (numbered_as D.converted row 3)
        (both (numbered_as E.converted row 4)
        (both (numbered_as F.converted row 5)
        (both (numbered_as G.converted row 6)
        (both (numbered_as H.converted row 7)
        (both (numbered_as I.converted row 8)
        (both (numbered_as J.converted row 9) (numbered_as K.converted row 10))))))))))) };

    fn from_row_ref(row: &RowRef<'_, 'p>) -> Option<(A, B, C, D, E, F, G, H, I, J, K)> {
        has_lent_columns(row, 11)?;
        let (a, (b, (c, (d, (e, (f, (g, (h, (i, (j, (k,))))))))))) = <(
            A,
            (B, (C, (D, (E, (F, (G, (H, (I, (J, (K,)))))))))),
        )>::from_cells(row, 0)?;
        Some((a, b, c, d, e, f, g, h, i, j, k))
    }
}

impl<
    'p,
    A: FromValueRef<'p> + Drop,
    B: FromValueRef<'p> + Drop,
    C: FromValueRef<'p> + Drop,
    D: FromValueRef<'p> + Drop,
    E: FromValueRef<'p> + Drop,
    F: FromValueRef<'p> + Drop,
    G: FromValueRef<'p> + Drop,
    H: FromValueRef<'p> + Drop,
    I: FromValueRef<'p> + Drop,
    J: FromValueRef<'p> + Drop,
    K: FromValueRef<'p> + Drop,
    L: FromValueRef<'p> + Drop,
> FromRowRef<'p> for (A, B, C, D, E, F, G, H, I, J, K, L) {
    ghost Shown = { A.Shown ×
        (B.Shown × (C.Shown × (D.Shown ×
        (E.Shown × (F.Shown × (G.Shown ×
        (H.Shown × (I.Shown × (J.Shown × (K.Shown × L.Shown)))))))))) };

    ghost shown = { λ tuple. (
      A.shown tuple.0,
      (
        B.shown tuple.1,
        (
          C.shown tuple.2,
          (
            D.shown tuple.3,
            (
              E.shown tuple.4,
              (
                F.shown tuple.5,
                (
                  G.shown tuple.6,
                  (
                    H.shown tuple.7,
                    (
                      I.shown tuple.8,
                      (J.shown tuple.9, (K.shown tuple.10, L.shown tuple.11)),
                    ),
                  ),
                ),
              ),
            ),
          ),
        ),
      ),
    ) };

    ghost converted = { λ row. of_columns 12 row
        (both (numbered_as A.converted row 0)
        (both (numbered_as B.converted row 1)
        (both (numbered_as C.converted row 2)
        (both (numbered_as D.converted row 3)
        (both (numbered_as E.converted row 4)
        (both (numbered_as F.converted row 5)
        (both (numbered_as G.converted row 6)
        (both (numbered_as H.converted row 7)
        (both (numbered_as I.converted row 8)
        (both (numbered_as J.converted row 9)
        (both (numbered_as K.converted row 10) (numbered_as L.converted row 11)))))))))))) };

    fn from_row_ref(row: &RowRef<'_, 'p>) -> Option<(A, B, C, D, E, F, G, H, I, J, K, L)> {
        has_lent_columns(row, 12)?;
        let (a, (b, (c, (d, (e, (f, (g, (h, (i, (j, (k, (l,)))))))))))) = <(
            A,
            (B, (C, (D, (E, (F, (G, (H, (I, (J, (K, (L,))))))))))),
        )>::from_cells(row, 0)?;
        Some((a, b, c, d, e, f, g, h, i, j, k, l))
    }
}
