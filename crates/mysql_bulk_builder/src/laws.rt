//! Laws about the definitions that contracts cite. Nothing here runs.
ghost use Rattle.mysql_bulk_builder.specs.CutLaws.{TightExists, TightIsUnique, TightFits, TightHasFewest};
ghost use Rattle.mysql_bulk_builder.specs.CutLaws.{TightTakesFewestBytes, TightPartsComeFirst};
ghost use Rattle.mysql_bulk_builder.specs.TypedCutLaws.{PartFitsLater, TightTypedExists, TightTypedExistsWhere};
ghost use Rattle.mysql_bulk_builder.specs.TypedCutLaws.{FittingCutWhere, TightTypedIsUnique, TightTypedHasFewest};
ghost use Rattle.mysql_bulk_builder.specs.TypedCutLaws.{WholeIsTight};
ghost use Rattle.mysql_bulk_builder.specs.KindLaws.{OneKind, UntypedRunAddsNoColumn, FirstValueIsThere, NoneTooLarge};
ghost use Rattle.mysql_bulk_builder.specs.KindLaws.{OneMoreMixesNone, WholeHasNoneTooLarge};
ghost use Rattle.mysql_bulk_builder.specs.InForce.{TypesInForceServe};
ghost use Rattle.mysql_bulk_builder.specs.IterationLaws.{GivesFirst};

/// Rows have exactly one tight cut, which fits exactly where each row fits.
pub fn one_tight_cut()
    ensures exists { TightExists }
    ensures unique { TightIsUnique }
    ensures fits { TightFits }
    ensures first { TightPartsComeFirst }
{}

/// No cut that fits has fewer parts than the tight one.
pub fn tight_has_fewest()
    ensures { TightHasFewest }
{}

/// Where each request is one chunk, no cut that fits takes fewer bytes on the wire than the tight one.
pub fn tight_takes_fewest_bytes()
    ensures { TightTakesFewestBytes }
{}

/// A part that fits still fits from a later start.
pub fn part_fits_later()
    ensures { PartFitsLater }
{}

/// Rows have at most one tight cut into typed and untyped parts, and one exactly where each row fits.
pub fn one_tight_typed_cut()
    ensures typed { TightTypedExists }
    ensures exists { TightTypedExistsWhere }
    ensures none_else { FittingCutWhere }
    ensures unique { TightTypedIsUnique }
{}

/// No cut that fits has fewer parts, whichever of its parts are typed.
pub fn tight_typed_has_fewest()
    ensures { TightTypedHasFewest }
{}

/// The types that a request carries serve the rows that are sent by them.
pub fn types_serve()
    ensures one_kind { OneKind }
    ensures run { UntypedRunAddsNoColumn }
    ensures there { FirstValueIsThere }
{}

/// Where no row is too large, each fits a typed request of its own.
pub fn none_too_large()
    ensures { NoneTooLarge }
{}

/// Where one typed request holds all rows, it alone is the tight cut, and no row is too large.
pub fn whole_is_tight()
    ensures tight { WholeIsTight }
    ensures none { WholeHasNoneTooLarge }
{}

/// Rows that mix no kinds mix none with one more row of the same kinds.
///
/// None of that row's values is of another kind than its column's first one.
pub fn one_more_mixes_none()
    ensures { OneMoreMixesNone }
{}

/// Where each request may carry types, those in force serve each part.
pub fn types_in_force_serve()
    ensures { TypesInForceServe }
{}

/// The requests that an iterator gives are those of the first parts of the tight cut.
///
/// The cut is that of the rows held and given, at most `usize::MAX` together. Where no row is left
/// the requests are those of all its parts.
pub fn iterators_give_the_tight_cut()
    ensures { GivesFirst }
{}
