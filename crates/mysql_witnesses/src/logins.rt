//! Logging in.

ghost use Rattle.mysql_witnesses.specs.Logins.{FactorsAreAgreed, FieldsStandByBothCapabilities};
ghost use Rattle.mysql_witnesses.specs.Logins.{LongAnswersAreNotPut, TlsIsOfferedByBoth};

/// A client's answer is read by the capabilities that both have.
#[tactic(auto, using(crate::proofs::AboutLogins::tls_is_offered_by_both, crate::proofs::AboutLogins::fields_stand_by_both_capabilities))]
pub fn answers_are_read_by_both_capabilities()
    ensures tls { TlsIsOfferedByBoth }
    ensures fields { FieldsStandByBothCapabilities }
{}

/// An answer to the scramble that its length can't say isn't put.
#[tactic(auto, using(crate::proofs::AboutLogins::long_answers_are_not_put))]
pub fn long_answers_are_not_put()
    ensures { LongAnswersAreNotPut }
{}

/// A request for one more plugin is read only where it was agreed on.
#[tactic(auto, unfolding(mysql_authentication::specs::Readings::authentication_at))]
pub fn factors_are_agreed()
    ensures { FactorsAreAgreed }
{}
