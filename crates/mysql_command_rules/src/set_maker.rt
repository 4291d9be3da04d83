//! Sets of parameters that are made when their turn comes.

ghost use Rattle.std.specs.Prelude.{◌≡◌, ◌⊎◌, ◌<◌, ℕ, Err, IfErr, IfOk, List, Ok, false, length};
ghost use Rattle.mysql_values.specs.declared.params.SetError.{SetError as SetErrorOf};
ghost use Rattle.mysql_command_rules.specs.MadeSets.{IsSetAt, is_want_of_memory};
ghost use Rattle.mysql_command_rules.specs.Sets.{Given};
ghost use Rattle.mysql_command_rules.specs.declared.refusal.Refusal.TheVariants as refusals;

use crate::refusal::Refusal;
use mysql_values::{Params, SetError};
use std::alloc::{AllocError, Global};

/// Sets of parameters that are made one at a time, so that no two of them need to be held. Sets count from 0.
pub trait SetMaker {
    // what each of the sets gives a query with these names
    ghost given: { Self → List (List ℕ) → List Given };

    /// How many sets there are.
    fn len(&self) -> usize
        ensures { (names : List (List ℕ)) → length (given self.now names) ≡ result };

    /// The set of this number, or why there is none, which is never want of memory.
    ///
    /// # Errors
    /// - That of the type, for want of memory alone.
    fn set(&self, alloc: Global, number: usize) -> Result<Result<Params, SetError>, AllocError>
        requires { (names : List (List ℕ)) → number < length (given self.now names) }
        ensures at { IfOk result (IsSetAt (given self.now) number) }
        ensures why { IfOk result (λ made. IfErr made (λ error. is_want_of_memory error ≡ false)) };
}

/// The set of this number.
///
/// # Errors
/// `Params` with why there is none, `Memory`.
pub fn made_set<S: SetMaker>(alloc: Global, sets: &S, number: usize) -> Result<Params, Refusal>
    requires { (names : List (List ℕ)) → number < length (S.given sets.now names) }
    ensures ok { IfOk result (λ params. IsSetAt (S.given sets.now) number (Ok params)) }
    ensures err { IfErr result (λ refusal. (refusal ≡ refusals.Memory)
        ⊎ ((error : SetErrorOf) × IsSetAt (S.given sets.now) number (Err error) ×
        (refusal ≡ refusals.Params number error))) }
{
    let error = match sets.set(alloc, number)? {
        Ok(params) => return Ok(params),
        Err(error) => error,
    };
    Err(Refusal::Params(number, error))
}
