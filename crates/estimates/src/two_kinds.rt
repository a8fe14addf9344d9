// An estimate that is one of two.
ghost use Rattle.either.specs.declared.Either.TheVariants.{Left, Right};
ghost use Rattle.estimates.specs.Eithers.{either_rule};

use crate::estimate::Estimate;
use either::{Either, for_both};

// One of two estimates, of any two types, so that calls with either can stand in one list.
impl<A: Estimate, B: Estimate> Estimate for Either<A, B> {
    ghost rule = { either_rule A.Estimate.rule B.Estimate.rule };

    ghost lawful = { elim [
      | Left one ↦ A.Estimate.lawful one
      | Right other ↦ B.Estimate.lawful other
    ] };

    ghost silent = { elim [
      | Left one ↦ A.Estimate.silent one
      | Right other ↦ B.Estimate.silent other
    ] };

    // The number of the one that is there.
    fn ask(&self, m: u32, r: u32, weights: &[i8], prefix: &[u8]) -> u32 {
        for_both!(self, one => one.ask(m, r, weights, prefix))
    }
}
