// The greater of two estimates.
ghost use Rattle.rules.specs.Rules.{greater};
ghost use Rattle.std.proofs.Common.{rules};

use crate::estimate::Estimate;

// Any two estimates, of which the greater number counts.
#[derive(Clone, Copy, Debug, PartialEq, Eq, Drop)]
pub struct Greater<A, B> {
    pub one: A,
    pub other: B,
}

impl<A: Estimate, B: Estimate> Estimate for Greater<A, B> {
    ghost rule = { λ both. greater (A.Estimate.rule both.one) (B.Estimate.rule both.other) };

    ghost lawful = { Prim.search rules };

    ghost silent = { Prim.search rules };

    // The greater of the two numbers.
    fn ask(&self, m: u32, r: u32, weights: &[i8], prefix: &[u8]) -> u32 {
        let one = self.one.ask(m, r, weights, prefix);
        let other = self.other.ask(m, r, weights, prefix);
        one.max(other)
    }
}
