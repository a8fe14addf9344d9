// The plain estimate.
ghost use Rattle.rules.specs.Rules.{plain};
ghost use Rattle.std.proofs.Common.{rules};

use crate::estimate::Estimate;

// Says nothing of any prefix.
#[derive(Clone, Copy, Debug, PartialEq, Eq, Drop)]
pub struct Plain;

impl Estimate for Plain {
    ghost rule = { λ _. plain };

    ghost lawful = { Prim.search rules };

    ghost silent = { Prim.search rules };

    // Always 0.
    fn ask(&self, _m: u32, _r: u32, _weights: &[i8], _prefix: &[u8]) -> u32 {
        0
    }
}
