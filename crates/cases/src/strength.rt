// A kind of cell that is supplied from outside the library.
ghost use Rattle.cases.specs.Strengths.{strength_reading};
ghost use Rattle.std.proofs.Common.{rules};

use cells::Cell;
use words::Fault;

// A cell that is its own weight.
#[derive(Clone, Copy, Drop)]
pub struct Strength {
    pub strength: i8,
}

impl Cell for Strength {
    ghost reading = { λ cell. strength_reading cell.strength };

    ghost bounded = { Prim.search rules };

    // Any strength but -128, which is no weight.
    fn read(&self) -> Result<i8, Fault> {
        if self.strength == -128 {
            return Err(Fault::Byte(128));
        }
        Ok(self.strength)
    }
}
