// Bit cells.
ghost use Rattle.cells.specs.Bits.{bit_reading};
ghost use Rattle.std.proofs.Common.{rules};

use crate::cell::Cell;
use words::Fault;

// A cell that is a bit: the byte 0 or 1.
#[derive(Clone, Copy, Debug, PartialEq, Eq, Drop)]
pub struct Bit {
    pub byte: u8,
}

impl Cell for Bit {
    ghost reading = { λ cell. bit_reading cell.byte };

    ghost bounded = { Prim.search rules };

    // 0 weighs 1, and 1 weighs -1.
    fn read(&self) -> Result<i8, Fault> {
        match self.byte {
            0 => Ok(1),
            1 => Ok(-1),
            byte => Err(Fault::Byte(byte)),
        }
    }
}
