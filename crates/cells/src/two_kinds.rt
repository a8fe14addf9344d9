// A cell of either of two kinds.
ghost use Rattle.either.specs.declared.Either.TheVariants.{Left, Right};
ghost use Rattle.cells.specs.Eithers.{either_reading};

use crate::cell::Cell;
use either::{Either, for_both};
use words::Fault;

// A cell of one of two kinds, whichever two, so that cells of both can stand in one list.
impl<A: Cell, B: Cell> Cell for Either<A, B> {
    ghost reading = { either_reading A.Cell.reading B.Cell.reading };

    ghost bounded = { elim [
      | Left cell ↦ A.Cell.bounded cell
      | Right cell ↦ B.Cell.bounded cell
    ] };

    // The reading of the cell that is there.
    fn read(&self) -> Result<i8, Fault> {
        for_both!(self, cell => cell.read())
    }
}
