// What every kind of cell has.
ghost use Rattle.std.specs.Prelude.{◌≡◌};
ghost use Rattle.cells.specs.Readings.{Reading, InRange};

use words::Fault;

// A kind of cell. Whoever supplies one shows which weight or which fault each cell has: asking gives just that, each time.
pub trait Cell {
    // The weight or the fault of each cell.
    ghost reading: { Self → Reading };

    // The weight of the cell, or its fault.
    fn read(&self) -> Result<i8, Fault>
        ensures { result ≡ reading self.now };

    // A weight lies from -127 to 127.
    ghost bounded: { (cell : Self) → InRange (reading cell) };
}
