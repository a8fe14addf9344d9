// What is wrong with a patch file, or with packed cells.

// A flaw has the number of its row.
#[derive(Clone, Copy, Debug, PartialEq, Eq)]
pub(crate) enum Flaw {
    // More than eight variables.
    Variables = 1,
    // An order above the number of variables.
    Order = 2,
    // Too great a radius.
    Radius = 3,
    // Another number of cells, or of bytes that hold them, than the variables ask.
    Count = 6,
    // Too little room for the cells.
    Room = 7,
    // A file that is too short or too long.
    FileLength = 13,
    // A section that leaves the file, begins inside the header, or shares a byte with the other.
    Places = 14,
    // An unused bit that is 1.
    UnusedBit = 15,
}

// A public call is refused by the number.
impl From<Flaw> for u8 {
    ghost use Rattle.std.specs.Prelude.{◌≡◌};
    ghost use Rattle.patch.specs.Flaw.{flaw_row};

    ghost from_gives = { λ flaw row. row ≡ flaw_row flaw };

    // The discriminant: this is the conversion itself.
    fn from(flaw: Flaw) -> u8 {
        flaw as u8
    }
}
