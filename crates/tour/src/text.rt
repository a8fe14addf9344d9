// Bits as text.
ghost use Rattle.std.specs.Prelude.{◌≡◌, codes, Some};
ghost use Rattle.tour.specs.Spelling.{spell};

use std::fmt;

// Bytes that are printed as the one text for each 0, and the other for each other byte.
#[derive(Clone, Copy)]
pub(crate) struct Spelled<'a> {
    pub bytes: &'a [u8],
    pub zero: &'a str,
    pub one: &'a str,
}

impl fmt::Display for Spelled<'_> {
    ghost output = { λ s. Some (spell s.zero.now s.one.now s.bytes.now) };

    fn fmt<W: fmt::Write>(&self, f: &mut fmt::Formatter<W>) -> fmt::Result {
        for byte in self.bytes {
            f.write_str(if *byte == 0 { self.zero } else { self.one })?;
        }
        Ok(())
    }
}

// Bits that are printed as digits. (In `cases` any bytes are, as numbers.)
pub(crate) fn digits(bytes: &[u8]) -> Spelled<'_>
    ensures { spell result.zero.now result.one.now result.bytes.now ≡ spell (codes "0") (codes "1") bytes.now }
{
    Spelled {
        bytes,
        zero: "0",
        one: "1",
    }
}
