// The header of a patch file: its first twelve bytes.
ghost use Rattle.std.specs.Prelude.{◌≡◌, ◌+◌, ◌*◌, ◌^◌, ◌≤◌, IfOk, None};
ghost use Rattle.formats.specs.Packing.{bytes_needed};
ghost use Rattle.formats.specs.Patch.{length_row};
ghost use Rattle.patch.specs.Flaw.{row_found};
ghost use Rattle.patch.specs.Patches.{header_of};

use crate::flaw::Flaw;
use crate::packing::bytes_for;
use crate::section::Section;
use words::Variables;

// The numbers that the header has, in their order. Callers read them by these names, so no section is a field.
#[derive(Clone, Copy, Drop)]
pub struct Header {
    // The number of variables, m.
    pub variables: u32,
    // The order, r.
    pub order: u32,
    // The radius, T.
    pub radius: u32,
    // The number of cells.
    pub count: usize,
    // Where the cells begin.
    pub cells_at: usize,
    // How long the name is.
    pub name_length: usize,
    // Where the name begins.
    pub name_at: usize,
}

impl Header {
    // The section of the cells of so many variables.
    pub(crate) fn cells(&self, variables: &Variables) -> Section
        ensures { result ≡ record { place = self.now.cells_at; length = bytes_needed (2 ^ variables.now) } }
    {
        Section {
            place: self.cells_at,
            length: bytes_for(variables),
        }
    }

    // The section of the name.
    pub(crate) fn name(&self) -> Section
        ensures { result ≡ record { place = self.now.name_at; length = self.now.name_length } }
    {
        Section {
            place: self.name_at,
            length: self.name_length,
        }
    }
}

// The number of two bytes, the high one first.
fn pair(high: u8, low: u8) -> u16
    ensures { result ≡ 256 * high + low }
{
    u16::from_be_bytes([high, low])
}

// Reads the header of a file of 12 to 4,096 bytes.
pub(crate) fn read_header(file: &[u8]) -> Result<Header, Flaw>
    ensures refused { row_found result ≡ length_row file.now None }
    ensures header { IfOk result (λ h. h ≡ header_of file.now) }
{
    // By the project's rule the bytes are named in one pattern.
    let [m, r, t1, t0, n1, n0, c1, c0, l1, l0, a1, a0, ..] = *file else {
        return Err(Flaw::FileLength);
    };
    if file.len() > 4096 {
        return Err(Flaw::FileLength);
    }
    Ok(Header {
        variables: m.into(),
        order: r.into(),
        radius: pair(t1, t0).into(),
        count: pair(n1, n0).into(),
        cells_at: pair(c1, c0).into(),
        name_length: pair(l1, l0).into(),
        name_at: pair(a1, a0).into(),
    })
}
