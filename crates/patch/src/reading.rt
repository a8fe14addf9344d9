// Reading a patch file.
ghost use Rattle.std.specs.Prelude.{◌≡◌, IfOk};
ghost use Rattle.formats.specs.Patch.{patch_row};
ghost use Rattle.formats.specs.Writing.{WrittenReadsBack, ReadWritesBack};
ghost use Rattle.patch.specs.Flaw.{row_found};
ghost use Rattle.patch.specs.Rows.{row_of};
ghost use Rattle.patch.specs.Patches.{IsOf};

use crate::flaw::Flaw;
use crate::header::{Header, read_header};
use crate::packing::check_unused;
use words::Variables;

// What a patch file says. The cells and the name are parts of the file, at the places that the header has.
// By the project's rule it is a plain struct, with no invariant.
#[derive(Clone, Copy, Drop)]
pub struct Patch<'a> {
    pub file: &'a [u8],
    pub header: Header,
    pub cells: &'a [u8],
    pub name: &'a [u8],
}

// The patch that a file is, where no row refuses it.
fn patch_of(file: &[u8]) -> Result<Patch<'_>, Flaw>
    ensures refused { row_found result ≡ patch_row file.now }
    ensures patch { IfOk result (λ p. IsOf file.now p) }
{
    let header = read_header(file)?;
    // By hand, though `Code` and a reader test the same: their refusals have cases that no flaw has.
    let variables = Variables::try_from(header.variables).map_err(|_| Flaw::Variables)?;
    if header.order > header.variables {
        return Err(Flaw::Order);
    }
    if header.radius > 32512 {
        return Err(Flaw::Radius);
    }
    if header.count != variables.points() {
        return Err(Flaw::Count);
    }
    let cells = header.cells(&variables);
    let name = header.name();
    if !cells.is_placed_with(name, file.len()) {
        return Err(Flaw::Places);
    }
    check_unused(&variables, cells.part_of(file))?;
    Ok(Patch {
        file,
        header,
        cells: cells.part_of(file),
        name: name.part_of(file),
    })
}

// Reads a patch file: the file itself, the numbers in its header, and its two parts.
// By the project's rule a refusal is a plain number.
pub fn read_patch(file: &[u8]) -> Result<Patch<'_>, u8>
    ensures refused { row_of result ≡ patch_row file.now }
    ensures patch { IfOk result (λ p. IsOf file.now p) }
    ensures reads_back { WrittenReadsBack }
    ensures writes_back { ReadWritesBack }
{
    Ok(patch_of(file)?)
}
