// Cells packed eight to a byte, the first in the highest bit.
ghost use Rattle.std.specs.Prelude.{◌≡◌, ◌+◌, ◌*◌, ◌%◌, ◌^◌, ◌<◌, ◌≤◌, ◌++◌, length, drop, IfOk, MatchResult};
ghost use Rattle.formats.specs.Packing.{bytes_needed, bit_from_top, unpacked, PackedUnpacks, UnpackedPacks};
ghost use Rattle.formats.specs.Patch.{unused_row};
ghost use Rattle.patch.specs.Flaw.{row_found};
ghost use Rattle.patch.specs.Rows.{row_of, unpack_row};
ghost use Rattle.patch.specs.Patches.{as_cells};

use crate::flaw::Flaw;
use cells::Bit;
use words::Variables;

// How many bytes the cells of so many variables need.
pub(crate) fn bytes_for(variables: &Variables) -> usize
    ensures { result ≡ bytes_needed (2 ^ variables.now) }
{
    variables.points().div_ceil(8)
}

// The lowest bits of a byte, so many of them, as a number: a mask, by the project's rule.
fn low_bits(byte: u8, count: usize) -> u8
    requires { count < 8 }
    ensures { result ≡ byte % 2 ^ count }
{
    byte & ((1 << count) - 1)
}

// The bit of a byte at a place from 0 to 7, the highest at 0: a shift, by the project's rule.
fn bit_of(byte: u8, place: usize) -> u8
    requires { place < 8 }
    ensures { result ≡ bit_from_top byte place }
{
    low_bits(byte >> (7 - place), 1)
}

// Writes the cells that the bytes hold, until the buffer is full.
fn write_cells(bytes: &[u8], cells: &mut [Bit])
    requires { length cells.old ≤ 8 * length bytes.now }
    ensures { cells.new ≡ as_cells (unpacked (length cells.old) bytes.now) }
{
    // By the project's rule the bit is found by a shift and a mask.
    for (place, cell) in cells.iter_mut().enumerate() {
        *cell = Bit {
            byte: bit_of(bytes[place >> 3], place & 7),
        };
    }
}

// Refuses bytes whose last one has an unused bit that is 1.
pub(crate) fn check_unused(variables: &Variables, bytes: &[u8]) -> Result<(), Flaw>
    requires bytes { length bytes.now ≡ bytes_needed (2 ^ variables.now) }
    ensures { row_found result ≡ unused_row variables.now bytes.now }
{
    let n = variables.points();
    let spare = 8 * bytes.len() - n;
    match bytes.last() {
        Some(&last) if low_bits(last, spare) != 0 => Err(Flaw::UnusedBit),
        _ => Ok(()),
    }
}

// How many cells are to be unpacked, where so much room will hold them.
fn check_packed(m: u32, bytes: &[u8], room: usize) -> Result<usize, Flaw>
    ensures refused { row_found result ≡ unpack_row m bytes.now room }
    ensures count { IfOk result (λ n. n ≡ 2 ^ m) }
    ensures held { IfOk result (λ n. n ≤ 8 * length bytes.now) }
    ensures fits { IfOk result (λ n. n ≤ room) }
{
    // By hand, as for a file: a refusal has cases that no flaw has.
    let variables = Variables::try_from(m).map_err(|_| Flaw::Variables)?;
    if bytes.len() != bytes_for(&variables) {
        return Err(Flaw::Count);
    }
    let n = variables.points();
    if room < n {
        return Err(Flaw::Room);
    }
    check_unused(&variables, bytes)?;
    Ok(n)
}

// Writes the cells of m variables that the bytes hold into the first n = 2^m of the buffer, and answers n.
// By the project's rule a refusal is a plain number. A narrower type for m would ask more of callers.
pub fn unpack(m: u32, bytes: &[u8], cells: &mut [Bit]) -> Result<usize, u8>
    ensures refused { row_of result ≡ unpack_row m bytes.now (length cells.old) }
    ensures written { MatchResult result (λ n. (n ≡ 2 ^ m) × (cells.new ≡ as_cells (unpacked n bytes.now) ++ drop n cells.old)) (λ _. cells.new ≡ cells.old) }
    ensures bound { IfOk result (λ n. n ≤ length cells.old) }
    ensures undoes_packing { PackedUnpacks }
    ensures packs_again { UnpackedPacks }
{
    let n = check_packed(m, bytes, cells.len())?;
    write_cells(bytes, &mut cells[..n]);
    Ok(n)
}
