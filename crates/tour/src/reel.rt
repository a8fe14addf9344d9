// A mark that comes as a patch file: the file is read, its roll and its cells are shown, and the cost of the grade's own mark; then its header is damaged.
ghost use Rattle.std.specs.Prelude.{◌≡◌, ◌≤◌, map, length, IfOk};
ghost use Rattle.cells.specs.Costs.{distance};

use crate::{print_answer, show};
use cells::{Bit, cost, weigh};
use lines::{refused_line, roll_line};
use patch::{Patch, read_patch, unpack};
use std::alloc::{AllocError, Global};
use std::io;
use std::io::Write;
use words::Refusal;

// A patch file: the header, with m, r, T, the number of cells and their place, the length of the name and its place; the name; and the cells.
const FILE: [u8; 26] =
    *b"\x06\x02\x00\x05\x00\x40\x00\x12\x00\x06\x00\x0cREEL 7\x24\x7e\x8e\xc4\xd4\x8e\x7e\x24";

// Which byte of the file is damaged, and what it becomes: the cells then begin at place 20 and leave the file.
const DAMAGED: usize = 7;

const BECOMES: u8 = 20;

// The bytes of bit cells.
fn bytes_of(heap: Global, cells: &[Bit]) -> Result<Vec<u8>, AllocError>
    ensures { IfOk result (λ bytes. bytes.items ≡ map (λ cell. cell.byte) cells.now) }
{
    cells.iter().map(|cell| cell.byte).collect(heap)
}

// What a mark costs against bit cells: at how many points it differs from them.
fn cost_against(cells: &[Bit], weights: &mut [i8], m: u32, mark: &[u8]) -> Result<u32, Refusal>
    ensures { IfOk result (λ paid. paid ≡ distance m (map (λ cell. cell.byte) cells.now) mark.now) }
{
    let n = weigh(cells, weights)?;
    cost(m, &weights[..n], mark)
}

// Has a line written with room for so many bytes, and prints it, or what refused it.
fn print_line<F: FnOnce(&mut [u8]) -> Result<usize, Refusal>>(
    rt: &HostRuntime,
    room: usize,
    write: F,
) -> io::Result<()>
    requires callable { F.IsAlwaysCallable write }
    requires bound { (line : _) (answer : _) (after : _) → F.post write line answer after → IfOk answer (λ n. n ≤ length line.now) }
{
    let mut line = vec![in rt.alloc(); 0u8; room]?;
    print_answer(rt, write(&mut line), |n| rt.stdout().write_all(&line[..n]))
}

// Prints cells, and what a mark costs against them.
fn show_cost(rt: &HostRuntime, cells: &[Bit], m: u32, mark: &[u8]) -> io::Result<()> {
    show(rt, &bytes_of(rt.alloc(), cells)?)?;
    let mut weights = vec![in rt.alloc(); 0i8; cells.len()]?;
    print_answer(
        rt,
        cost_against(cells, &mut weights, m, mark),
        |paid| println!(rt; "The cost of the grade's mark against these cells: {paid}"),
    )
}

// Unpacks the cells that a patch file brings, and prints them and what a mark costs against them.
fn show_cells(rt: &HostRuntime, patch: &Patch<'_>, mark: &[u8]) -> io::Result<()> {
    let m = patch.header.variables;
    let mut cells = vec![in rt.alloc(); Bit { byte: 0 }; patch.header.count]?;
    let answer = unpack(m, patch.cells, &mut cells);
    print_answer(rt, answer, |n| show_cost(rt, &cells[..n], m, mark))
}

// Reads a patch file, and prints its roll line and its cells, or the line of what it is refused with.
fn show_file(rt: &HostRuntime, file: &[u8], mark: &[u8]) -> io::Result<()> {
    // By a match: a file that is refused has its printed line.
    match read_patch(file) {
        Ok(patch) => {
            let name = patch.name;
            print_line(rt, name.len() + 6, |line| roll_line(name, line))?;
            show_cells(rt, &patch, mark)
        }
        Err(row) => print_line(rt, 12, |line| refused_line(row, line)),
    }
}

// The file as it comes, and the file with its header damaged.
pub(crate) fn reel(rt: &HostRuntime, mark: &[u8]) -> io::Result<()> {
    let mut file = FILE;
    println!(rt; "The copy as it comes in a patch file:")?;
    show_file(rt, &file, mark)?;
    file[DAMAGED] = BECOMES;
    println!(rt;
        "The file with byte {DAMAGED} of its header changed, so that the cells would leave the file:"
    )?;
    show_file(rt, &file, mark)
}
