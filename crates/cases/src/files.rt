// Patch files at the edges, and packed cells.
ghost use Rattle.std.specs.Prelude.{◌≡◌, ◌++◌, take, drop, replicate};

use crate::printing::print_answer;
use arrayvec::ArrayVec;
use cells::Bit;
use patch::{Patch, read_patch, unpack};
use std::io;

// Files to try: the size of each, and its first 15 bytes. All other bytes are 0.
const FILES: [(usize, [u8; 15]); 82] = [
    (15, [2, 1, 0, 1, 0, 4, 0, 12, 0, 2, 0, 13, 16, 82, 49]),
    (0, [2, 1, 0, 1, 0, 4, 0, 12, 0, 0, 0, 12, 16, 0, 0]),
    (1, [2, 1, 0, 1, 0, 4, 0, 12, 0, 0, 0, 12, 16, 0, 0]),
    (2, [2, 1, 0, 1, 0, 4, 0, 12, 0, 0, 0, 12, 16, 0, 0]),
    (3, [2, 1, 0, 1, 0, 4, 0, 12, 0, 0, 0, 12, 16, 0, 0]),
    (4, [2, 1, 0, 1, 0, 4, 0, 12, 0, 0, 0, 12, 16, 0, 0]),
    (5, [2, 1, 0, 1, 0, 4, 0, 12, 0, 0, 0, 12, 16, 0, 0]),
    (6, [2, 1, 0, 1, 0, 4, 0, 12, 0, 0, 0, 12, 16, 0, 0]),
    (7, [2, 1, 0, 1, 0, 4, 0, 12, 0, 0, 0, 12, 16, 0, 0]),
    (8, [2, 1, 0, 1, 0, 4, 0, 12, 0, 0, 0, 12, 16, 0, 0]),
    (9, [2, 1, 0, 1, 0, 4, 0, 12, 0, 0, 0, 12, 16, 0, 0]),
    (10, [2, 1, 0, 1, 0, 4, 0, 12, 0, 0, 0, 12, 16, 0, 0]),
    (11, [2, 1, 0, 1, 0, 4, 0, 12, 0, 0, 0, 12, 16, 0, 0]),
    (12, [2, 1, 0, 1, 0, 4, 0, 12, 0, 0, 0, 12, 16, 0, 0]),
    (13, [2, 1, 0, 1, 0, 4, 0, 12, 0, 0, 0, 12, 16, 0, 0]),
    (4095, [2, 1, 0, 1, 0, 4, 0, 12, 0, 2, 0, 13, 16, 0, 0]),
    (4096, [2, 1, 0, 1, 0, 4, 0, 12, 0, 2, 0, 13, 16, 0, 0]),
    (4097, [2, 1, 0, 1, 0, 4, 0, 12, 0, 2, 0, 13, 16, 0, 0]),
    (20, [0, 0, 0, 1, 0, 1, 0, 12, 0, 2, 0, 13, 128, 0, 0]),
    (20, [3, 3, 0, 1, 0, 8, 0, 12, 0, 2, 0, 13, 255, 0, 0]),
    (46, [8, 8, 0, 1, 1, 0, 0, 12, 0, 2, 0, 44, 1, 0, 0]),
    (20, [9, 8, 0, 1, 2, 0, 0, 12, 0, 2, 0, 13, 16, 0, 0]),
    (20, [255, 0, 0, 1, 0, 0, 0, 12, 0, 2, 0, 13, 16, 0, 0]),
    (20, [2, 0, 0, 1, 0, 4, 0, 12, 0, 2, 0, 13, 16, 0, 0]),
    (20, [2, 2, 0, 1, 0, 4, 0, 12, 0, 2, 0, 13, 16, 0, 0]),
    (20, [2, 3, 0, 1, 0, 4, 0, 12, 0, 2, 0, 13, 16, 0, 0]),
    (20, [2, 255, 0, 1, 0, 4, 0, 12, 0, 2, 0, 13, 16, 0, 0]),
    (20, [2, 1, 0, 0, 0, 4, 0, 12, 0, 2, 0, 13, 16, 0, 0]),
    (20, [2, 1, 127, 0, 0, 4, 0, 12, 0, 2, 0, 13, 16, 0, 0]),
    (20, [2, 1, 127, 1, 0, 4, 0, 12, 0, 2, 0, 13, 16, 0, 0]),
    (20, [2, 1, 255, 255, 0, 4, 0, 12, 0, 2, 0, 13, 16, 0, 0]),
    (20, [2, 1, 0, 1, 0, 0, 0, 12, 0, 2, 0, 13, 16, 0, 0]),
    (20, [2, 1, 0, 1, 0, 3, 0, 12, 0, 2, 0, 13, 16, 0, 0]),
    (20, [2, 1, 0, 1, 0, 5, 0, 12, 0, 2, 0, 13, 16, 0, 0]),
    (20, [2, 1, 0, 1, 1, 4, 0, 12, 0, 2, 0, 13, 16, 0, 0]),
    (20, [2, 1, 0, 1, 255, 255, 0, 12, 0, 2, 0, 13, 16, 0, 0]),
    (20, [2, 1, 0, 1, 0, 4, 0, 0, 0, 2, 0, 13, 16, 0, 0]),
    (20, [2, 1, 0, 1, 0, 4, 0, 11, 0, 2, 0, 13, 16, 0, 0]),
    (20, [2, 1, 0, 1, 0, 4, 0, 15, 0, 2, 0, 13, 16, 0, 0]),
    (20, [2, 1, 0, 1, 0, 4, 0, 19, 0, 2, 0, 13, 16, 0, 0]),
    (20, [2, 1, 0, 1, 0, 4, 0, 20, 0, 2, 0, 13, 16, 0, 0]),
    (20, [2, 1, 0, 1, 0, 4, 255, 255, 0, 2, 0, 13, 16, 0, 0]),
    (44, [8, 1, 0, 1, 1, 0, 0, 12, 0, 0, 0, 12, 0, 0, 0]),
    (43, [8, 1, 0, 1, 1, 0, 0, 12, 0, 0, 0, 12, 0, 0, 0]),
    (44, [8, 1, 0, 1, 1, 0, 0, 13, 0, 0, 0, 12, 0, 0, 0]),
    (20, [2, 1, 0, 1, 0, 4, 0, 12, 0, 7, 0, 13, 16, 0, 0]),
    (20, [2, 1, 0, 1, 0, 4, 0, 12, 0, 8, 0, 13, 16, 0, 0]),
    (20, [2, 1, 0, 1, 0, 4, 0, 12, 255, 255, 0, 13, 16, 0, 0]),
    (20, [2, 1, 0, 1, 0, 4, 0, 12, 0, 2, 0, 0, 16, 0, 0]),
    (20, [2, 1, 0, 1, 0, 4, 0, 12, 0, 2, 0, 11, 16, 0, 0]),
    (20, [2, 1, 0, 1, 0, 4, 0, 12, 0, 2, 0, 18, 16, 0, 0]),
    (20, [2, 1, 0, 1, 0, 4, 0, 12, 0, 2, 0, 19, 16, 0, 0]),
    (20, [2, 1, 0, 1, 0, 4, 0, 12, 0, 2, 255, 255, 16, 0, 0]),
    (20, [2, 1, 0, 1, 0, 4, 0, 12, 0, 2, 0, 13, 16, 0, 0]),
    (20, [2, 1, 0, 1, 0, 4, 0, 12, 0, 2, 0, 12, 16, 0, 0]),
    (20, [2, 1, 0, 1, 0, 4, 0, 14, 0, 2, 0, 12, 16, 0, 0]),
    (20, [2, 1, 0, 1, 0, 4, 0, 13, 0, 2, 0, 12, 16, 0, 0]),
    (46, [8, 1, 0, 1, 1, 0, 0, 12, 0, 1, 0, 44, 0, 0, 0]),
    (46, [8, 1, 0, 1, 1, 0, 0, 12, 0, 1, 0, 43, 0, 0, 0]),
    (46, [8, 1, 0, 1, 1, 0, 0, 14, 0, 2, 0, 12, 0, 0, 0]),
    (46, [8, 1, 0, 1, 1, 0, 0, 13, 0, 2, 0, 12, 0, 0, 0]),
    (20, [2, 1, 0, 1, 0, 4, 0, 12, 0, 0, 0, 11, 16, 0, 0]),
    (20, [2, 1, 0, 1, 0, 4, 0, 12, 0, 0, 0, 12, 16, 0, 0]),
    (46, [8, 1, 0, 1, 1, 0, 0, 12, 0, 0, 0, 30, 0, 0, 0]),
    (20, [2, 1, 0, 1, 0, 4, 0, 12, 0, 0, 0, 20, 16, 0, 0]),
    (20, [2, 1, 0, 1, 0, 4, 0, 12, 0, 0, 0, 21, 16, 0, 0]),
    (20, [0, 0, 0, 1, 0, 1, 0, 12, 0, 2, 0, 13, 0, 0, 0]),
    (20, [0, 0, 0, 1, 0, 1, 0, 12, 0, 2, 0, 13, 64, 0, 0]),
    (20, [0, 0, 0, 1, 0, 1, 0, 12, 0, 2, 0, 13, 129, 0, 0]),
    (20, [1, 1, 0, 1, 0, 2, 0, 12, 0, 2, 0, 13, 192, 0, 0]),
    (20, [1, 1, 0, 1, 0, 2, 0, 12, 0, 2, 0, 13, 32, 0, 0]),
    (20, [2, 1, 0, 1, 0, 4, 0, 12, 0, 2, 0, 13, 240, 0, 0]),
    (20, [2, 1, 0, 1, 0, 4, 0, 12, 0, 2, 0, 13, 8, 0, 0]),
    (20, [2, 1, 0, 1, 0, 4, 0, 12, 0, 2, 0, 13, 1, 0, 0]),
    (20, [3, 1, 0, 1, 0, 8, 0, 12, 0, 2, 0, 13, 1, 0, 0]),
    (11, [9, 10, 156, 64, 0, 1, 0, 0, 0, 9, 0, 0, 255, 0, 0]),
    (20, [9, 10, 156, 64, 0, 1, 0, 0, 0, 9, 0, 0, 255, 0, 0]),
    (20, [2, 10, 156, 64, 0, 1, 0, 0, 0, 9, 0, 0, 255, 0, 0]),
    (20, [2, 1, 156, 64, 0, 1, 0, 0, 0, 9, 0, 0, 255, 0, 0]),
    (20, [2, 1, 0, 1, 0, 1, 0, 0, 0, 9, 0, 0, 255, 0, 0]),
    (20, [2, 1, 0, 1, 0, 4, 0, 0, 0, 9, 0, 0, 255, 0, 0]),
    (20, [2, 1, 0, 1, 0, 4, 0, 12, 0, 2, 0, 13, 255, 0, 0]),
];

// Unpacks with room for so many cells, 256 at most, and prints the first cells of the buffer, which were 7 before, or the row.
fn print_unpacked(rt: &HostRuntime, m: u32, bytes: &[u8], room: usize) -> io::Result<()> {
    // By a slice: `truncate` of an `ArrayVec` asks for a default, and a cell has none.
    let mut buffer = [Bit { byte: 7 }; 256];
    let cells = &mut buffer[..room.min(256)];
    // By a match: no line ends here.
    match unpack(m, bytes, cells) {
        Ok(n) => print!(rt; "{n} cells,")?,
        Err(row) => print!(rt; "refused {row},")?,
    }
    for cell in cells.iter().take(9) {
        print!(rt; " {}", cell.byte)?;
    }
    println!(rt; "")
}

// Prints the parts of a patch and its cells.
fn print_patch(rt: &HostRuntime, patch: &Patch<'_>) -> io::Result<()> {
    print!(rt; "name {:?}, bytes {:?}, ", patch.name, patch.cells)?;
    print_unpacked(rt, patch.header.variables, patch.cells, 256)
}

// A file of so many bytes, 4,097 at most: these, and 0 after them.
fn begun_with(size: usize, bytes: &[u8; 15]) -> ArrayVec<u8, 4097>
    ensures { result.items ≡ take size (bytes.now ++ drop 15 (replicate 4097 0)) }
{
    // No heap: the longest file, cut to the size.
    let mut longest = [0; 4097];
    longest[..15].copy_from_slice(bytes);
    let mut file = ArrayVec::from(longest);
    file.truncate(size);
    file
}

// Reads a file of so many bytes that begins with these, and prints the answer.
fn ask_file(rt: &HostRuntime, size: usize, bytes: &[u8; 15]) -> io::Result<()> {
    let file = begun_with(size, bytes);
    print_answer(rt, read_patch(&file), |patch| print_patch(rt, &patch))
}

// Tries each of the files, and prints its size, its first bytes and the answer.
pub(crate) fn files(rt: &HostRuntime) -> io::Result<()> {
    for (size, bytes) in &FILES {
        print!(rt; "file of {size}, {bytes:?}: ")?;
        ask_file(rt, *size, bytes)?;
    }
    Ok(())
}

// Unpacks with room for so many cells, and prints the question and the answer.
fn ask_unpack(rt: &HostRuntime, m: u32, bytes: &[u8], room: usize) -> io::Result<()> {
    print!(rt; "unpack, m={m},")?;
    if bytes.is_empty() {
        print!(rt; " no bytes")?;
    }
    for byte in bytes {
        print!(rt; " {byte}")?;
    }
    print!(rt; ", room {room}: ")?;
    print_unpacked(rt, m, bytes, room)
}

// The rows of unpack, and all bits of a byte.
pub(crate) fn unpackings(rt: &HostRuntime) -> io::Result<()> {
    ask_unpack(rt, 3, &[165], 8)?;
    ask_unpack(rt, 4, &[1, 128], 16)?;
    ask_unpack(rt, 1, &[64], 4)?;
    ask_unpack(rt, 9, &[], 0)?;
    ask_unpack(rt, 4, &[1], 0)?;
    ask_unpack(rt, 2, &[8], 3)?;
    ask_unpack(rt, 2, &[8], 4)
}
