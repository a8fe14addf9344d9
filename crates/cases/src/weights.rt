// Pixels at the edges, lists of cells with faults, and costs.
use crate::printing::print_answer;
use crate::strength::Strength;
use arrayvec::ArrayVec;
use cells::{Bit, Cell, Pixel, check_cells, cost, weigh};
use std::io;
use std::num::f32_from_bits_with_nan;

// The bits of levels at the edges: 0, 1 and 17/64 with the levels next to them on both sides, 1/4, 1/2, the infinities, and one that is not a number.
const LEVELS: [u32; 15] = [
    0xff80_0000,
    0x8000_0001,
    0x8000_0000,
    0x0000_0000,
    0x0000_0001,
    0x3e80_0000,
    0x3e87_ffff,
    0x3e88_0000,
    0x3e88_0001,
    0x3f00_0000,
    0x3f7f_ffff,
    0x3f80_0000,
    0x3f80_0001,
    0x7f80_0000,
    0x7fc0_0000,
];

// Prints the weight of a cell, or its fault.
fn print_reading<C: Cell>(rt: &HostRuntime, cell: &C) -> io::Result<()> {
    // By a match: a fault prints no row of its own.
    match cell.read() {
        Ok(weight) => println!(rt; "weighs {weight}"),
        Err(fault) => println!(rt; "refused {}, {fault}", fault.number()),
    }
}

// Reads the pixel of two levels, given by their bits, and prints the question and the answer.
fn ask_pixel(rt: &HostRuntime, dark: u32, light: u32) -> io::Result<()> {
    let pixel = Pixel {
        darkest: f32_from_bits_with_nan(dark),
        lightest: f32_from_bits_with_nan(light),
    };
    print!(rt; "pixel {dark:08x} {light:08x}: ")?;
    print_reading(rt, &pixel)
}

// Every pair of the levels.
pub(crate) fn pixels(rt: &HostRuntime) -> io::Result<()> {
    for dark in &LEVELS {
        for light in &LEVELS {
            ask_pixel(rt, *dark, *light)?;
        }
    }
    Ok(())
}

// Reads a bit cell, and prints the question and the answer.
fn ask_bit(rt: &HostRuntime, byte: u8) -> io::Result<()> {
    print!(rt; "bit {byte}: ")?;
    print_reading(rt, &Bit { byte })
}

// Checks a list of cells, then weighs it with room for so many weights, 4 at most, and prints the question, with the cells as this text, the answers
// and the weights, which were 7 before.
// The text is given beside the cells: each kind prints in its own way, and two of them are types of another crate.
fn ask_list<C: Cell>(rt: &HostRuntime, text: &str, cells: &[C], room: usize) -> io::Result<()> {
    // No heap: an array, cut to the room.
    let mut weights = ArrayVec::from([7i8; 4]);
    weights.truncate(room);
    print!(rt; "{text}, room {room}: ")?;
    print_answer(rt, check_cells(cells), |()| println!(rt; "checked"))?;
    // By a match: the weights stand before the refusal.
    match weigh(cells, &mut weights) {
        Ok(n) => println!(rt; "    {n} cells weighed, the weights {weights:?}"),
        Err(refusal) => println!(rt; "    the weights {weights:?}, refused {refusal}"),
    }
}

// Bits, and lists of bits: accepted, with faults, and without room.
fn bits(rt: &HostRuntime) -> io::Result<()> {
    for byte in [0, 1, 2, 255] {
        ask_bit(rt, byte)?;
    }
    let bits = [0, 1, 0].map(|byte| Bit { byte });
    let faulty = [0, 2, 3].map(|byte| Bit { byte });
    ask_list(rt, "bits 0 1 0", &bits, 4)?;
    ask_list(rt, "bits 0 1 0", &bits, 2)?;
    ask_list(rt, "bits 0 2 3", &faulty, 3)?;
    ask_list(rt, "bits 0 2 3", &faulty, 2)
}

// Lists of pixels: with a fault, and with none at all.
fn pixel_lists(rt: &HostRuntime) -> io::Result<()> {
    let pixels = [(1.0, 1.0), (0.5, 0.25), (2.0, 2.0)].map(|(darkest, lightest)| Pixel {
        darkest,
        lightest,
    });
    ask_list(rt, "pixels (1, 1), (0.5, 0.25), (2, 2)", &pixels, 3)?;
    ask_list(rt, "no pixels", &pixels[..0], 0)
}

// Lists of a kind of cell from outside the library: accepted, and with a fault.
fn strengths(rt: &HostRuntime) -> io::Result<()> {
    let strengths = [127, -127, 0, -128].map(|strength| Strength { strength });
    ask_list(rt, "strengths 127 -127 0", &strengths[..3], 4)?;
    ask_list(rt, "strengths 127 -127 0 -128", &strengths, 4)
}

// Lists of cells of each kind.
pub(crate) fn lists(rt: &HostRuntime) -> io::Result<()> {
    bits(rt)?;
    pixel_lists(rt)?;
    strengths(rt)
}

// Asks for a cost, and prints the question and the answer.
fn ask_cost(rt: &HostRuntime, m: u32, weights: &[i8], word: &[u8]) -> io::Result<()> {
    print!(rt; "cost, m={m} weights {weights:?} word {word:?}: ")?;
    print_answer(rt, cost(m, weights, word), |paid| println!(rt; "{paid}"))
}

// Costs, the rows that refuse one, and the largest.
pub(crate) fn costs(rt: &HostRuntime) -> io::Result<()> {
    ask_cost(rt, 2, &[1, 1, 1, -1], &[0, 0, 0, 0])?;
    ask_cost(rt, 1, &[64, -16], &[0, 0])?;
    ask_cost(rt, 1, &[64, -16], &[1, 1])?;
    ask_cost(rt, 1, &[0, -128], &[1, 0])?;
    ask_cost(rt, 9, &[1], &[2])?;
    ask_cost(rt, 1, &[1], &[0, 2])?;
    ask_cost(rt, 1, &[1, 1], &[2])?;
    ask_cost(rt, 1, &[1, 1], &[0, 2])?;
    // By hand: `ask_cost` would print 256 weights.
    print!(rt; "cost, m=8 weights all 127 word all 1: ")?;
    let answer = cost(8, &[127i8; 256], &[1u8; 256]);
    print_answer(rt, answer, |paid| println!(rt; "{paid}"))
}
