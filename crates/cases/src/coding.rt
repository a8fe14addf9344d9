// The calls on words, with their rows.
ghost use Rattle.std.specs.Prelude.{◌≤◌, length, IfOk};

use crate::printing::{Digits, print_answer};
use arrayvec::ArrayVec;
use std::io;
use words::{Refusal, dimension, encode, read_back};

// A question: m, r, bytes, and how much room the answer has. A tuple, as the files are, so that each question stands on a line.
type Question = (u32, u32, &'static [u8], usize);

// The questions to encode, with each of its rows.
const ENCODINGS: [Question; 6] = [
    (4, 3, &[0, 0, 1, 0, 0, 0, 1, 1, 0, 0, 0, 0, 1, 0, 1], 16),
    (9, 0, &[1], 256),
    (3, 4, &[1], 8),
    (3, 1, &[0, 1, 0], 8),
    (3, 1, &[0, 1, 2, 3], 7),
    (3, 1, &[0, 1, 2, 3], 8),
];

// The questions to read_back, with each of its rows.
const READINGS: [Question; 7] = [
    (4, 3, &[1, 1, 0, 0, 1, 1, 0, 1, 0, 0, 1, 1, 1, 1, 0, 1], 15),
    (9, 1, &[0, 0, 0, 1], 3),
    (2, 3, &[0, 0, 0, 1], 3),
    (2, 1, &[0, 0, 1], 3),
    (2, 1, &[0, 0, 0, 9], 2),
    (2, 1, &[0, 0, 0, 9], 3),
    (2, 1, &[0, 0, 0, 1], 3),
];

// Asks for the dimension, and prints the question and the answer.
fn ask_dimension(rt: &HostRuntime, m: u32, r: u32) -> io::Result<()> {
    print!(rt; "dimension, m={m} r={r}: ")?;
    print_answer(rt, dimension(m, r), |k| println!(rt; "{k}"))
}

// Makes a call on each question, with room for 256 bytes at most, and prints the question, with the call's name, and the answer.
fn ask<F: Fn(u32, u32, &[u8], &mut [u8]) -> Result<usize, Refusal>>(
    rt: &HostRuntime,
    name: &str,
    questions: &[Question],
    call: F,
) -> io::Result<()>
    requires callable { F.IsAlwaysCallable call }
    requires bound { (m : _) (r : _) (bytes : _) (buffer : _) (answer : _) (after : _) → F.post call m r bytes buffer answer after → IfOk answer (λ n. n ≤ length buffer.now) }
{
    for (m, r, bytes, room) in questions {
        // No heap: an array, cut to the room.
        let mut buffer = ArrayVec::from([0u8; 256]);
        buffer.truncate(*room);
        print!(rt; "{name}, m={m} r={r} room {room}, {}: ", Digits(bytes))?;
        let answer = call(*m, *r, bytes, &mut buffer);
        print_answer(rt, answer, |n| println!(rt; "{}", Digits(&buffer[..n])))?;
    }
    Ok(())
}

// The rows of dimension, and the largest sizes.
pub(crate) fn dimensions(rt: &HostRuntime) -> io::Result<()> {
    ask_dimension(rt, 0, 0)?;
    ask_dimension(rt, 8, 4)?;
    ask_dimension(rt, 8, 8)?;
    ask_dimension(rt, 9, 4)?;
    ask_dimension(rt, u32::MAX, u32::MAX)?;
    ask_dimension(rt, 8, 9)
}

// The rows of encode.
pub(crate) fn encodings(rt: &HostRuntime) -> io::Result<()> {
    // In a closure, since the check does not follow the bare name of another crate's function.
    ask(
        rt,
        "encode",
        &ENCODINGS,
        |m, r, message, word| encode(m, r, message, word),
    )
}

// The rows of read_back.
pub(crate) fn readings(rt: &HostRuntime) -> io::Result<()> {
    // In a closure, as above.
    ask(
        rt,
        "read back",
        &READINGS,
        |m, r, table, message| read_back(m, r, table, message),
    )
}
