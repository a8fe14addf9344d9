// The printed lines: with room to spare, with just the room, and with too little.
use crate::printing::print_answer;
use arrayvec::ArrayVec;
use lines::{end_line, refused_line, roll_line, stop_line, word_line};
use std::io;
use std::io::Write;
use words::Refusal;

// Asks for a line in buffers with room for so many bytes, 64 at most, and prints each answer and all of its buffer, which was dots before.
fn ask<F: Fn(&mut [u8]) -> Result<usize, Refusal>>(
    rt: &HostRuntime,
    rooms: &[usize],
    line: F,
) -> io::Result<()>
    requires { F.IsAlwaysCallable line }
{
    for room in rooms {
        // No heap: an array, cut to the room.
        let mut buffer = ArrayVec::from([b'.'; 64]);
        buffer.truncate(*room);
        print!(rt; "line, room {room}: ")?;
        print_answer(rt, line(&mut buffer), |n| println!(rt; "{n} bytes"))?;
        rt.stdout().write_all(&buffer)?;
        println!(rt; "|")?;
    }
    Ok(())
}

// A line of each kind, the longest ones, and each row that refuses one.
pub(crate) fn lines(rt: &HostRuntime) -> io::Result<()> {
    ask(rt, &[12, 8, 7], |line| roll_line(b"R1", line))?;
    ask(rt, &[6, 5], |line| roll_line(b"", line))?;
    ask(rt, &[10, 7], |line| word_line(2, 1, &[0, 0, 0], 1, 4, line))?;
    ask(
        rt,
        &[29, 28],
        |line| word_line(0, 0, &[1], 32512, u64::MAX, line),
    )?;
    ask(rt, &[0], |line| word_line(9, 10, &[2], 1, 4, line))?;
    ask(rt, &[0], |line| word_line(2, 3, &[2], 1, 4, line))?;
    ask(rt, &[0], |line| word_line(2, 1, &[0, 2], 1, 4, line))?;
    ask(rt, &[7, 8], |line| word_line(2, 1, &[0, 2, 1], 1, 4, line))?;
    ask(rt, &[8, 7], |line| end_line(4, 0, line))?;
    ask(rt, &[46], |line| end_line(u64::MAX, u64::MAX, line))?;
    ask(rt, &[27], |line| end_line(u64::MAX, 10, line))?;
    // In a closure, since the check does not follow the bare name of another crate's function.
    ask(rt, &[10, 9], |line| stop_line(line))?;
    ask(rt, &[11, 10], |line| refused_line(14, line))?;
    ask(rt, &[12], |line| refused_line(0, line))?;
    ask(rt, &[12], |line| refused_line(255, line))
}
