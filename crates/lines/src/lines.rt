// The calls, one for each line. docs/LINES.md shows what the lines look like.
#![tactic(auto, using(crate::proofs::Numbers::numbers, crate::proofs::Digits::digits_bits))]

ghost use Rattle.std.specs.Prelude.{◌≡◌, ◌≤◌, length, IfOk, None};
ghost use Rattle.formats.specs.Decimals.{Decimals};
ghost use Rattle.formats.specs.Lines.{roll_line, word_line, end_line, stop_line, refused_line};
ghost use Rattle.words.specs.Refusals.{refusal_of, room_row};
ghost use Rattle.lines.specs.Rows.{word_line_row, Wrote};

use crate::pieces::{Piece, length, put, write};
use words::{Refusal, check_bytes, dimension};

// Writes the line with the name of a roll, and answers its length.
pub fn roll_line(name: &[u8], line: &mut [u8]) -> Result<usize, Refusal>
    ensures refused { refusal_of result ≡ room_row (length line.old) (length (roll_line name.now)) None }
    ensures written { Wrote (roll_line name.now) line.old line.new result }
    ensures bound { IfOk result (λ n. n ≤ length line.old) }
{
    write(
        &[
            Piece::Bytes(b"roll "),
            Piece::Bytes(name),
            Piece::Bytes(b"\n"),
        ],
        line,
    )
}

// Writes the line of a word that was listed: its message of order r in m variables, its cost and a count. Answers the line's length.
// m and r are plain numbers: a `Code` would ask more of callers.
pub fn word_line(
    m: u32,
    r: u32,
    message: &[u8],
    cost: u32,
    count: u64,
    line: &mut [u8],
) -> Result<usize, Refusal>
    ensures refused { refusal_of result ≡ word_line_row m r message.now cost count (length line.old) }
    ensures written { Wrote (word_line message.now cost count) line.old line.new result }
    ensures bound { IfOk result (λ n. n ≤ length line.old) }
    ensures decimals { Decimals }
{
    let pieces = [
        Piece::Bits(message),
        Piece::Bytes(b" "),
        Piece::Number(u64::from(cost)),
        Piece::Bytes(b" "),
        Piece::Number(count),
        Piece::Bytes(b"\n"),
    ];
    let k = dimension(m, r)?;
    check_bytes(message, k, line.len(), length(&pieces))?;
    Ok(put(&pieces, line))
}

// Writes the line that ends a listing: how many words were listed, and the count of the last call. Answers the line's length.
pub fn end_line(words: u64, count: u64, line: &mut [u8]) -> Result<usize, Refusal>
    ensures refused { refusal_of result ≡ room_row (length line.old) (length (end_line words count)) None }
    ensures written { Wrote (end_line words count) line.old line.new result }
    ensures bound { IfOk result (λ n. n ≤ length line.old) }
    ensures decimals { Decimals }
{
    write(
        &[
            Piece::Bytes(b"end "),
            Piece::Number(words),
            Piece::Bytes(b" "),
            Piece::Number(count),
            Piece::Bytes(b"\n"),
        ],
        line,
    )
}

// Writes the line of a listing that was stopped after 1,000 words, and answers its length.
pub fn stop_line(line: &mut [u8]) -> Result<usize, Refusal>
    ensures refused { refusal_of result ≡ room_row (length line.old) (length stop_line) None }
    ensures written { Wrote stop_line line.old line.new result }
    ensures bound { IfOk result (λ n. n ≤ length line.old) }
{
    write(&[Piece::Bytes(b"stop 1000"), Piece::Bytes(b"\n")], line)
}

// Writes the line of what was refused with this row, and answers its length.
// The row is a plain number: a type for rows would ask more of callers.
pub fn refused_line(row: u8, line: &mut [u8]) -> Result<usize, Refusal>
    ensures refused { refusal_of result ≡ room_row (length line.old) (length (refused_line row)) None }
    ensures written { Wrote (refused_line row) line.old line.new result }
    ensures bound { IfOk result (λ n. n ≤ length line.old) }
    ensures decimals { Decimals }
{
    write(
        &[
            Piece::Bytes(b"refused "),
            Piece::Number(u64::from(row)),
            Piece::Bytes(b"\n"),
        ],
        line,
    )
}
