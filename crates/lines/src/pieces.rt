// The pieces of a line, one after another.
ghost use Rattle.std.specs.Prelude.{◌≡◌, ◌<◌, ◌≤◌, ◌^◌, ◌++◌, map, length, drop, decimal, None, IfOk};
ghost use Rattle.words.specs.Refusals.{refusal_of, room_row};
ghost use Rattle.lines.specs.Pieces.{digit, bytes_of, text};
ghost use Rattle.lines.specs.Rows.{Wrote};

use itoa::{Buffer, write_digits};
use words::{Refusal, check_room};

// A piece of a line.
#[derive(Clone, Copy)]
pub(crate) enum Piece<'a> {
    // Bytes as they are.
    Bytes(&'a [u8]),
    // Bits as the digits 0 and 1.
    Bits(&'a [u8]),
    // A number in decimal digits.
    Number(u64),
}

impl Piece<'_> {
    // How many bytes it has.
    fn len(&self) -> usize
        ensures { result ≡ length (bytes_of self.now) }
    {
        match self {
            Piece::Bytes(bytes) => bytes.len(),
            Piece::Bits(bits) => bits.len(),
            Piece::Number(n) => Buffer::new().format(*n).len(),
        }
    }

    // Puts it into the front of the buffer, and answers how many bytes it has.
    fn put(&self, line: &mut [u8]) -> usize
        requires { length (bytes_of self.now) ≤ length line.old }
        ensures after { result ≡ length (bytes_of self.now) }
        ensures put { line.new ≡ bytes_of self.now ++ drop result line.old }
    {
        match self {
            Piece::Bytes(bytes) => put_bytes(bytes, line),
            Piece::Bits(bits) => put_bits(bits, line),
            Piece::Number(n) => put_number(*n, line),
        }
    }
}

// Puts bytes into the front of the buffer, and answers how many they are.
fn put_bytes(bytes: &[u8], line: &mut [u8]) -> usize
    requires { length bytes.now ≤ length line.old }
    ensures after { result ≡ length bytes.now }
    ensures put { line.new ≡ bytes.now ++ drop result line.old }
{
    line[..bytes.len()].copy_from_slice(bytes);
    bytes.len()
}

// A bit as a digit.
fn digit(bit: u8) -> u8
    ensures { result ≡ digit bit }
{
    if bit == 0 { b'0' } else { b'1' }
}

// Puts bits as the digits 0 and 1 into the front of the buffer, and answers how many they are.
// Not inlined, so that the loop over the pieces is short enough to unroll.
#[inline(never)]
fn put_bits(bits: &[u8], line: &mut [u8]) -> usize
    requires { length bits.now ≤ length line.old }
    ensures after { result ≡ length bits.now }
    ensures put { line.new ≡ map digit bits.now ++ drop result line.old }
{
    // In place: with `line.iter_mut().zip(bits)` the goal `returns-clause-put` stays open.
    let n = put_bytes(bits, line);
    for cell in line[..n].iter_mut() {
        *cell = digit(*cell);
    }
    n
}

// Puts a number in decimal digits into the front of the buffer, and answers how many they are.
// Not inlined, as above.
#[inline(never)]
fn put_number(n: u64, line: &mut [u8]) -> usize
    requires { length (decimal n) ≤ length line.old }
    ensures after { result ≡ length (decimal n) }
    ensures put { line.new ≡ decimal n ++ drop result line.old }
{
    // One digit needs no count of digits first.
    if n < 10 {
        return put_bytes(&[b'0' + n as u8], line);
    }
    let end = Piece::Number(n).len();
    write_digits(n, line, end);
    end
}

// How many bytes the pieces have together.
pub(crate) fn length(pieces: &[Piece]) -> usize
    requires { length (text pieces.now) < 2 ^ 64 }
    ensures { result ≡ length (text pieces.now) }
{
    pieces.iter().map(Piece::len).sum()
}

// Puts the pieces into the front of the buffer, and answers how many bytes they have together.
// Inlined, so that the loop unrolls over a line's known pieces.
#[inline(always)]
pub(crate) fn put(pieces: &[Piece], line: &mut [u8]) -> usize
    requires { length (text pieces.now) ≤ length line.old }
    ensures after { result ≡ length (text pieces.now) }
    ensures put { line.new ≡ text pieces.now ++ drop result line.old }
{
    // A loop: in a fold the closure writes the buffer, and `returns-clause-put`, what the buffer then holds, stays open.
    let mut end = 0;
    for piece in pieces {
        end += piece.put(&mut line[end..]);
    }
    end
}

// Writes the pieces as a line into the front of the buffer, where they have room, and answers the line's length.
// Inlined, as above.
#[inline(always)]
pub(crate) fn write(pieces: &[Piece], line: &mut [u8]) -> Result<usize, Refusal>
    requires { length (text pieces.now) < 2 ^ 64 }
    ensures refused { refusal_of result ≡ room_row (length line.old) (length (text pieces.now)) None }
    ensures written { Wrote (text pieces.now) line.old line.new result }
    ensures bound { IfOk result (λ n. n ≤ length line.old) }
{
    check_room(line.len(), length(pieces))?;
    Ok(put(pieces, line))
}
