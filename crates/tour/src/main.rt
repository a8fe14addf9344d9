// One task from its beginning to its end: a grade's mark is printed and read back, then damaged and refused; the copy comes as a patch file, and is
// weighed against the mark.

#![tactic(auto)]

mod reel;
mod text;

ghost use Rattle.std.specs.Prelude.{◌≡◌, ◌+◌, ◌/◌, ◌^◌, ◌<◌, ◌≤◌, length, IfOk, MatchResult, bit_xor, slice_index, slice_set};
ghost use Rattle.polynomials.specs.Words.{word_of};
ghost use Rattle.words.specs.Refusals.{refusal_of, byte_row};

use reel::reel;
use std::{fmt, io};
use text::{Spelled, digits};
use words::{Refusal, encode, read_back};

// The grade of the tour: a message of order 2 in 6 variables, so 22 bits, and a mark of 64 cells. In a copy of the mark one cell is damaged.
const VARIABLES: u32 = 6;

const ORDER: u32 = 2;

const LENGTH: usize = 22;

const CELLS: usize = 64;

const GRADE: [u8; LENGTH] = [
    0, 0, 1, 0, 0, 1, 0, 0, 0, 1, 1, 1, 0, 1, 0, 1, 1, 0, 1, 1, 0, 0,
];

const DAMAGED: usize = 27;

// How many cells stand in a row of the picture of a mark: a square where m is even, twice as wide as high where it is odd.
// m is a plain number: a `Variables` of the constant would be one more answer to match.
fn width(m: u32) -> usize
    requires { m ≤ 8 }
    ensures { result ≡ 2 ^ ((m + 1) / 2) }
{
    1 << ((m + 1) / 2)
}

// Turns the cell at this place over.
fn damage(mark: &mut [u8], place: usize)
    requires { place < length mark.old }
    ensures { mark.new ≡ slice_set mark.old place (bit_xor (slice_index mark.old place) 1) }
{
    mark[place] ^= 1;
}

// Writes the mark of a grade, and the grade that is read back from the mark: the same one.
fn round_trip(
    grade: &[u8; LENGTH],
    mark: &mut [u8; CELLS],
    found: &mut [u8; LENGTH],
) -> Result<(), Refusal>
    ensures refused { refusal_of result ≡ byte_row 0 grade.now }
    ensures mark { MatchResult result (λ _. mark.new ≡ word_of 6 2 grade.now) (λ _. mark.new ≡ mark.old) }
    ensures found { MatchResult result (λ _. found.new ≡ grade.now) (λ _. found.new ≡ found.old) }
{
    encode(VARIABLES, ORDER, grade, mark)?;
    read_back(VARIABLES, ORDER, mark, found)?;
    Ok(())
}

// Prints a mark of the tour row by row.
fn show(rt: &HostRuntime, mark: &[u8]) -> io::Result<()> {
    for row in mark.chunks(width(VARIABLES)) {
        let cells = Spelled {
            bytes: row,
            zero: "..",
            one: "##",
        };
        println!(rt; "    {cells}")?;
    }
    Ok(())
}

// Prints what a call answered, as its caller does, or what refused the call. `cases` has the same: a crate for it alone would be no plainer.
fn print_answer<T: Drop, E: fmt::Display + Drop, F: FnOnce(T) -> io::Result<()>>(
    rt: &HostRuntime,
    answer: Result<T, E>,
    print: F,
) -> io::Result<()>
    requires { IfOk answer (λ value. F.pre print value) }
{
    match answer {
        Ok(value) => print(value),
        Err(refusal) => println!(rt; "refused {refusal}"),
    }
}

// Prints what reading back answered, and what the buffer for the message then holds.
fn report(rt: &HostRuntime, answer: Result<usize, Refusal>, found: &[u8]) -> io::Result<()> {
    let message = digits(found);
    // By a match: both answers have texts of their own.
    match answer {
        Ok(_) => println!(rt; "Read back: {message}"),
        Err(refusal) => println!(rt;
            "Read back: refused {refusal}. The buffer for the message is as before: {message}"
        ),
    }
}

fn main(rt: HostRuntime) -> io::Result<()> {
    let mut mark = [0u8; CELLS];
    let mut found = [0u8; LENGTH];
    println!(rt; "A grade, as a message of order {ORDER} in {VARIABLES} variables:")?;
    println!(rt; "    {}", digits(&GRADE))?;
    // By hand: the tour ends here, and `print_answer` would go on.
    if let Err(refusal) = round_trip(&GRADE, &mut mark, &mut found) {
        return println!(rt; "refused {refusal}");
    }
    println!(rt; "Its mark, a word of {CELLS} cells, ## for 1 and .. for 0:")?;
    show(&rt, &mark)?;
    println!(rt; "Read back from the mark, the same grade:")?;
    println!(rt; "    {}", digits(&found))?;
    let mut copy = mark;
    damage(&mut copy, DAMAGED);
    println!(rt; "A copy of the mark with the cell at place {DAMAGED} turned over:")?;
    show(&rt, &copy)?;
    let answer = read_back(VARIABLES, ORDER, &copy, &mut found);
    report(&rt, answer, &found)?;
    println!(rt; "Refusal 10 means that no grade of order {ORDER} has just this mark.")?;
    reel(&rt, &mark)
}
