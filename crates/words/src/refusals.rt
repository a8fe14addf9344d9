// Refusals and faults. docs/REFUSALS.md has the rows and their numbers.
ghost use Rattle.std.specs.Prelude.{◌≡◌, Some};
ghost use Rattle.words.specs.Refusals.{fault_row, found, told, number};
ghost use Rattle.words.specs.Texts.{found_text, told_text};

use std::error::Error;
use std::fmt;
use std::num::f32_to_bits_with_nan;

// What is wrong with one byte of a message or a table, or with one cell of any kind.
#[derive(Clone, Copy, Debug, Drop)]
pub enum Fault {
    // A byte that is not allowed.
    Byte(u8),
    // A level that is not a number.
    NotANumber,
    // A level that is not allowed.
    Level(f32),
    // Two levels in the wrong order, the darkest and the lightest.
    Levels(f32, f32),
}

impl Fault {
    // The number of the row.
    pub fn number(&self) -> u8
        ensures { result ≡ fault_row self.now }
    {
        // By a match: a case with fields has no number of its own that could be cast.
        match self {
            Fault::Byte(_) => 8,
            Fault::NotANumber | Fault::Level(_) | Fault::Levels(_, _) => 9,
        }
    }
}

impl fmt::Display for Fault {
    ghost output = { λ fault. Some (found_text (found fault)) };

    // What was found: the byte in decimal digits, or the levels by their bits in hexadecimal ones.
    fn fmt<W: fmt::Write>(&self, f: &mut fmt::Formatter<W>) -> fmt::Result {
        match self {
            Fault::Byte(byte) => write!(f, "byte {byte}"),
            Fault::NotANumber => f.write_str("no level"),
            Fault::Level(level) => write!(f, "level {:08x}", f32_to_bits_with_nan(*level)),
            Fault::Levels(darkest, lightest) => {
                let dark = f32_to_bits_with_nan(*darkest);
                let light = f32_to_bits_with_nan(*lightest);
                write!(f, "levels {dark:08x} {light:08x}")
            }
        }
    }
}

impl Error for Fault {}

// Why a call is refused.
#[derive(Clone, Copy, Debug, Drop)]
pub enum Refusal {
    // More than eight variables.
    Variables,
    // An order above the number of variables.
    Order,
    // A radius above the widest.
    Radius,
    // A reader that has not been set.
    Unset,
    // A reader without cells.
    NoCells,
    // A message, a word or a list of another length than asked.
    Length,
    // A buffer shorter than what the call may write.
    Room,
    // The place of the first byte or cell at fault, and its fault.
    At { place: usize, fault: Fault },
    // A table that is no word of the order.
    NoWord,
}

impl Refusal {
    // The number of the row.
    pub fn number(&self) -> u8
        ensures { result ≡ number (told self.now) }
    {
        // By a match here too.
        match self {
            Refusal::Variables => 1,
            Refusal::Order => 2,
            Refusal::Radius => 3,
            Refusal::Unset => 4,
            Refusal::NoCells => 5,
            Refusal::Length => 6,
            Refusal::Room => 7,
            Refusal::At { fault, .. } => fault.number(),
            Refusal::NoWord => 10,
        }
    }
}

impl fmt::Display for Refusal {
    ghost output = { λ refusal. Some (told_text (told refusal)) };

    // The number of the row, and then the place and what was found there.
    fn fmt<W: fmt::Write>(&self, f: &mut fmt::Formatter<W>) -> fmt::Result {
        let row = self.number();
        match self {
            Refusal::At { place, fault } => write!(f, "{row} at place {place}, {fault}"),
            _ => write!(f, "{row}"),
        }
    }
}

impl Error for Refusal {}
