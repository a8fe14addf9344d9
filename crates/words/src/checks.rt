// What the calls on messages and tables check alike: lengths, room and bits.
ghost use Rattle.std.specs.Prelude.{◌≡◌, ◌≤◌, length, None, OnOk};
ghost use Rattle.polynomials.specs.Messages.{Bits};
ghost use Rattle.words.specs.Refusals.{refusal_of, room_row, byte_row, bytes_row};

use crate::refusals::{Fault, Refusal};

// Refuses a buffer with less room than is needed. A type for room and need would ask more of callers, who have any two numbers.
pub fn check_room(room: usize, needed: usize) -> Result<(), Refusal>
    ensures refused { refusal_of result ≡ room_row room needed None }
    ensures room { OnOk result (needed ≤ room) }
{
    if room < needed {
        return Err(Refusal::Room);
    }
    Ok(())
}

// Refuses the first byte above 1.
fn check_bits(bytes: &[u8]) -> Result<(), Refusal>
    ensures refused { refusal_of result ≡ byte_row 0 bytes.now }
    ensures bits { OnOk result (Bits bytes.now) }
{
    // A loop: with `position` the clauses `refused` and `bits` stay open. The search over cells is its twin, for kinds that are not known here.
    for (place, byte) in bytes.iter().enumerate() {
        if *byte > 1 {
            return Err(Refusal::At {
                place,
                fault: Fault::Byte(*byte),
            });
        }
    }
    Ok(())
}

// Refuses bytes that are not as many as asked, a buffer with less room than is needed, and the first byte above 1. The numbers are any, as above.
pub fn check_bytes(bytes: &[u8], asked: usize, room: usize, needed: usize) -> Result<(), Refusal>
    ensures refused { refusal_of result ≡ bytes_row bytes.now asked room needed }
    ensures asked { OnOk result ((length bytes.now ≡ asked) × (needed ≤ room) × Bits bytes.now) }
{
    if bytes.len() != asked {
        return Err(Refusal::Length);
    }
    check_room(room, needed)?;
    check_bits(bytes)
}
