// From a table back to the message whose word it is.
ghost use Rattle.std.specs.Prelude.{◌≡◌, ℕ, ◌≤◌, List, length, take, drop, IfOk, MatchResult, OnOk};
ghost use Rattle.polynomials.specs.Binomials.{dimension};
ghost use Rattle.polynomials.specs.Words.{Encodes, ReadsBack};
ghost use Rattle.polynomials.specs.Words as words;
ghost use Rattle.polynomials.specs.Coefficients.{Degree≤};
ghost use Rattle.polynomials.specs.Laws.{WordsAreLowDegree, SumsOfPartsInvert};
ghost use Rattle.words.specs.Refusals.{told, row, refusal_of, ReadBackRow};

use crate::checks::check_bytes;
use crate::code::Code;
use crate::refusals::Refusal;
use crate::table::Table;

// The code of a table. Refuses what cannot be read back into so much room. As for a message, it does not answer the table itself; the
// steps are those for a message with points and dimension exchanged, and one function for both would take the two numbers in either order.
fn check_table(m: u32, r: u32, table: &[u8], room: usize) -> Result<Code, Refusal>
    ensures refused { ReadBackRow m r table.now room (refusal_of result) }
    ensures sizes { OnOk result ((m ≤ 8) × (dimension m r ≤ room)) }
    ensures word { OnOk result (words.Table m table.now × Degree≤ m r table.now) }
    ensures code { IfOk result (λ code. (code.variables ≡ m) × (code.order ≡ r)) }
{
    let code = Code::new(m, r)?;
    check_bytes(table, code.points(), room, code.dimension())?;
    if !(Table { code, bits: table }).is_low() {
        return Err(Refusal::NoWord);
    }
    Ok(code)
}

// Writes the only message of order r in m variables whose word the table is into the first k bytes of the buffer, and answers k. m
// and r are plain numbers: a `Code` would ask more of callers.
pub fn read_back(m: u32, r: u32, table: &[u8], message: &mut [u8]) -> Result<usize, Refusal>
    ensures refused { ReadBackRow m r table.now (length message.old) (refusal_of result) }
    ensures written { MatchResult result (λ k. (k ≡ dimension m r) × ReadsBack m r table.now (take k message.new) × (drop k message.new ≡ drop k message.old)) (λ _. message.new ≡ message.old) }
    ensures bound { IfOk result (λ k. k ≤ length message.old) }
    ensures degree { MatchResult result (λ _. Degree≤ m r table.now) (λ e. told e ≡ row 10 → Degree≤ m r table.now → ⊥) }
    ensures undoes_encode { (sent : List ℕ) → Encodes m r sent table.now → m ≤ 8 → r ≤ m → dimension m r ≤ length message.old → MatchResult result (λ k. take k message.new ≡ sent) (λ _. ⊥) }
    ensures law { WordsAreLowDegree }
    ensures inversion { SumsOfPartsInvert }
{
    let code = check_table(m, r, table, message.len())?;
    Ok(Table { code, bits: table }.write_message(message))
}
