// From a message to its word.
ghost use Rattle.std.specs.Prelude.{◌≡◌, ℕ, ◌^◌, ◌≤◌, List, ◌++◌, length, take, drop, IfOk, MatchResult, OnOk};
ghost use Rattle.polynomials.specs.Messages.{Message};
ghost use Rattle.polynomials.specs.Words.{word_of, ReadsBack};
ghost use Rattle.polynomials.specs.Coefficients.{Degree≤};
ghost use Rattle.polynomials.specs.Laws.{WordsDiffer};
ghost use Rattle.words.specs.Refusals.{refusal_of, encode_row};

use crate::checks::check_bytes;
use crate::code::Code;
use crate::polynomial::Polynomial;
use crate::refusals::Refusal;

// The code of a message. Refuses what cannot be encoded into so much room. It does not answer the polynomial itself: the prover does not cover `?`
// on a struct that holds a slice and ghost fields, and a `match` in its place would be no plainer.
fn check_message(m: u32, r: u32, message: &[u8], room: usize) -> Result<Code, Refusal>
    ensures refused { refusal_of result ≡ encode_row m r message.now room }
    ensures sizes { OnOk result ((m ≤ 8) × (2 ^ m ≤ room)) }
    ensures message { OnOk result (Message m r message.now) }
    ensures code { IfOk result (λ code. (code.variables ≡ m) × (code.order ≡ r)) }
{
    let code = Code::new(m, r)?;
    check_bytes(message, code.dimension(), room, code.points())?;
    Ok(code)
}

// Writes the word of a message of order r in m variables into the first n = 2^m bytes of the buffer, and answers n. m and r are plain numbers: a `Code`
// would ask more of callers.
pub fn encode(m: u32, r: u32, message: &[u8], word: &mut [u8]) -> Result<usize, Refusal>
    ensures refused { refusal_of result ≡ encode_row m r message.now (length word.old) }
    ensures written { MatchResult result (λ n. (n ≡ 2 ^ m) × (word.new ≡ word_of m r message.now ++ drop n word.old)) (λ _. word.new ≡ word.old) }
    ensures bound { IfOk result (λ n. n ≤ length word.old) }
    ensures degree { IfOk result (λ n. Degree≤ m r (take n word.new)) }
    ensures reads_back { IfOk result (λ n. ReadsBack m r (take n word.new) message.now) }
    ensures undoes_read_back { (table : List ℕ) → ReadsBack m r table message.now → m ≤ 8 → r ≤ m → 2 ^ m ≤ length word.old → MatchResult result (λ n. take n word.new ≡ table) (λ _. ⊥) }
    ensures law { WordsDiffer }
{
    let code = check_message(m, r, message, word.len())?;
    Ok(Polynomial { code, message }.write_word(word))
}
