// The cost of a word under weights.
ghost use Rattle.std.specs.Prelude.{◌≡◌, ◌^◌, ◌≤◌, length, IfOk, OnOk};
ghost use Rattle.words.specs.Refusals.{refusal_of};
ghost use Rattle.cells.specs.Costs.{pays, cost, cost_row, CostIsDistance, WidestRadius};

use words::{Refusal, Variables, check_bytes};

// What a word with this bit at a cell pays there: the size of the weight that it contradicts.
fn pay(weight: i8, bit: u8) -> u32
    ensures value { result ≡ pays weight bit }
    ensures bound { result ≤ 128 }
{
    if (weight > 0 && bit == 1) || (weight < 0 && bit == 0) {
        u32::from(weight.unsigned_abs())
    } else {
        0
    }
}

// Refuses more than eight variables, weights or a word that are not one for each point, and the first byte of the word above 1.
fn check_word(m: u32, weights: &[i8], word: &[u8]) -> Result<(), Refusal>
    ensures refused { refusal_of result ≡ cost_row m weights.now word.now }
    ensures sizes { OnOk result ((m ≤ 8) × (length weights.now ≡ 2 ^ m) × (length word.now ≡ 2 ^ m)) }
{
    let n = Variables::try_from(m)?.points();
    if weights.len() != n {
        return Err(Refusal::Length);
    }
    // No buffer is written, so no room is asked for.
    check_bytes(word, n, 0, 0)
}

// The cost of a word of m variables under weights: the sum of the sizes of the weights that it contradicts. A narrower type for m would ask more of
// callers.
#[tactic(auto, using(crate::proofs::Distances::cost_is_distance, crate::proofs::Distances::widest_radius))]
pub fn cost(m: u32, weights: &[i8], word: &[u8]) -> Result<u32, Refusal>
    ensures refused { refusal_of result ≡ cost_row m weights.now word.now }
    ensures value { IfOk result (λ c. c ≡ cost m weights.now word.now) }
    ensures distance { CostIsDistance }
    ensures radius { WidestRadius }
{
    check_word(m, weights, word)?;
    Ok(
        weights
            .iter()
            .zip(word)
            .map(|(&weight, &bit)| pay(weight, bit))
            .sum(),
    )
}
