// How many variables there are.
ghost use Rattle.std.specs.Prelude.{◌≡◌, ◌^◌, ◌≤◌, IfOk, None};
ghost use Rattle.words.specs.Refusals.{refusal_of, variables_row};

use crate::refusals::Refusal;
use std::marker::Model;

// A number of variables, at most eight. A clause sees the number.
#[derive(Clone, Copy, Debug, PartialEq, Eq)]
pub struct Variables {
    number: u32,
}

impl Model for Variables {
    ghost use Rattle.std.specs.Prelude.{ℕ, ◌≤◌};

    ghost Value = { ℕ };

    ghost view = { λ variables. variables.number };

    ghost invariant = { λ variables. variables.number ≤ 8 };

    ghost inverse = { λ m. record { number = m } };
}

impl TryFrom<u32> for Variables {
    type Error = Refusal;

    ghost try_from_gives = { λ m answer. (refusal_of answer ≡ variables_row m None) × IfOk answer (λ variables. (variables ≡ m) × (m ≤ 8)) };

    // Refuses more than eight.
    fn try_from(m: u32) -> Result<Variables, Refusal> {
        if m > 8 {
            return Err(Refusal::Variables);
        }
        Ok(Variables { number: m })
    }
}

impl From<Variables> for u32 {
    ghost from_gives = { λ variables m. m ≡ variables };

    fn from(variables: Variables) -> u32 {
        variables.number
    }
}

impl Variables {
    // The number of points.
    pub fn points(&self) -> usize
        ensures value { result ≡ 2 ^ self.now }
        ensures low_bound { 1 ≤ result }
        ensures high_bound { result ≤ 256 }
    {
        1 << self.number
    }
}
