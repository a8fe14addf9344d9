// Codes, and their dimension.
ghost use Rattle.std.specs.Prelude.{◌≡◌, ◌^◌, ◌<◌, ◌≤◌, length, take, drop, IfOk, OnOk};
ghost use Rattle.std.specs.List.{AllByRecursion};
ghost use Rattle.polynomials.specs.Monomials.{monomials};
ghost use Rattle.polynomials.specs.Binomials.{dimension};
ghost use Rattle.polynomials.specs.Laws.{MonomialsCounted};
ghost use Rattle.words.specs.Left.{monomials_left};
ghost use Rattle.words.specs.Refusals.{refusal_of, dimension_row};

use crate::monomials::{Monomials, is_admitted};
use crate::refusals::Refusal;
use crate::variables::Variables;

// A code: a number of variables and an order, which is at most that number.
#[derive(Clone, Copy, Debug, PartialEq, Eq)]
pub struct Code {
    pub variables: Variables,
    pub order: u32,
    ghost low: { order ≤ variables },
}

impl Code {
    // The code of order r in m variables. Refuses more than eight variables, and an order above their number. m and r are plain
    // numbers: a narrower type would ask more of callers.
    pub fn new(m: u32, r: u32) -> Result<Code, Refusal>
        ensures refused { refusal_of result ≡ dimension_row m r }
        ensures code { IfOk result (λ code. (code.variables ≡ m) × (code.order ≡ r)) }
        ensures sizes { OnOk result ((m ≤ 8) × (r ≤ m)) }
    {
        let variables = Variables::try_from(m)?;
        if r > m {
            return Err(Refusal::Order);
        }
        Ok(Code {
            variables,
            order: r,
        })
    }

    // The number of points.
    pub fn points(&self) -> usize
        ensures value { result ≡ 2 ^ self.now.variables }
        ensures bound { result ≤ 256 }
    {
        self.variables.points()
    }

    // The admitted monomials, in prefix order.
    pub(crate) fn monomials(&self) -> Monomials
        ensures left { monomials_left result ≡ monomials self.now.variables self.now.order }
        ensures bound { length (monomials_left result) ≤ 256 }
        ensures small { AllByRecursion (λ mono. mono < 256) (monomials_left result) }
    {
        Monomials {
            order: self.order,
            below: self.points(),
        }
    }

    // Writes the admitted monomials into the front of the buffer, in prefix order.
    pub(crate) fn write_monomials(&self, monos: &mut [u8; 256])
        ensures few { dimension self.now.variables self.now.order ≤ 256 }
        ensures written { take (dimension self.now.variables self.now.order) monos.new ≡ monomials self.now.variables self.now.order }
        ensures rest { drop (dimension self.now.variables self.now.order) monos.new ≡ drop (dimension self.now.variables self.now.order) monos.old }
    {
        // By place, as messages are written. Each is below 256: the cast loses nothing.
        for (place, mono) in self.monomials().enumerate() {
            monos[place] = mono as u8;
        }
    }

    // The length k of a message: the sum of the binomials m over i for i from 0 to r, which is the number of admitted monomials.
    pub fn dimension(&self) -> usize
        ensures value { result ≡ dimension self.now.variables self.now.order }
        ensures counted { result ≡ length (monomials self.now.variables self.now.order) }
        ensures bound { result ≤ 256 }
    {
        // A sum, and not a count of `monomials`: it takes the same steps for each number, and so less time.
        (0..self.points())
            .map(|mono| usize::from(is_admitted(self.order, mono)))
            .sum()
    }
}

// The length k of a message of order r in m variables: the sum of the binomials m over i for i from 0 to r, which is the number of monomials
// that order r admits. m and r are plain numbers: a `Code` would ask more of callers.
pub fn dimension(m: u32, r: u32) -> Result<usize, Refusal>
    ensures refused { refusal_of result ≡ dimension_row m r }
    ensures value { IfOk result (λ k. k ≡ dimension m r) }
    ensures counted { IfOk result (λ k. k ≡ length (monomials m r)) }
    ensures law { MonomialsCounted }
{
    Ok(Code::new(m, r)?.dimension())
}
