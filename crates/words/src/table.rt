// Tables, and their coefficients.
ghost use Rattle.std.specs.Prelude.{◌≡◌, ℕ, ◌^◌, ◌<◌, ◌≤◌, ◌++◌, length, drop, ◌↔◌, IsTrue};
ghost use Rattle.polynomials.specs.Messages.{Bits};
ghost use Rattle.words.specs.Props.{bits_prop};
ghost use Rattle.polynomials.specs.Binomials.{dimension};
ghost use Rattle.polynomials.specs.Coefficients.{coefficient, coefficients, Degree≤};

use crate::code::Code;
use crate::monomials::{is_admitted, is_inside};

// A table that is to be read back in a code: a bit for each point.
#[derive(Clone, Copy, Drop)]
pub(crate) struct Table<'a> {
    pub(crate) code: Code,
    pub(crate) bits: &'a [u8],
    ghost long: { length bits.now ≡ 2 ^ code.variables },
    ghost each: { Bits bits.now } by { bits_prop bits.now },
}

impl Table<'_> {
    // The coefficient of a monomial: the parity of the table over the points inside the monomial. Not one function with `Polynomial::value_at`, for
    // the same reason.
    fn coefficient_of(&self, mono: usize) -> u8
        ensures { result ≡ coefficient self.now.code.variables self.now.bits.now mono }
    {
        self.bits.iter().enumerate().fold(
            0,
            |sum, (point, bit)| if is_inside(point, mono) {
                sum ^ *bit
            } else {
                sum
            },
        )
    }

    // Whether the coefficient of each monomial that the order does not admit is 0.
    pub(crate) fn is_low(&self) -> bool
        ensures { IsTrue result ↔ Degree≤ self.now.code.variables self.now.code.order self.now.bits.now }
    {
        (0..self.code.points()).all(|mono| is_admitted(self.code.order, mono)
            || self.coefficient_of(mono) == 0)
    }

    // Writes the coefficients of the admitted monomials into the front of the buffer, in prefix order, and answers how many they are.
    pub(crate) fn write_message(&self, message: &mut [u8]) -> usize
        requires room { dimension self.now.code.variables self.now.code.order ≤ length message.old }
        ensures length { result ≡ dimension self.now.code.variables self.now.code.order }
        ensures written { message.new ≡ coefficients self.now.code.variables self.now.code.order self.now.bits.now ++ drop result message.old }
    {
        // By place: after `message.iter_mut().zip(..)` nothing is known of what was written, so `written` stays open. Weights are written likewise: one
        // function for both would have to say what a closure gives at each place.
        for (place, mono) in self.code.monomials().enumerate() {
            message[place] = self.coefficient_of(mono);
        }
        self.code.dimension()
    }
}
