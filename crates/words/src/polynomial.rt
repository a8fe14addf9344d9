// Polynomials, and their values.
ghost use Rattle.std.specs.Prelude.{◌≡◌, ℕ, ◌%◌, ◌^◌, ◌<◌, ◌≤◌, ◌++◌, length, drop};
ghost use Rattle.polynomials.specs.Messages.{Bits};
ghost use Rattle.words.specs.Props.{bits_prop};
ghost use Rattle.polynomials.specs.Binomials.{dimension};
ghost use Rattle.polynomials.specs.Monomials.{monomials};
ghost use Rattle.polynomials.specs.Words.{sum_at, word_of};

use crate::code::Code;
use crate::monomials::is_inside;

// A polynomial of a code by its message: a bit for each admitted monomial, in prefix order.
#[derive(Clone, Copy, Drop)]
pub(crate) struct Polynomial<'a> {
    pub(crate) code: Code,
    pub(crate) message: &'a [u8],
    ghost long: { length message.now ≡ dimension code.variables code.order },
    ghost bits: { Bits message.now } by { bits_prop message.now },
}

impl Polynomial<'_> {
    // The value at a point, with the admitted monomials at hand: the sum modulo 2 of those that have the coefficient 1 and are 1 there. Not one function
    // with `Table::coefficient_of`: for any iterator its contract would have to say which pairs come.
    fn value_at(&self, monos: &[u8], point: usize) -> u8
        requires { monos.now ≡ monomials self.now.code.variables self.now.code.order }
        ensures { result ≡ sum_at (monomials self.now.code.variables self.now.code.order) self.now.message.now point % 2 }
    {
        monos.iter().zip(self.message.iter()).fold(
            0,
            |sum, (mono, bit)| if is_inside(usize::from(*mono), point) {
                sum ^ *bit
            } else {
                sum
            },
        )
    }

    // Writes the word, its value at each point, into the front of the buffer, and answers the number of points.
    pub(crate) fn write_word(&self, word: &mut [u8]) -> usize
        requires room { 2 ^ self.now.code.variables ≤ length word.old }
        ensures points { result ≡ 2 ^ self.now.code.variables }
        ensures written { word.new ≡ word_of self.now.code.variables self.now.code.order self.now.message.now ++ drop result word.old }
    {
        let n = self.code.points();
        // Found once for all points. No heap: room for as many as there can be.
        let mut monos = [0; 256];
        self.code.write_monomials(&mut monos);
        let monos = &monos[..self.message.len()];
        for (point, cell) in word[..n].iter_mut().enumerate() {
            *cell = self.value_at(monos, point);
        }
        n
    }
}
