// Monomials: which there are, and where each is 1.
ghost use Rattle.std.specs.Prelude.{◌≡◌};
ghost use Rattle.polynomials.specs.Monomials.{admits, inside};

// Whether order r admits the monomial: it has at most r variables.
pub(crate) fn is_admitted(r: u32, mono: usize) -> bool
    ensures { result ≡ admits r mono }
{
    mono.count_ones() <= r
}

// Whether each digit that is 1 in the first number is 1 in the second: whether a monomial is 1 at a point, and whether a point lies inside a
// monomial.
pub(crate) fn is_inside(a: usize, b: usize) -> bool
    ensures { result ≡ inside a b }
{
    a & b == a
}

// The monomials that an order admits among those below a number, from the highest down.
#[derive(Drop)]
pub(crate) struct Monomials {
    pub(crate) order: u32,
    pub(crate) below: usize,
}

impl Iterator for Monomials {
    type Item = usize;

    ghost use Rattle.words.specs.Left.{monomials_left};
    ghost use Rattle.std.specs.Iterator.{YieldsFirst, item_count};

    ghost next_gives = { YieldsFirst monomials_left };

    ghost remaining = { item_count monomials_left };

    // The highest that is left.
    fn next(&mut self) -> Option<usize> {
        // Counted down by hand: with `(0..below).rev().find(..)` the clause `steps` stays open.
        while self.below > 0 {
            self.below -= 1;
            if is_admitted(self.order, self.below) {
                return Some(self.below);
            }
        }
        None
    }
}
