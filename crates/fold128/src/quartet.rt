//! Four complex numbers, one per residue modulo 4.

ghost use Rattle.std.specs.Prelude.{◌≡◌, ◌<◌};
ghost use Rattle.cs_num.specs.Complex.{IsWithin};
ghost use Rattle.fold128.specs.Folding.{quartet_of, unfolded, taken, added, AreWithin};

use cs_num::Cpx;

// Binds the sum and the difference of two numbers.
macro_rules! butterfly {
    ($a:ident, $b:ident => $sum:ident, $difference:ident) => {
        let $sum = $a + $b;
        let $difference = $a - $b;
    };
}

// Four numbers: one per frequency residue modulo 4 or, after `unfold_four`, one per quarter of the symbol's samples.
#[derive(Clone, Copy)]
pub(crate) struct Quartet {
    pub zero: Cpx,
    pub one: Cpx,
    pub two: Cpx,
    pub three: Cpx,
}

impl Quartet {
    pub(crate) const EMPTY: Quartet = Quartet {
        zero: Cpx::ZERO,
        one: Cpx::ZERO,
        two: Cpx::ZERO,
        three: Cpx::ZERO,
    };

    // Returns the number for `residue`, 0 to 3.
    pub(crate) fn of_residue(&self, residue: usize) -> Cpx
        ensures { result ≡ taken self.now residue }
    {
        match residue {
            0 => self.zero,
            1 => self.one,
            2 => self.two,
            _ => self.three,
        }
    }

    // Adds `number` to the number for `residue`, 0 to 3.
    pub(crate) fn add(&mut self, residue: usize, number: Cpx)
        requires residue { residue < 4 }
        requires small { AreWithin 1073741824 self.old }
        requires number { IsWithin 4161536 number }
        ensures { self.new ≡ added self.old residue number }
    {
        match residue {
            0 => self.zero = self.zero + number,
            1 => self.one = self.one + number,
            2 => self.two = self.two + number,
            _ => self.three = self.three + number,
        }
    }
}

// Folds four samples at distance 32 with four butterflies, and returns their contribution to the frequencies of each
// residue modulo 4.
pub(crate) fn fold_four(a: Cpx, b: Cpx, c: Cpx, d: Cpx) -> Quartet
    requires a { IsWithin 32768 a }
    requires b { IsWithin 32768 b }
    requires c { IsWithin 32768 c }
    requires d { IsWithin 32768 d }
    ensures value { result ≡ quartet_of a b c d }
    ensures small { AreWithin 131072 result }
{
    butterfly!(a, c => sum, difference);
    butterfly!(b, d => other_sum, other_difference);
    let turned = other_difference.times_minus_j();
    butterfly!(sum, other_sum => zero, two);
    butterfly!(difference, turned => one, three);
    Quartet {
        zero,
        one,
        two,
        three,
    }
}

// Turns the residues' contributions back into four samples at distance 32, with four butterflies.
pub(crate) fn unfold_four(parts: Quartet) -> Quartet
    requires { AreWithin 1073741824 parts }
    ensures value { result ≡ unfolded parts }
    ensures small { AreWithin 4294967296 result }
{
    let Quartet {
        zero: a,
        one: b,
        two: c,
        three: d,
    } = parts;
    butterfly!(a, c => sum, difference);
    butterfly!(b, d => other_sum, other_difference);
    let turned = other_difference.times_j();
    butterfly!(sum, other_sum => zero, two);
    butterfly!(difference, turned => one, three);
    Quartet {
        zero,
        one,
        two,
        three,
    }
}
