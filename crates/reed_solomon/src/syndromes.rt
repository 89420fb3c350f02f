// The syndromes of a line: its values at the roots of the generator, from what is left of it.
ghost use Rattle.std.specs.Prelude.{◌≡◌, ℕ, ◌<◌, length, slice_index};
ghost use Rattle.field.specs.Field.{pow, α};
ghost use Rattle.reed_solomon_algebra.specs.CodeWords.{polynomial};
ghost use Rattle.reed_solomon_algebra.specs.Polynomials.{value};

use crate::division::PARITY;
use field::{alpha_power, product};
use std::array;

// By Horner's rule, from the highest coefficient on.
fn value_at(rest: &[u16; PARITY], x: u16) -> u16
    ensures { result ≡ value x (polynomial rest.now) }
{
    let mut sum = 0;
    for symbol in rest {
        sum = *symbol ^ product(x, sum);
    }
    sum
}

pub(crate) fn syndromes(rest: &[u16; PARITY]) -> [u16; PARITY]
    ensures values { (j : ℕ) → j < 14 → slice_index result j ≡ value (pow α j) (polynomial rest.now) }
    ensures wide { length result ≡ 14 }
{
    array::from_fn(|j| value_at(rest, alpha_power(j)))
}
