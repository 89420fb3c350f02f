// The roots of a polynomial among the places of a line.
ghost use Rattle.std.specs.Prelude.{◌≡◌, ℕ, ◌<◌, length, slice_index};
ghost use Rattle.field.specs.Field.{mul, pow, α};
ghost use Rattle.reed_solomon_algebra.specs.Polynomials.{Elements};
ghost use Rattle.reed_solomon_decoder.specs.Errors.{Null, located, roots_below, sum_of};
ghost use Rattle.reed_solomon_decoder.specs.Exponents.{Lowered};
ghost use Rattle.reed_solomon_decoder.specs.Listed.{indices};

use crate::line::{LINE_LENGTH, Place};
use arrayvec::ArrayVec;
use field::{alpha_power, exponent};
use std::array;
use std::marker::Model;

// An element of the field, kept as its exponent of α, so that a division by a power of α is a subtraction.
// 0 is kept as 1,023: with an Option of the exponent a line with 8 wrong symbols takes 30 % longer.
#[derive(Drop)]
struct Power {
    exponent: u16,
}

// Clauses see the element.
impl Model for Power {
    ghost use Rattle.std.specs.Prelude.{ℕ};

    ghost Value = { ℕ };

    ghost use Rattle.reed_solomon_decoder.specs.Exponents.{term_of};

    ghost view = { λ p. term_of p.exponent };
}

impl Power {
    // How many powers α has: an exponent here, an index of its table in the field, which keeps its own.
    const ORDER: u16 = 1023;

    // What is kept for 0: one more than any exponent.
    const ZERO: u16 = Self::ORDER;

    // `c` times α to the power `m`.
    fn new(c: u16, m: usize) -> Self
        requires { m < 10000 }
        ensures value { result ≡ mul c (pow α m) }
        ensures small { result < 1024 }
    {
        match exponent(c) {
            Some(e) => Power {
                exponent: ((e + m) % Self::ORDER as usize) as u16,
            },
            None => Power {
                exponent: Self::ZERO,
            },
        }
    }

    fn element(&self) -> u16
        ensures { result ≡ self.now }
    {
        if self.exponent < Self::ZERO {
            alpha_power(self.exponent as usize)
        } else {
            0
        }
    }

    // Divides it by α to the power `k`.
    fn lower(&mut self, k: u16)
        requires { k < 1023 }
        ensures value { mul (pow α k) self.new ≡ self.old }
        ensures small { self.new < 1024 }
    {
        let e = self.exponent;
        self.exponent = if e >= Self::ZERO {
            Self::ZERO
        } else if e >= k {
            e - k
        } else {
            e + (Self::ORDER - k)
        };
    }
}

// The terms of `u` at the locator of the first place.
fn start(u: &[u16; 8]) -> [Power; 8]
    ensures lowered { Lowered u.now 528 result }
    ensures elements { Elements result }
    ensures wide { length result ≡ 8 }
{
    array::from_fn(|k| Power::new(u[k], (LINE_LENGTH - 1) * k))
}

// The value of the polynomial at the locator at which these are its terms.
fn sum(terms: &[Power; 8]) -> u16
    ensures { result ≡ sum_of terms.now }
{
    let mut sum = 0;
    for term in terms {
        sum ^= term.element();
    }
    sum
}

// Goes on to the next place, whose locator is lower by one power of α.
fn lower(terms: &mut [Power; 8])
    ensures lowered { (k : ℕ) → k < 8 → mul (pow α k) (slice_index terms.new k) ≡ slice_index terms.old k }
    ensures elements { Elements terms.new }
    ensures wide { length terms.new ≡ 8 }
{
    for (k, term) in terms.iter_mut().enumerate() {
        term.lower(k as u16);
    }
}

// The places whose locators are roots of `u`, which has degree at most 7.
pub(crate) fn search(u: &[u16; 8]) -> ArrayVec<Place, 7>
    requires symbols { Elements u.now }
    requires nonzero { Null u.now → ⊥ }
    ensures { located 528 (indices result.items) ≡ roots_below u.now 528 }
{
    let mut terms = start(u);
    let mut places = ArrayVec::new();
    // By number, which makes the place: there is no list of places to go over.
    for index in 0..LINE_LENGTH {
        if sum(&terms) == 0 {
            places.push(Place { index });
        }
        lower(&mut terms);
    }
    places
}
