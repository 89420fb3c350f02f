// The values of the errors at given places, and whether they have the syndromes.
ghost use Rattle.std.specs.Prelude.{◌≡◌, ℕ, ◌+◌, ◌<◌, ◌≤◌, ◌↔◌, IsTrue, length, bit_xor, slice_index};
ghost use Rattle.field.specs.Field.{mul};
ghost use Rattle.reed_solomon_algebra.specs.Terms.{Differ, power_sum};
ghost use Rattle.reed_solomon_decoder.specs.Errors.{Agrees, SumsFrom, located};
ghost use Rattle.reed_solomon_decoder.specs.Listed.{indices, listed};

use crate::errors::Error;
use crate::line::{PARITY, Place};
use field::{inverse, product};

// Takes the errors at `x` from the first `n` sums.
fn pull(sums: &mut [u16; PARITY], x: u16, n: usize)
    requires { n < 14 }
    ensures { (j : ℕ) → j < n → slice_index sums.new j ≡ bit_xor (slice_index sums.old (j + 1)) (mul x (slice_index sums.old j)) }
{
    // By index: each sum is made of itself and the next.
    for j in 0..n {
        sums[j] = sums[j + 1] ^ product(x, sums[j]);
    }
}

// The value at the `i`-th of the places: what is left of the sums once the errors at the others are taken from them.
pub(crate) fn value_at(s: &[u16; PARITY], places: &[Place], i: usize) -> u16
    requires fits { (i < length places.now) × (length places.now ≤ 7) }
    requires differ { Differ (located 528 (indices places.now)) }
    ensures value { Agrees s.now (located 528 (indices places.now)) (slice_index (located 528 (indices places.now)) i) result }
    ensures small { result < 1024 }
{
    let here = places[i].locator();
    let mut sums = *s;
    let mut way = 1;
    for (k, place) in places.iter().enumerate() {
        if k != i {
            let other = place.locator();
            pull(&mut sums, other, places.len() - k);
            way = product(way, here ^ other);
        }
    }
    product(sums[0], inverse(way))
}

// The sum of the errors, each times the `j`-th power of its locator.
fn sum_of_powers(errors: &[Error], j: usize) -> u16
    requires { j < 14 }
    ensures { result ≡ power_sum j (listed errors.now) }
{
    let mut sum = 0;
    for error in errors {
        sum ^= product(error.value, error.place.power(j));
    }
    sum
}

// Whether the errors have these syndromes.
pub(crate) fn explained(s: &[u16; PARITY], errors: &[Error]) -> bool
    ensures { IsTrue result ↔ SumsFrom 0 s.now (listed errors.now) }
{
    s.iter()
        .enumerate()
        .all(|(j, due)| sum_of_powers(errors, j) == *due)
}
