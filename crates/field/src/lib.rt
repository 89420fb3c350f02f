// Arithmetic of GF(2^10), the field of the code's symbols; addition is `^`.
#![tactic(auto)]

ghost use Rattle.std.specs.Prelude.{◌≡◌, ◌%◌, ◌<◌, MatchOption};
ghost use Rattle.field.specs.Field.{mul, pow, inv, α};
ghost use Rattle.field.specs.Laws.{RingLaws, InverseLaws, AlphaLaws, ExponentOf};

mod tables;

use tables::{LOGS, POWERS};

// The largest element; of a greater number the lowest ten bits count.
const LOWEST_TEN: u16 = 1023;

// How many powers α has.
const ORDER: usize = 1023;

// α to the power `i`.
pub fn alpha_power(i: usize) -> u16
    ensures value { result ≡ pow α i }
    ensures small { result < 1024 }
    ensures laws { AlphaLaws }
{
    POWERS[i % ORDER]
}

// The exponent of α that gives `a`.
fn log(a: u16) -> usize
    requires { (0 < a) × (a < 1024) }
    ensures { ExponentOf a result }
{
    LOGS[a as usize] as usize
}

// The exponent below 1,023 whose power of α is `a`; 0 has none.
pub fn exponent(a: u16) -> Option<usize>
    ensures { MatchOption result (a % 1024 ≡ 0) (ExponentOf (a % 1024)) }
{
    let element = a & LOWEST_TEN;
    (element != 0).then(|| log(element))
}

// The product of two elements.
pub fn product(a: u16, b: u16) -> u16
    ensures value { result ≡ mul a b }
    ensures small { result < 1024 }
{
    match (exponent(a), exponent(b)) {
        (Some(left), Some(right)) => alpha_power(left + right),
        _ => 0,
    }
}

// What `a` times it is 1, and 0 of 0: the exponents of the two add up to the order.
pub fn inverse(a: u16) -> u16
    ensures value { result ≡ inv a }
    ensures small { result < 1024 }
    ensures inverts { 0 < a → a < 1024 → mul a result ≡ 1 }
    ensures laws { InverseLaws }
{
    match exponent(a) {
        Some(e) => alpha_power(ORDER - e),
        None => 0,
    }
}

// The laws of `^` and `product`, as a claim.
pub fn ring_laws()
    ensures { RingLaws }
{}
