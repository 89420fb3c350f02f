// The parity symbols of a message: what is left of it, divided by the generator.
ghost use Rattle.std.specs.Prelude.{◌≡◌, ◌<◌, take, drop};
ghost use Rattle.symbols.specs.Symbols.{Symbols};
ghost use Rattle.reed_solomon_algebra.specs.Division.{below_first, step as step_of, parity as parity_of};
ghost use Rattle.reed_solomon_algebra.specs.Polynomials.{plus as sum_of, scale};

use crate::codec::LINE_LENGTH;
use crate::rows::{HIGH, LOW};
pub(crate) use reed_solomon_decoder::line::PARITY;
use std::array;
use symbols::MESSAGE_LENGTH;

// The sum of two polynomials, coefficient by coefficient.
fn plus(p: &[u16; PARITY], q: &[u16; PARITY]) -> [u16; PARITY]
    ensures { result ≡ sum_of p.now q.now }
{
    array::from_fn(|k| p[k] ^ q[k])
}

// The factor times the generator's coefficients below the first: its five low bits' row and its five high bits' row.
fn multiples(factor: u16) -> [u16; PARITY]
    requires { factor < 1024 }
    ensures { result ≡ scale factor (below_first 14) }
{
    plus(
        &LOW[usize::from(factor % 32)],
        &HIGH[usize::from(factor / 32)],
    )
}

// The remainder once one more symbol has come behind those divided so far, whose remainder is the tail.
// That numbers are symbols is a clause here and below, one word; a type round lent lines would be put on and off at each call.
fn step(tail: &[u16; PARITY], symbol: u16) -> [u16; PARITY]
    requires symbols { Symbols tail.now }
    requires small { symbol < 1024 }
    ensures { result ≡ step_of (below_first 14) tail.now symbol }
{
    let mut moved = [0; PARITY];
    moved[..PARITY - 1].copy_from_slice(&tail[1..]);
    plus(&moved, &multiples(symbol ^ tail[0]))
}

// The parity of the message goes into the tail, which is the remainder on the way.
pub(crate) fn divide(message: &[u16], tail: &mut [u16; PARITY])
    requires { Symbols message.now }
    ensures { tail.new ≡ parity_of 7 message.now }
{
    *tail = [0; PARITY];
    for s in message {
        *tail = step(tail, *s);
    }
}

// What is left of a line, divided by the generator: the parity that its message should have, and the parity that it has.
pub(crate) fn rest_of(line: &[u16; LINE_LENGTH]) -> [u16; PARITY]
    requires { Symbols line.now }
    ensures { result ≡ sum_of (parity_of 7 (take 514 line.now)) (drop 514 line.now) }
{
    let mut due = [0; PARITY];
    divide(&line[..MESSAGE_LENGTH], &mut due);
    plus(&due, line.last_chunk().unwrap())
}
