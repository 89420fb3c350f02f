// A polynomial that is zero at every error, by elimination on the windows of the syndromes.
ghost use Rattle.std.specs.Prelude.{◌≡◌, ℕ, ◌+◌, ◌<◌, ◌≢◌, ◌==◌, not, List, [], length, take, drop, position, slice_index, slice_index_or};
ghost use Rattle.reed_solomon_decoder.specs.Errors.{dot};
ghost use Rattle.reed_solomon_decoder.specs.Kernel.{Plus, Reduced, Kernel, Locator};

use crate::line::PARITY;
use field::{inverse, product};
use std::array;

// The sum of the products of the coefficients with what stands at their places in `s`.
fn dot_with(p: &[u16], s: &[u16]) -> u16
    ensures { result ≡ dot p.now s.now }
{
    let mut sum = 0;
    for (c, b) in p.iter().zip(s) {
        sum ^= product(*c, *b);
    }
    sum
}

// `row` plus `c` times `by`.
fn reduced(row: &[u16; 8], by: &[u16; 8], c: u16) -> [u16; 8]
    ensures sum { Plus result row.now c by.now }
    ensures wide { length result ≡ 8 }
{
    array::from_fn(|k| row[k] ^ product(c, by[k]))
}

// The first of the rows that has something left at the window.
fn pivot_in(rows: &[[u16; 8]], window: &[u16; 8]) -> Option<usize>
    ensures { result ≡ position (λ row. not (dot row window.now == 0)) rows.now }
{
    rows.iter().position(|row| dot_with(row, window) != 0)
}

// Takes the window from the rows by the pivot, which has something left there.
fn reduce(rows: &mut [[u16; 8]], pivot: &[u16; 8], window: &[u16; 8])
    requires { dot pivot.now window.now ≢ 0 }
    ensures count { length rows.new ≡ length rows.old }
    ensures reduced { (i : ℕ) → i < length rows.old → Reduced window.now (slice_index_or rows.new i []) (slice_index_or rows.old i []) pivot.now }
{
    let scale = inverse(dot_with(pivot, window));
    for row in rows {
        let c = product(dot_with(row, window), scale);
        *row = reduced(row, pivot, c);
    }
}

// Takes the window from the rows up to `last`, which costs one row.
fn eliminate(rows: &mut [[u16; 8]; 8], window: &[u16; 8], last: usize)
    requires fits { last < 8 }
    ensures { (s : List ℕ) (j : ℕ) → window.now ≡ take 8 (drop j s) → Kernel 8 s j (last + 1) rows.old → Kernel 8 s (j + 1) last rows.new }
{
    let Some(first) = pivot_in(&rows[..last], window) else {
        return;
    };
    let pivot = rows[first];
    rows[first..=last].rotate_left(1);
    reduce(&mut rows[first..last], &pivot, window);
}

// The polynomial x to the `i`.
fn unit(i: usize) -> [u16; 8]
    ensures wide { length result ≡ 8 }
    ensures here { i < 8 → slice_index result i ≡ 1 }
    ensures other { (k : ℕ) → k ≢ i → slice_index result k ≡ 0 }
{
    array::from_fn(|k| u16::from(k == i))
}

// A polynomial of degree at most 7, not zero, that annihilates the seven windows of the syndromes.
pub(crate) fn locator(s: &[u16; PARITY]) -> [u16; 8]
    ensures { Locator 8 s.now 7 result }
{
    let mut rows = array::from_fn(unit);
    // One row less is left after each of the seven windows.
    for (j, window) in s.array_windows::<8>().enumerate() {
        eliminate(&mut rows, window, 7 - j);
    }
    rows[0]
}
