// Sending a signal, TUI after TUI.
ghost use Rattle.std.specs.Prelude.{◌≡◌, ℕ, ◌+◌, ◌-◌, ◌<◌, ◌≤◌, List, [], ◌∷◌, ◌++◌, length, take, replicate, slice_index};
ghost use Rattle.std.specs.Int.{from_bool};
ghost use Rattle.signal.specs.Signal.{bits_of, cell, cells, field as field_bits, front, pattern, back, signal_length};
ghost use Rattle.signal.specs.Inner.{level_before};

use crate::line::level_of;
use crate::writing::SIGNAL_BYTES;
use std::marker::Model;
use training::fields::bit;

// How many bits of a pattern are sums of earlier ones: all but the eleven of the seed.
const SUMS: usize = 4083;

// A signal of which the first `sent` TUI stand in the line. Clauses see those.
// The line is owned: were it lent, clauses that see the TUI sent would not say what the lent line holds in the end.
#[derive(Drop)]
pub(crate) struct Sender {
    line: [u8; SIGNAL_BYTES],
    sent: usize,
}

impl Model for Sender {
    ghost Value = { List ℕ };

    ghost view = { λ s. take s.sent (bits_of s.line) };

    ghost invariant = { λ s. s.sent ≤ signal_length };
}

#[tactic(auto, using(crate::proofs::Sent::sent_length))]
impl Sender {
    // Nothing is sent yet.
    pub(crate) fn new() -> Sender
        ensures { result ≡ [] }
    {
        Sender {
            line: [0; SIGNAL_BYTES],
            sent: 0,
        }
    }

    // The line, once all TUI are sent.
    pub(crate) fn line(self) -> [u8; SIGNAL_BYTES]
        requires { length self ≡ signal_length }
        ensures { bits_of result ≡ self }
    {
        self.line
    }

    // The level that was sent `by` TUI ago.
    fn back(&self, by: usize) -> bool
        requires { (1 ≤ by) × (by ≤ length self.now) }
        ensures { from_bool result ≡ slice_index self.now (length self.now - by) }
    {
        level_of(&self.line, self.sent - by)
    }

    // Sends one TUI; what its byte held above it is cleared.
    fn send(&mut self, level: bool)
        requires { length self.old < signal_length }
        ensures { self.new ≡ self.old ++ from_bool level ∷ [] }
    {
        let weight = 1u8 << (self.sent % 8);
        let byte = self.sent / 8;
        self.line[byte] = self.line[byte] % weight + u8::from(level) * weight;
        self.sent += 1;
    }

    // Sends one level for `count` TUI.
    fn send_level(&mut self, count: usize, level: bool)
        requires { length self.old + count ≤ signal_length }
        ensures { self.new ≡ self.old ++ replicate count (from_bool level) }
    {
        for _ in 0..count {
            self.send(level);
        }
    }

    // Sends the cell of one bit.
    fn send_cell(&mut self, bit: bool)
        requires { (1 ≤ length self.old) × (length self.old + 8 ≤ signal_length) }
        ensures { self.new ≡ self.old ++ cell (level_before self.old (length self.old)) (from_bool bit) }
    {
        let first = !self.back(1);
        self.send_level(4, first);
        self.send_level(4, first != bit);
    }

    // Sends the cells of a field, from bit 15 down.
    fn send_field(&mut self, field: u16)
        requires { (1 ≤ length self.old) × (length self.old + 128 ≤ signal_length) }
        ensures { self.new ≡ self.old ++ cells (level_before self.old (length self.old)) (field_bits field) }
    {
        // By place: a number has no list of bits to go over.
        for k in (0..16).rev() {
            self.send_cell(bit(field, k));
        }
    }

    // Sends the eleven bits of a seed, the least first.
    fn send_seed(&mut self, seed: u16)
        requires { length self.old + 11 ≤ signal_length }
        ensures { self.new ≡ self.old ++ pattern seed 11 }
    {
        // By place, as in a field.
        for k in 0..11 {
            self.send(bit(seed, k));
        }
    }

    // Sends the pattern of a seed.
    fn send_pattern(&mut self, seed: u16)
        requires { length self.old + 4094 ≤ signal_length }
        ensures { self.new ≡ self.old ++ pattern seed 4094 }
    {
        self.send_seed(seed);
        for _ in 0..SUMS {
            let bit = self.back(9) != self.back(11);
            self.send(bit);
        }
    }

    // Sends what a signal begins with: the marker and the cells of both fields.
    #[tactic(auto, using(crate::proofs::Cells::length_cells, crate::proofs::FieldBits::length_highest))]
    pub(crate) fn send_front(&mut self, control: u16, status: u16)
        requires { self.old ≡ [] }
        ensures { self.new ≡ front control status }
    {
        self.send_level(16, true);
        self.send_level(16, false);
        self.send_field(control);
        self.send_field(status);
    }

    // Sends what a signal ends with: the pattern of a seed and two zeros.
    pub(crate) fn send_back(&mut self, seed: u16)
        requires { length self.old + 4096 ≤ signal_length }
        ensures { self.new ≡ self.old ++ back seed }
    {
        self.send_pattern(seed);
        self.send_level(2, false);
    }
}
