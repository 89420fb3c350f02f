// The TUI of bytes: a level is high, 1, or low, 0.
ghost use Rattle.std.specs.Prelude.{◌≡◌, ◌/◌, ◌<◌, length, slice_index};
ghost use Rattle.std.specs.Int.{from_bool};
ghost use Rattle.signal.specs.Signal.{bits_of};

use training::fields::bit;

// The level of one TUI that the bytes have.
#[tactic(auto, using(crate::proofs::Bits::get_or_bits))]
pub(crate) fn level_of(bytes: &[u8], place: usize) -> bool
    requires { place / 8 < length bytes.now }
    ensures { from_bool result ≡ slice_index (bits_of bytes.now) place }
{
    bit(u16::from(bytes[place / 8]), place % 8)
}

// The level of one TUI; past the end it is low.
#[tactic(auto, using(crate::proofs::Bits::bits_past))]
pub(crate) fn level_at(bytes: &[u8], place: usize) -> bool
    ensures { from_bool result ≡ slice_index (bits_of bytes.now) place }
{
    place / 8 < bytes.len() && level_of(bytes, place)
}

// The level of one TUI as a number, 0 or 1, as recordings hold it; past the end it is 0.
pub fn tui_at(recording: &[u8], place: usize) -> u8
    ensures level { result ≡ slice_index (bits_of recording.now) place }
    ensures bit { result < 2 }
{
    u8::from(level_at(recording, place))
}
