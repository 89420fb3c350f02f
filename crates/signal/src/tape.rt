// Lent bytes as the recording that they hold: no more bytes than a recording may have.
ghost use Rattle.std.specs.Prelude.{◌≡◌, ◌<◌, ◌≤◌, length, MatchResult};
ghost use Rattle.std.specs.Int.{from_bool};
ghost use Rattle.signal.specs.Signal.{recording_max};

use crate::line::{level_at, level_of};
use crate::reading::RECORDING_MAX;
use training::refusals::TrainingRefusal;

// Its bytes are lent, so a copy of it is another look at the same recording.
#[derive(Clone, Copy)]
pub struct Recording<'a> {
    bytes: &'a [u8],
    pub ghost sized: { length bytes.now ≤ recording_max },
}

impl<'a> Recording<'a> {
    ghost use Rattle.std.specs.Prelude.{slice_index};
    ghost use Rattle.signal.specs.Calls.{Sized};
    ghost use Rattle.signal.specs.Tape.{bytes_of, tui};

    // The recording that the bytes hold.
    pub fn new(bytes: &'a [u8]) -> Result<Recording<'a>, TrainingRefusal>
        ensures { MatchResult result (λ r. bytes_of r ≡ bytes.now) (λ e. (e ≡ TrainingRefusal.Length) × (Sized bytes.now → ⊥)) }
    {
        if bytes.len() > RECORDING_MAX {
            return Err(TrainingRefusal::Length);
        }
        Ok(Recording { bytes })
    }

    // How many TUI it has.
    #[tactic(auto, using(crate::proofs::Bits::length_bits))]
    pub fn tui_count(&self) -> usize
        ensures { result ≡ length (tui self.now) }
    {
        self.bytes.len() * 8
    }

    // The level of one TUI that it has.
    #[tactic(auto, using(crate::proofs::Bits::length_bits))]
    pub(crate) fn level_of(&self, place: usize) -> bool
        requires { place < length (tui self.now) }
        ensures { from_bool result ≡ slice_index (tui self.now) place }
    {
        level_of(self.bytes, place)
    }

    // The level of one TUI; past the end it is low.
    pub fn level_at(&self, place: usize) -> bool
        ensures { from_bool result ≡ slice_index (tui self.now) place }
    {
        level_at(self.bytes, place)
    }
}
