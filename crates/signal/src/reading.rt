// Reading the signal at a place of a recording.
ghost use Rattle.std.specs.Prelude.{◌≡◌, ℕ, length, MatchOption};
ghost use Rattle.training.specs.Fields.{control_number, status_number, IsControl, IsStatus};
ghost use Rattle.signal.specs.Calls.{Read};
ghost use Rattle.signal.specs.Laws.{ReadsBack, IsWritten, ReadsOnce};
ghost use Rattle.signal.specs.Tape.{bytes_of};

use crate::tape::Recording;
use training::records::{Control, Status, Training};
use training::refusals::TrainingRefusal;

// How many TUI a signal has.
pub const SIGNAL_TUI: usize = 4384;

// The most bytes of a recording.
pub const RECORDING_MAX: usize = 65536;

// The records of the two fields.
fn records_of(control: u16, status: u16) -> Option<(Control, Status)>
    ensures { MatchOption result (IsControl control × IsStatus status → ⊥) (λ p. (control_number p.0 ≡ control) × (status_number p.1 ≡ status)) }
{
    let control = Control::try_from(control).ok()?;
    let status = Status::try_from(status).ok()?;
    Some((control, status))
}

impl<'a> Recording<'a> {
    // Reads the signal that begins at TUI `start`: the checks in their order.
    pub fn read(&self, start: usize) -> Result<Training, TrainingRefusal>
        ensures { Read (bytes_of self.now) start result }
    {
        let end = self.tui_count();
        if end < SIGNAL_TUI || start > end - SIGNAL_TUI {
            return Err(TrainingRefusal::Short { place: start });
        }
        if !self.marker_at(start) {
            return Err(TrainingRefusal::NoMarker { place: start });
        }
        let broken = TrainingRefusal::BrokenCell { place: start };
        let (control, status) = self.fields_at(start).ok_or(broken)?;
        let reserved = TrainingRefusal::Reserved { place: start };
        let (control, status) = records_of(control, status).ok_or(reserved)?;
        let seed = self
            .back_at(start + 288)
            .ok_or(TrainingRefusal::Pattern { place: start })?;
        Ok(Training {
            control,
            status,
            seed,
        })
    }
}

// Reads the signal that begins at TUI `start` of a recording.
pub fn read(recording: &[u8], start: usize) -> Result<Training, TrainingRefusal>
    ensures answer { Read recording.now start result }
    ensures only { ReadsOnce recording.now start result }
    ensures back { ReadsBack recording.now start result }
    ensures written { IsWritten recording.now start result }
{
    Recording::new(recording)?.read(start)
}
