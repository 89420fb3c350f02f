// Writing a signal into a lent place.
ghost use Rattle.std.specs.Prelude.{◌≡◌};
ghost use Rattle.signal.specs.Signal.{bits_of, signal, IsSeed};
ghost use Rattle.signal.specs.Calls.{Wrote};

use crate::sender::Sender;
use training::records::{Control, Status, Training};
use training::refusals::TrainingRefusal;

// How many bytes a signal has.
pub const SIGNAL_BYTES: usize = 548;

// The largest seed.
pub const SEED_MAX: u16 = 2047;

// The bytes of a signal.
#[tactic(auto, using(crate::proofs::SignalParts::length_front))]
fn signal_of(training: Training) -> [u8; SIGNAL_BYTES]
    ensures { bits_of result ≡ signal training.control training.status training.seed }
{
    let mut sender = Sender::new();
    sender.send_front(u16::from(training.control), u16::from(training.status));
    sender.send_back(training.seed);
    sender.line()
}

// Writes the signal of a control record, a status record and a seed into a place of 548 bytes.
pub fn write(
    control: Control,
    status: Status,
    seed: u16,
    place: &mut [u8],
) -> Result<(), TrainingRefusal>
    ensures { Wrote control status seed place.old place.new result }
{
    if seed == 0 || seed > SEED_MAX {
        return Err(TrainingRefusal::Seed);
    }
    let line = place.as_mut_array().ok_or(TrainingRefusal::Length)?;
    *line = signal_of(Training {
        control,
        status,
        seed,
    });
    Ok(())
}
