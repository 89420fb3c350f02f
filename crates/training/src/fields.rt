// Making control and status records from numbers, and the sixteen bits of each as a field carries them.
ghost use Rattle.std.specs.Prelude.{◌≡◌, ◌/◌, ◌%◌, ◌^◌, MatchResult};
ghost use Rattle.training.specs.Numbers.{IsMark, IsUpdate, IsState, Names};
ghost use Rattle.training.specs.Making.{ControlFrom, StatusFrom};
ghost use Rattle.std.specs.Int.{from_bool};
ghost use Rattle.training.specs.Fields.{control_number, status_number};

use crate::records::{Coefficients, Control, Mark, Status};
use crate::refusals::{TrainingRefusal, UnknownNumber};

// Whether the bit at a place of a number is set; past bit 15 none is.
pub fn bit(number: u16, place: usize) -> bool
    ensures { from_bool result ≡ number / 2 ^ place % 2 }
{
    place < 16 && (number >> place) & 1 == 1
}

impl Control {
    // A control record from the numbers of its mark and updates: numbers, since they come from outside and may name nothing.
    pub fn new(
        mark: u8,
        preset: bool,
        initialise: bool,
        fec_request: bool,
        parallel_lanes: bool,
        c1: u8,
        c0: u8,
        cm1: u8,
    ) -> Result<Control, TrainingRefusal>
        ensures { MatchResult result (ControlFrom mark preset initialise fec_request parallel_lanes c1 c0 cm1) (λ e. (e ≡ TrainingRefusal.Values) × (IsMark mark × IsUpdate c1 × IsUpdate c0 × IsUpdate cm1 → ⊥)) }
    {
        Ok(Control {
            mark: Mark::try_from(mark)?,
            preset,
            initialise,
            fec_request,
            parallel_lanes,
            updates: Coefficients::from_numbers(c1, c0, cm1)?,
        })
    }
}

impl Status {
    // A status record from the numbers of its states, for the same reason.
    pub fn new(
        complete: bool,
        negotiating: bool,
        fec_capable: bool,
        fixed: bool,
        c1: u8,
        c0: u8,
        cm1: u8,
    ) -> Result<Status, TrainingRefusal>
        ensures { MatchResult result (StatusFrom complete negotiating fec_capable fixed c1 c0 cm1) (λ e. (e ≡ TrainingRefusal.Values) × (IsState c1 × IsState c0 × IsState cm1 → ⊥)) }
    {
        Ok(Status {
            complete,
            negotiating,
            fec_capable,
            fixed,
            states: Coefficients::from_numbers(c1, c0, cm1)?,
        })
    }
}

// The control field.
impl From<Control> for u16 {
    ghost from_gives = { λ c n. n ≡ control_number c };

    fn from(control: Control) -> u16 {
        (u16::from(u8::from(control.mark)) << 14)
            + (u16::from(control.preset) << 13)
            + (u16::from(control.initialise) << 12)
            + (u16::from(control.fec_request) << 11)
            + (u16::from(control.parallel_lanes) << 10)
            + u16::from(u8::from(control.updates))
    }
}

// The record whose field this is; none has a field with a reserved value or a reserved bit.
impl TryFrom<u16> for Control {
    type Error = UnknownNumber;

    ghost try_from_gives = { Names control_number };

    fn try_from(field: u16) -> Result<Control, UnknownNumber> {
        if field / 64 % 16 != 0 {
            return Err(UnknownNumber);
        }
        Ok(Control {
            mark: Mark::try_from((field / 16384) as u8)?,
            preset: bit(field, 13),
            initialise: bit(field, 12),
            fec_request: bit(field, 11),
            parallel_lanes: bit(field, 10),
            updates: Coefficients::try_from((field % 64) as u8)?,
        })
    }
}

// The status field.
impl From<Status> for u16 {
    ghost from_gives = { λ s n. n ≡ status_number s };

    fn from(status: Status) -> u16 {
        (u16::from(status.complete) << 15)
            + (u16::from(status.negotiating) << 14)
            + (u16::from(status.fec_capable) << 13)
            + (u16::from(status.fixed) << 12)
            + u16::from(u8::from(status.states))
    }
}

// The record whose field this is; none has a field with a reserved bit.
impl TryFrom<u16> for Status {
    type Error = UnknownNumber;

    ghost try_from_gives = { Names status_number };

    fn try_from(field: u16) -> Result<Status, UnknownNumber> {
        if field / 64 % 64 != 0 {
            return Err(UnknownNumber);
        }
        Ok(Status {
            complete: bit(field, 15),
            negotiating: bit(field, 14),
            fec_capable: bit(field, 13),
            fixed: bit(field, 12),
            states: Coefficients::try_from((field % 64) as u8)?,
        })
    }
}
