// Why a call on training signals did not do its work.
ghost use Rattle.std.specs.Prelude.{◌≡◌};
ghost use Rattle.training.specs.Refusals.{number_of, place_of};
ghost use Rattle.training.specs.declared.refusals.TrainingRefusal.TheVariants.{Values};

use numbered_refusal::Refusal;
use std::error::Error;
use std::fmt;

// A number that no mark, update, state or record has.
#[derive(Clone, Copy, PartialEq, Eq, Debug, Drop)]
pub struct UnknownNumber;

impl fmt::Display for UnknownNumber {
    fn fmt<W: fmt::Write>(&self, f: &mut fmt::Formatter<W>) -> fmt::Result {
        f.write_str("no mark, update, state or record has this number")
    }
}

impl Error for UnknownNumber {}

// Each refusal, after its number.
#[derive(Clone, Copy, PartialEq, Eq, Debug, Drop)]
pub enum TrainingRefusal {
    // 51
    Values,
    // 52
    Seed,
    // 53
    Length,
    // 54
    Short { place: usize },
    // 55
    NoMarker { place: usize },
    // 56
    BrokenCell { place: usize },
    // 57
    Reserved { place: usize },
    // 58
    Pattern { place: usize },
    // 59
    NothingFound { place: usize },
}

// What a call answers that was given a number of no mark, update or state.
impl From<UnknownNumber> for TrainingRefusal {
    ghost from_gives = { λ _ r. r ≡ Values };

    fn from(_: UnknownNumber) -> TrainingRefusal {
        TrainingRefusal::Values
    }
}

impl Refusal for TrainingRefusal {
    ghost numbered = { number_of };

    ghost placed = { place_of };

    fn number(&self) -> u8 {
        match self {
            TrainingRefusal::Values => 51,
            TrainingRefusal::Seed => 52,
            TrainingRefusal::Length => 53,
            TrainingRefusal::Short { place: _ } => 54,
            TrainingRefusal::NoMarker { place: _ } => 55,
            TrainingRefusal::BrokenCell { place: _ } => 56,
            TrainingRefusal::Reserved { place: _ } => 57,
            TrainingRefusal::Pattern { place: _ } => 58,
            TrainingRefusal::NothingFound { place: _ } => 59,
        }
    }

    fn place(&self) -> usize {
        match self {
            TrainingRefusal::Values | TrainingRefusal::Seed | TrainingRefusal::Length => 0,
            TrainingRefusal::Short { place }
            | TrainingRefusal::NoMarker { place }
            | TrainingRefusal::BrokenCell { place }
            | TrainingRefusal::Reserved { place }
            | TrainingRefusal::Pattern { place }
            | TrainingRefusal::NothingFound { place } => *place,
        }
    }
}

// One line: the number, what it means, and the place where one is told.
impl fmt::Display for TrainingRefusal {
    fn fmt<W: fmt::Write>(&self, f: &mut fmt::Formatter<W>) -> fmt::Result {
        match self {
            TrainingRefusal::Values => write!(
                f,
                "51: a number that names no mark, update or state"
            ),
            TrainingRefusal::Seed => write!(f, "52: the seed is 0 or above 2047"),
            TrainingRefusal::Length => write!(
                f,
                "53: a place that is not 548 bytes, or a recording above 65536 bytes"
            ),
            TrainingRefusal::Short { place } => write!(
                f,
                "54: fewer than 4384 TUI left, at TUI {place}"
            ),
            TrainingRefusal::NoMarker { place } => write!(f, "55: no marker there, at TUI {place}"),
            TrainingRefusal::BrokenCell { place } => write!(f, "56: a broken cell, at TUI {place}"),
            TrainingRefusal::Reserved { place } => write!(
                f,
                "57: a reserved value or bit, at TUI {place}"
            ),
            TrainingRefusal::Pattern { place } => write!(
                f,
                "58: the pattern, its seed or the end zeros wrong, at TUI {place}"
            ),
            TrainingRefusal::NothingFound { place } => write!(
                f,
                "59: no marker from there on, at TUI {place}"
            ),
        }
    }
}

impl Error for TrainingRefusal {}
