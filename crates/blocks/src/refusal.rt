// Why a block has no words.
ghost use Rattle.blocks.specs.Refusals.{number as number_of, place as place_of};

use numbered_refusal::Refusal;
use std::error::Error;
use std::fmt;

// The word in its group, 0 to 3, is the one that shows the fault.
#[derive(Clone, Copy, PartialEq, Eq, Debug, Drop)]
pub enum BlockRefusal {
    NoControl,
    NoType { word: usize },
    Unlisted { word: usize },
}

impl Refusal for BlockRefusal {
    ghost numbered = { number_of };

    ghost placed = { place_of };

    fn number(&self) -> u8 {
        match *self {
            BlockRefusal::NoControl => 21,
            BlockRefusal::NoType { word: _ } => 22,
            BlockRefusal::Unlisted { word: _ } => 23,
        }
    }

    fn place(&self) -> usize {
        match *self {
            BlockRefusal::NoControl => 0,
            BlockRefusal::NoType { word } => word,
            BlockRefusal::Unlisted { word } => word,
        }
    }
}

impl fmt::Display for BlockRefusal {
    fn fmt<W: fmt::Write>(&self, f: &mut fmt::Formatter<W>) -> fmt::Result {
        match *self {
            BlockRefusal::NoControl => write!(
                f,
                "21: bit 0 is 0, and no word is marked as control"
            ),
            BlockRefusal::NoType { word } => write!(
                f,
                "22: the nibble kept of the type is 0, at word {word}"
            ),
            BlockRefusal::Unlisted { word } => write!(
                f,
                "23: the type of a later control word is not listed, at word {word}"
            ),
        }
    }
}

impl Error for BlockRefusal {}
