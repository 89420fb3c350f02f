// Why a header and a body make no word.
ghost use Rattle.words.specs.Refusals.{number as number_of, place as place_of};

use numbered_refusal::Refusal;
use std::error::Error;
use std::fmt;

#[derive(Clone, Copy, PartialEq, Eq, Debug, Drop)]
pub enum WordRefusal {
    Header,
    Unlisted,
}

impl Refusal for WordRefusal {
    ghost numbered = { number_of };

    ghost placed = { place_of };

    fn number(&self) -> u8 {
        match *self {
            WordRefusal::Header => 11,
            WordRefusal::Unlisted => 12,
        }
    }

    fn place(&self) -> usize {
        0
    }
}

impl fmt::Display for WordRefusal {
    fn fmt<W: fmt::Write>(&self, f: &mut fmt::Formatter<W>) -> fmt::Result {
        match *self {
            WordRefusal::Header => write!(f, "11: the header is neither 1 nor 2"),
            WordRefusal::Unlisted => write!(f, "12: the type of the control word is not listed"),
        }
    }
}

impl Error for WordRefusal {}
