// Why a code refuses a call.
ghost use Rattle.code.specs.Refusals.{number as number_of, place as place_of};

use numbered_refusal::Refusal;
use std::error::Error;
use std::fmt;

// A refusal of the code layer. It changes neither the line nor the message place.
#[derive(Clone, Copy, PartialEq, Eq, Debug, Drop)]
pub enum CodeRefusal {
    // 31: the message place or the line has the wrong length.
    Length,
    // 32: the number at this place, the first such, is above the largest symbol.
    Symbol { place: usize },
    // 33: no code word lies within t of the line.
    NoCodeWord,
}

impl Refusal for CodeRefusal {
    ghost numbered = { number_of };

    ghost placed = { place_of };

    fn number(&self) -> u8 {
        match self {
            CodeRefusal::Length => 31,
            CodeRefusal::Symbol { .. } => 32,
            CodeRefusal::NoCodeWord => 33,
        }
    }

    fn place(&self) -> usize {
        match self {
            CodeRefusal::Symbol { place } => *place,
            _ => 0,
        }
    }
}

impl fmt::Display for CodeRefusal {
    fn fmt<W: fmt::Write>(&self, f: &mut fmt::Formatter<W>) -> fmt::Result {
        match self {
            CodeRefusal::Length => write!(f, "31: the message or the line has the wrong length"),
            CodeRefusal::Symbol { place } => write!(
                f,
                "32: a number above 1,023, at symbol {place}"
            ),
            CodeRefusal::NoCodeWord => write!(f, "33: no code word within reach"),
        }
    }
}

impl Error for CodeRefusal {}
