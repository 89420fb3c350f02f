// Why a message has no words.
ghost use Rattle.std.specs.Prelude.{◌≡◌};
ghost use Rattle.messages.specs.Refusals.{number as number_of, place as place_of, block_of};

use blocks::refusal::BlockRefusal;
use numbered_refusal::Refusal;
use std::error::Error;
use std::fmt;

// A number above 1,023 is no symbol, as in the refusals of codes, whose enum says the same for itself: an enum for each layer
// tells which refusals a call can give. A block is counted from 0 to 19.
#[derive(Clone, Copy, PartialEq, Eq, Debug, Drop)]
pub enum MessageRefusal {
    Symbol { place: usize },
    Block { block: usize, refusal: BlockRefusal },
}

impl Refusal for MessageRefusal {
    ghost numbered = { number_of };

    ghost placed = { place_of };

    fn number(&self) -> u8 {
        match *self {
            MessageRefusal::Symbol { place: _ } => 32,
            MessageRefusal::Block { block: _, refusal } => refusal.number(),
        }
    }

    fn place(&self) -> usize {
        match *self {
            MessageRefusal::Symbol { place } => place,
            MessageRefusal::Block { block: _, refusal } => refusal.place(),
        }
    }
}

impl MessageRefusal {
    // The block that is refused, where it is a block.
    pub fn block(&self) -> Option<usize>
        ensures { result ≡ block_of self.now }
    {
        match *self {
            MessageRefusal::Symbol { place: _ } => None,
            MessageRefusal::Block { block, refusal: _ } => Some(block),
        }
    }
}

impl fmt::Display for MessageRefusal {
    fn fmt<W: fmt::Write>(&self, f: &mut fmt::Formatter<W>) -> fmt::Result {
        match *self {
            MessageRefusal::Symbol { place } => write!(
                f,
                "32: a number above 1,023, at symbol {place}"
            ),
            MessageRefusal::Block { block, refusal } => write!(f, "{refusal} of block {block}"),
        }
    }
}

impl Error for MessageRefusal {}
