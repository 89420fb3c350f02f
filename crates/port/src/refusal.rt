// Why a port refuses a call.
ghost use Rattle.std.specs.Prelude.{◌≡◌};
ghost use Rattle.port.specs.Refusals.{number as number_of, place as place_of, block as block_number};
ghost use Rattle.port.specs.declared.refusal.PortRefusal.TheVariants.{Code as of_code, Message as of_message};

use code::refusal::CodeRefusal;
use messages::refusal::MessageRefusal;
use numbered_refusal::Refusal;
use std::error::Error;
use std::fmt;

// A refusal of a layer below keeps its number and its place.
#[derive(Clone, Copy, PartialEq, Eq, Debug, Drop)]
pub enum PortRefusal {
    Opening,
    Length,
    Full,
    Code(CodeRefusal),
    Message(MessageRefusal),
}

impl From<CodeRefusal> for PortRefusal {
    ghost from_gives = { λ e r. r ≡ of_code e };

    fn from(e: CodeRefusal) -> PortRefusal {
        PortRefusal::Code(e)
    }
}

impl From<MessageRefusal> for PortRefusal {
    ghost from_gives = { λ e r. r ≡ of_message e };

    fn from(e: MessageRefusal) -> PortRefusal {
        PortRefusal::Message(e)
    }
}

impl Refusal for PortRefusal {
    ghost numbered = { number_of };

    ghost placed = { place_of };

    fn number(&self) -> u8 {
        match *self {
            PortRefusal::Opening => 41,
            PortRefusal::Length => 42,
            PortRefusal::Full => 43,
            PortRefusal::Code(e) => e.number(),
            PortRefusal::Message(e) => e.number(),
        }
    }

    fn place(&self) -> usize {
        match *self {
            PortRefusal::Code(e) => e.place(),
            PortRefusal::Message(e) => e.place(),
            _ => 0,
        }
    }
}

impl PortRefusal {
    // The block that is refused, where it is a block.
    pub fn block(&self) -> Option<usize>
        ensures { result ≡ block_number self.now }
    {
        match *self {
            PortRefusal::Message(e) => e.block(),
            _ => None,
        }
    }
}

impl fmt::Display for PortRefusal {
    fn fmt<W: fmt::Write>(&self, f: &mut fmt::Formatter<W>) -> fmt::Result {
        match *self {
            PortRefusal::Opening => write!(f, "41: the opening totals are above the limit"),
            PortRefusal::Length => write!(
                f,
                "42: not eighty words, or the line has the wrong length"
            ),
            PortRefusal::Full => write!(f, "43: the totals have no room for one more reading"),
            PortRefusal::Code(e) => write!(f, "{e}"),
            PortRefusal::Message(e) => write!(f, "{e}"),
        }
    }
}

impl Error for PortRefusal {}
