// The interface of every code: what a code is and what its calls do.
ghost use Rattle.std.specs.Prelude.{◌≡◌};
ghost use Rattle.code.specs.Codes.{Model, Lawful};
ghost use Rattle.code.specs.Calls.{Formed, Mended, LengthsChecked, SymbolsChecked};

use crate::refusal::CodeRefusal;
use symbols::{MESSAGE_LENGTH, first_above};

// How many symbols a line has at most, whatever the code.
pub const LONGEST_LINE: usize = 544;

// A code turns messages into lines that can be told apart though some of their symbols arrive wrong.
// A message is 514 symbols, a line n symbols; both are lent. A refusal leaves them as they were.
pub trait Code {
    // What the code means: n, t and the code word of each message.
    ghost model: { Self → Model };

    // How many symbols a line has.
    fn n(&self) -> usize
        ensures { result ≡ (model self.now).n };

    // Up to how many wrong symbols are mended.
    fn t(&self) -> usize
        ensures { result ≡ (model self.now).t };

    // Leaves the message's code word in the line, whose old contents are not read.
    fn form(&self, message: &[u16], line: &mut [u16]) -> Result<(), CodeRefusal>
        ensures { Formed (model self.now) message.now line.old line.new result };

    // Turns the line into the code word within t of it, gives that word's message, and answers how many symbols were wrong.
    fn mend(&self, line: &mut [u16], message: &mut [u16]) -> Result<usize, CodeRefusal>
        ensures { Mended (model self.now) line.old message.old line.new message.new result };

    // The code words of different messages lie at least 2t + 1 apart.
    ghost lawful: { (c : Self) → Lawful (model c) };
}

// Refuses a message place that has not the length of a message, and a line that has not n symbols.
pub fn check_lengths(n: usize, message: &[u16], line: &[u16]) -> Result<(), CodeRefusal>
    ensures { LengthsChecked n message.now line.now result }
{
    if message.len() != MESSAGE_LENGTH || line.len() != n {
        return Err(CodeRefusal::Length);
    }
    Ok(())
}

// Refuses a list that holds a number above the largest symbol, at the first such place.
pub fn check_symbols(list: &[u16]) -> Result<(), CodeRefusal>
    ensures { SymbolsChecked list.now result }
{
    first_above(list).map_or(Ok(()), |place| Err(CodeRefusal::Symbol { place }))
}
