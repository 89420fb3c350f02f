// Repairing a line of symbols.
ghost use Rattle.symbols.specs.Symbols.{Symbols};
ghost use Rattle.reed_solomon.specs.Repaired.{Repaired};

use crate::codec::LINE_LENGTH;
use crate::correction::correct;
use crate::division::{PARITY, rest_of};
use crate::syndromes::syndromes;
use reed_solomon_decoder::errors::decode;

// Turns the line into the code word within 7 symbols of it, if there is one, and answers how many were wrong.
pub(crate) fn repair(line: &mut [u16; LINE_LENGTH]) -> Option<usize>
    requires { Symbols line.old }
    ensures { Repaired 7 line.old line.new result }
{
    let rest = rest_of(line);
    if rest == [0; PARITY] {
        return Some(0);
    }
    let errors = decode(&syndromes(&rest))?;
    Some(correct(line, errors.as_slice()))
}
