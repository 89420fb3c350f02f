// Reading a line: it is repaired, and its front is the message.
ghost use Rattle.std.specs.Prelude.{MatchOption, take, ◌≡◌};
ghost use Rattle.symbols.specs.Symbols.{Symbols};
ghost use Rattle.reed_solomon.specs.Repaired.{RepairedTo, Hopeless};

use crate::codec::LINE_LENGTH;
use crate::repair::repair;
use symbols::MESSAGE_LENGTH;

// Turns the line into the code word within 7 symbols of it, if there is one, gives its message, and answers how many were wrong.
pub(crate) fn read_word(
    line: &mut [u16; LINE_LENGTH],
    message: &mut [u16; MESSAGE_LENGTH],
) -> Option<usize>
    requires { Symbols line.old }
    ensures { MatchOption result
        (Hopeless 7 line.old × (line.new ≡ line.old) × (message.new ≡ message.old))
        (λ d. RepairedTo 7 line.old line.new d × (message.new ≡ take 514 line.new)) }
{
    let wrong = repair(line)?;
    message.copy_from_slice(&line[..MESSAGE_LENGTH]);
    Some(wrong)
}
