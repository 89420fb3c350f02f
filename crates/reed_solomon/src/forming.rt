// Forming a line: the message in front, and its parity behind it.
ghost use Rattle.std.specs.Prelude.{◌≡◌};
ghost use Rattle.symbols.specs.Symbols.{Symbols};
ghost use Rattle.reed_solomon_algebra.specs.Division.{encode};

use crate::codec::LINE_LENGTH;
use crate::division::divide;
use symbols::MESSAGE_LENGTH;

// The line becomes the code word of the message.
pub(crate) fn write_word(message: &[u16; MESSAGE_LENGTH], line: &mut [u16; LINE_LENGTH])
    requires { Symbols message.now }
    ensures { line.new ≡ encode 7 message.now }
{
    line[..MESSAGE_LENGTH].copy_from_slice(message);
    divide(message, line.last_chunk_mut().unwrap());
}
