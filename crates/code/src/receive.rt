// Mending with all that the law of a code adds to it.
ghost use Rattle.code.specs.Codes.{OneNear};
ghost use Rattle.code.specs.Calls.{Mended, Sure};

use crate::interface::Code;
use crate::refusal::CodeRefusal;

// Mends the line by any code. At most one code word is within reach, so the outcome is the only one there is,
// and a message whose line took no more than t wrong symbols on the way is given back.
pub fn receive<C: Code>(
    code: &C,
    line: &mut [u16],
    message: &mut [u16],
) -> Result<usize, CodeRefusal>
    ensures mended { Mended (C.Code.model code.now) line.old message.old line.new message.new result }
    ensures alone { OneNear (C.Code.model code.now) }
    ensures sure { Sure (C.Code.model code.now) line.old message.old line.new message.new result }
{
    code.mend(line, message)
}
