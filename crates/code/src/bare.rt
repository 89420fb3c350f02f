// The code that adds nothing to a message and mends nothing.
ghost use Rattle.code.specs.Codes.{bare as bare_model};
ghost use Rattle.code.specs.Layered.{bare_lawful};

use crate::interface::{Code, check_lengths, check_symbols};
use crate::refusal::CodeRefusal;
use symbols::MESSAGE_LENGTH;

// A line is the message itself.
#[derive(Clone, Copy, PartialEq, Eq, Debug)]
pub struct Bare;

impl Code for Bare {
    ghost model = { λ _. bare_model };

    ghost lawful = { λ _. bare_lawful };

    fn n(&self) -> usize {
        MESSAGE_LENGTH
    }

    fn t(&self) -> usize {
        0
    }

    fn form(&self, message: &[u16], line: &mut [u16]) -> Result<(), CodeRefusal> {
        check_lengths(MESSAGE_LENGTH, message, line)?;
        check_symbols(message)?;
        line.copy_from_slice(message);
        Ok(())
    }

    fn mend(&self, line: &mut [u16], message: &mut [u16]) -> Result<usize, CodeRefusal> {
        check_lengths(MESSAGE_LENGTH, message, line)?;
        check_symbols(line)?;
        message.copy_from_slice(line);
        Ok(0)
    }
}
