// The layer that turns correction off.
ghost use Rattle.std.specs.Prelude.{◌≡◌};
ghost use Rattle.code.specs.Calls.{Mended};
ghost use Rattle.code.specs.Layers.{off, Exact};
ghost use Rattle.code.specs.Layered.{off_lawful};

use crate::interface::{Code, LONGEST_LINE, check_lengths};
use crate::refusal::CodeRefusal;
use symbols::MESSAGE_LENGTH;

// The code below with the same lines, which accepts code words only: every other line is refused as it is,
// though the code below would have mended it.
#[derive(Clone, Copy, PartialEq, Eq, Debug, Drop)]
pub struct CorrectionOff<C> {
    pub inner: C,
}

impl<C: Code> Code for CorrectionOff<C> {
    ghost model = { λ s. off (C.Code.model s.inner) };

    ghost lawful = { λ c. off_lawful (C.Code.model c.inner) (C.Code.lawful c.inner) };

    fn n(&self) -> usize {
        self.inner.n()
    }

    fn t(&self) -> usize {
        0
    }

    fn form(&self, message: &[u16], line: &mut [u16]) -> Result<(), CodeRefusal> {
        self.inner.form(message, line)
    }

    fn mend(&self, line: &mut [u16], message: &mut [u16]) -> Result<usize, CodeRefusal> {
        self.accept(line, message)
    }
}

impl<C: Code> CorrectionOff<C> {
    // The layer over this code: it accepts exactly the code words.
    pub fn over(inner: C) -> CorrectionOff<C>
        ensures inner { result.inner ≡ inner }
        ensures exact { Exact (C.Code.model inner) }
    {
        CorrectionOff { inner }
    }

    // Gives the message of a line that is a code word as it stands. The code below mends copies.
    // Scrambled and the port's reading copy the line too, and write the copy back; a function that lends a copy to a closure is no shorter.
    fn accept(&self, line: &[u16], message: &mut [u16]) -> Result<usize, CodeRefusal>
        ensures { Mended (off (C.Code.model self.now.inner)) line.now message.old line.now message.new result }
    {
        check_lengths(self.inner.n(), message, line)?;
        let mut room = [0u16; LONGEST_LINE];
        let word = &mut room[..line.len()];
        word.copy_from_slice(line);
        let mut found = [0u16; MESSAGE_LENGTH];
        let wrong = self.inner.mend(word, &mut found)?;
        if wrong > 0 {
            return Err(CodeRefusal::NoCodeWord);
        }
        message.copy_from_slice(&found);
        Ok(0)
    }
}
