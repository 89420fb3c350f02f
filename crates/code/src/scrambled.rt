// The layer that scrambles the lines.
ghost use Rattle.std.specs.Prelude.{◌≡◌, length};
ghost use Rattle.code.specs.Calls.{Sized};
ghost use Rattle.code.specs.Copies.{MendedInto};
ghost use Rattle.code.specs.Layers.{scrambled as scrambled_model};
ghost use Rattle.code.specs.Layered.{scrambled_lawful};

use crate::interface::{Code, LONGEST_LINE, check_lengths, check_symbols};
use crate::refusal::CodeRefusal;
use crate::sequence::add_key;

// The code below with the key added to its lines, symbol by symbol; the key starts afresh with each line.
#[derive(Clone, Copy, PartialEq, Eq, Debug, Drop)]
pub struct Scrambled<C> {
    pub inner: C,
}

impl<C: Code> Code for Scrambled<C> {
    ghost model = { λ s. scrambled_model (C.Code.model s.inner) };

    ghost lawful = { λ c. scrambled_lawful (C.Code.model c.inner) (C.Code.lawful c.inner) };

    fn n(&self) -> usize {
        self.inner.n()
    }

    fn t(&self) -> usize {
        self.inner.t()
    }

    fn form(&self, message: &[u16], line: &mut [u16]) -> Result<(), CodeRefusal> {
        self.inner.form(message, line)?;
        add_key(line);
        Ok(())
    }

    // Only a line that was mended is written back, so that a refusal leaves it as it was.
    fn mend(&self, line: &mut [u16], message: &mut [u16]) -> Result<usize, CodeRefusal> {
        check_lengths(self.inner.n(), message, line)?;
        // No memory is asked for, and only the code says how long its line is: the copy is the front of a room for any line.
        let mut room = [0u16; LONGEST_LINE];
        let word = &mut room[..line.len()];
        let wrong = self.mend_into(line, word, message)?;
        line.copy_from_slice(word);
        Ok(wrong)
    }
}

impl<C: Code> Scrambled<C> {
    // The layer over this code.
    pub fn over(inner: C) -> Scrambled<C>
        ensures { result.inner ≡ inner }
    {
        Scrambled { inner }
    }

    // Leaves the mended line in `word`; the code below sees it unscrambled. A refusal may leave anything there.
    fn mend_into(
        &self,
        line: &[u16],
        word: &mut [u16],
        message: &mut [u16],
    ) -> Result<usize, CodeRefusal>
        requires sized { Sized (C.Code.model self.now.inner).n message.old line.now }
        requires room { length word.old ≡ length line.now }
        ensures { MendedInto (scrambled_model (C.Code.model self.now.inner)) line.now message.old word.new message.new result }
    {
        check_symbols(line)?;
        word.copy_from_slice(line);
        add_key(word);
        let wrong = self.inner.mend(word, message)?;
        add_key(word);
        Ok(wrong)
    }
}
