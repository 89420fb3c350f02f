// Reading words from a line.
ghost use Rattle.std.specs.Prelude.{◌≡◌, length};
ghost use Rattle.symbols.specs.Symbols.{Symbols};
ghost use Rattle.port.specs.Calls.{Reads};
ghost use Rattle.port.specs.Checks.{Checked, Searched};
ghost use Rattle.port.specs.Runs.{Extends, read as read_event};

use crate::opening::LIMIT;
use crate::refusal::PortRefusal;
use crate::state::Port;
use crate::writing::WORDS;
use code::interface::{Code, LONGEST_LINE, check_symbols};
use messages::reading::from_message;
use symbols::MESSAGE_LENGTH;
use words::word::Word;

impl<C: Code> Port<C> {
    // The checks of a reading that change nothing at all.
    fn check(&self, line: &[u16]) -> Result<(), PortRefusal>
        ensures { Checked (C.Code.model self.now.code) self.now.totals line.now result }
    {
        if line.len() != self.code.n() {
            return Err(PortRefusal::Length);
        }
        check_symbols(line)?;
        let spare = LIMIT - self.code.t() as u64;
        if self.totals.accepted + self.totals.dropped == LIMIT || self.totals.mended > spare {
            return Err(PortRefusal::Full);
        }
        Ok(())
    }

    // Turns the line into the code word near it, fills the words that it codes, and answers the distance between the two.
    fn search(&self, line: &mut [u16], words: &mut [Word; WORDS]) -> Result<usize, PortRefusal>
        requires long { length line.old ≡ (C.Code.model self.now.code).n }
        requires small { Symbols line.old }
        ensures { Searched (C.Code.model self.now.code) line.old words.old line.new words.new result }
    {
        let mut message = [0u16; MESSAGE_LENGTH];
        let distance = self.code.mend(line, &mut message)?;
        *words = from_message(&message)?;
        Ok(distance)
    }

    // The code word is found in a copy of the line, so that a refusal leaves the line as it was.
    fn take(&mut self, line: &mut [u16], words: &mut [Word]) -> Result<(), PortRefusal>
        ensures code { self.new.code ≡ self.old.code }
        ensures does { Reads (C.Code.model self.old.code) self.old.totals line.old words.old line.new words.new self.new.totals result }
    {
        let words = words.as_mut_array::<WORDS>().ok_or(PortRefusal::Length)?;
        self.check(line)?;
        // No memory is asked for: the copy is the front of a room for any line.
        let mut room = [0u16; LONGEST_LINE];
        let word = &mut room[0..line.len()];
        word.copy_from_slice(line);
        match self.search(word, words) {
            Ok(mended) => {
                line.copy_from_slice(word);
                self.totals.accepted += 1;
                self.totals.mended += mended as u64;
                Ok(())
            }
            Err(refusal) => {
                self.totals.dropped += 1;
                Err(refusal)
            }
        }
    }

    // Mends the line to its code word and fills the eighty words that it codes.
    pub fn read(&mut self, line: &mut [u16], words: &mut [Word]) -> Result<(), PortRefusal>
        ensures code { self.new.code ≡ self.old.code }
        ensures does { Reads (C.Code.model self.old.code) self.old.totals line.old words.old line.new words.new self.new.totals result }
        ensures extends { Extends (C.Code.model self.old.code) self.old.totals self.new.totals (read_event line.old words.old line.new words.new result) }
    {
        self.take(line, words)
    }
}
