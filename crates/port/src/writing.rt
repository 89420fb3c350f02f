// Writing words to a line.
ghost use Rattle.port.specs.Calls.{Written};
ghost use Rattle.port.specs.Runs.{Extends, write as write_event};

use crate::refusal::PortRefusal;
use crate::state::Port;
use code::interface::Code;
use messages::writing::to_message;
use symbols::MESSAGE_LENGTH;
use words::word::Word;

// A line codes eighty words, as many as its message.
pub use messages::WORDS;

impl<C: Code> Port<C> {
    fn put(&self, words: &[Word], line: &mut [u16]) -> Result<(), PortRefusal>
        ensures { Written (C.Code.model self.now.code) words.now line.old line.new result }
    {
        let words = words.as_array::<WORDS>().ok_or(PortRefusal::Length)?;
        if line.len() != self.code.n() {
            return Err(PortRefusal::Length);
        }
        let mut message = [0u16; MESSAGE_LENGTH];
        to_message(words, &mut message);
        Ok(self.code.form(&message, line)?)
    }

    // Leaves the line of the eighty words in `line`. No total changes.
    pub fn write(&self, words: &[Word], line: &mut [u16]) -> Result<(), PortRefusal>
        ensures does { Written (C.Code.model self.now.code) words.now line.old line.new result }
        ensures extends { Extends (C.Code.model self.now.code) self.now.totals self.now.totals (write_event words.now line.old line.new result) }
    {
        self.put(words, line)
    }
}
