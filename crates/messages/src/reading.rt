// The words of a message.
ghost use Rattle.std.specs.Prelude.{◌≡◌, ◌+◌, ◌≤◌, ◌++◌, length, take, IfOk};
ghost use Rattle.symbols.specs.Symbols.{Symbols};
ghost use Rattle.words.specs.Words.{raws};
ghost use Rattle.blocks.specs.Packed.{packed};
ghost use Rattle.messages.specs.Messages.{MessageRead, ReadsBack};
ghost use Rattle.messages.specs.Numbers.{message_of};
ghost use Rattle.messages.specs.Reading.{Told, read_message};

use crate::WORDS;
use crate::bits::Reader;
use crate::refusal::MessageRefusal;
use symbols::{MESSAGE_LENGTH, first_above};
use words::word::Word;

fn read(symbols: &[u16; MESSAGE_LENGTH]) -> Result<[Word; WORDS], MessageRefusal>
    requires { Symbols symbols.now }
    ensures { Told result (read_message 20 0 (packed 10 symbols.now)) }
{
    let mut words = [Word::Data(0); WORDS];
    let mut reader = Reader::new(symbols);
    // By the block's number, which a refusal names: Rattle makes no proof of a loop whose items are arrays of words.
    for b in 0..20 {
        let four = reader
            .pull_block()
            .words()
            .map_err(|refusal| MessageRefusal::Block { block: b, refusal })?;
        words[4 * b..4 * b + 4].copy_from_slice(&four);
    }
    Ok(words)
}

// The eighty words whose message this is, or why there are none: the first number that is no symbol, or else the
// first block that has no words.
pub fn from_message(message: &[u16; MESSAGE_LENGTH]) -> Result<[Word; WORDS], MessageRefusal>
    ensures rules { MessageRead message.now result }
    ensures back { ReadsBack message.now result }
    ensures again { IfOk result (λ ws. message_of (raws ws) ≡ message.now) }
{
    if let Some(place) = first_above(message) {
        return Err(MessageRefusal::Symbol { place });
    }
    read(message)
}
