// The message of eighty words.
ghost use Rattle.std.specs.Prelude.{◌≡◌};
ghost use Rattle.symbols.specs.Symbols.{Symbols};
ghost use Rattle.words.specs.Raw.{AllValid};
ghost use Rattle.words.specs.Words.{raws};
ghost use Rattle.blocks.specs.Packed.{packed};
ghost use Rattle.messages.specs.Messages.{MessageOf};
ghost use Rattle.messages.specs.Numbers.{message as message_number, message_of};

use crate::WORDS;
use crate::bits::Writer;
use blocks::block::Block;
use symbols::MESSAGE_LENGTH;
use words::word::Word;

fn write(words: &[Word; WORDS], out: &mut [u16; MESSAGE_LENGTH])
    ensures value { packed 10 out.new ≡ message_number 20 (raws words.now) }
    ensures small { Symbols out.new }
    ensures valid { AllValid (raws words.now) }
{
    let mut writer = Writer::new(out);
    let mut rest: &[Word] = words;
    // Group by group: Rattle makes no proof of a loop whose items are arrays of words.
    while let Some((four, after)) = rest.split_first_chunk::<4>() {
        writer.push_block(&Block::of(four));
        rest = after;
    }
}

// Leaves the message of the eighty words in `message`.
pub fn to_message(words: &[Word; WORDS], message: &mut [u16; MESSAGE_LENGTH])
    ensures rules { MessageOf (raws words.now) message.new }
    ensures value { message.new ≡ message_of (raws words.now) }
    ensures valid { AllValid (raws words.now) }
{
    write(words, message);
}
