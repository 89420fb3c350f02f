// The block of four words.
ghost use Rattle.std.specs.Prelude.{◌≡◌, ◌^◌, ◌<◌, [], ◌∷◌};
ghost use Rattle.words.specs.Types.{LowNibbleTellsType};
ghost use Rattle.words.specs.Raw.{mark as mark_of, AllValid};
ghost use Rattle.words.specs.Words.{raw, raws};
ghost use Rattle.blocks.specs.Blocks.{BlockOf};
ghost use Rattle.blocks.specs.Numbers.{marks as marks_of, kept as kept_of, block as block_number};
ghost use Rattle.blocks.specs.Packed.{packed};
ghost use Rattle.blocks.specs.Widths.{weight};

use crate::block::{Block, LIMB};
use words::word::Word;

fn mark(word: Word) -> u128
    ensures { result ≡ mark_of (raw word) }
{
    match word {
        Word::Data(_) => 1,
        Word::Control(_) => 0,
    }
}

fn marks(words: &[Word; 4]) -> u128
    ensures value { result ≡ marks_of (raws words.now) }
    ensures bound { result < 16 }
{
    let [a, b, c, d] = *words;
    mark(a) + 2 * (mark(b) + 2 * (mark(c) + 2 * mark(d)))
}

// A body without the high nibble of its type has 60 bits.
fn kept(body: u64) -> u64
    ensures value { result ≡ kept_of body }
    ensures bound { result < 2 ^ 60 }
{
    body % 16 + body / 256 * 16
}

// What is written of a block: the bits that wait above the limbs that are full, and whether a nibble is still to be cut
// out of a body.
#[derive(Drop)]
struct Writer {
    acc: u128,
    cutting: bool,
    ghost fits: { acc < weight cutting },
}

impl Writer {
    ghost use Rattle.blocks.specs.Filling.{Placed, Put, Opened};

    // Bit 0 and the marks wait, or bit 0 alone.
    fn new(words: &[Word; 4]) -> Writer
        ensures { Opened (raws words.now) result }
    {
        let marked = marks(words);
        if marked == 15 {
            Writer {
                acc: 1,
                cutting: false,
            }
        } else {
            Writer {
                acc: 2 * marked,
                cutting: true,
            }
        }
    }

    // What the word adds above the bits that wait.
    // A cut body has 60 bits, and 5 + 60 is 64 + 1: so both ways a word moves on by one limb.
    fn placed(&self, word: Word) -> u128
        ensures { Placed (raw word) self.now.cutting result }
    {
        match (word, self.cutting) {
            (Word::Data(body), true) => body as u128 * 32,
            (Word::Data(body), false) => body as u128 * 2,
            (Word::Control(control), true) => kept(control.body) as u128 * 32,
            (Word::Control(control), false) => control.body as u128 * 2,
        }
    }

    // The next limb: it is full once the word is placed.
    fn put(&mut self, word: Word) -> u64
        ensures { Put (raw word) self.old result self.new }
    {
        let bits = self.acc + self.placed(word);
        self.cutting = self.cutting && matches!(word, Word::Data(_));
        self.acc = bits / LIMB;
        (bits % LIMB) as u64
    }
}

fn filled(words: &[Word; 4]) -> Block
    ensures value { packed 64 result.limbs ≡ block_number (raws words.now) }
    ensures valid { AllValid (raws words.now) }
{
    let mut writer = Writer::new(words);
    let [a, b, c, d] = *words;
    let limbs = [
        writer.put(a),
        writer.put(b),
        writer.put(c),
        writer.put(d),
        writer.acc as u64,
    ];
    Block { limbs }
}

impl Block {
    // The block of four words.
    pub fn of(words: &[Word; 4]) -> Block
        ensures rules { BlockOf (raws words.now) (packed 64 result.limbs) }
        ensures value { packed 64 result.limbs ≡ block_number (raws words.now) }
        ensures valid { AllValid (raws words.now) }
        ensures lossless { LowNibbleTellsType }
    {
        filled(words)
    }
}
