// The words of a block.
ghost use Rattle.std.specs.Prelude.{◌≡◌, ◌+◌, ◌*◌, ◌/◌, ◌%◌, ◌^◌, ◌<◌, MatchOption};
ghost use Rattle.blocks.specs.Packed.{packed};
ghost use Rattle.blocks.specs.Blocks.{BlockRead, ReadsBack};
ghost use Rattle.blocks.specs.Numbers.{restored as restored_body};
ghost use Rattle.blocks.specs.Reading.{told, read_block};
ghost use Rattle.blocks.specs.Widths.{room};

use crate::block::{Block, LIMB};
use crate::refusal::BlockRefusal;
use words::control::ControlBody;
use words::word::{Word, high_nibble, is_listed};

// A body without its cut nibble has 60 bits.
const KEPT: u128 = 0x1000_0000_0000_0000;

// The body of which these 60 bits were kept; none where the kept nibble is 0.
fn restored(kept: u64) -> Option<ControlBody>
    requires { kept < 2 ^ 60 }
    ensures { MatchOption result (kept % 16 ≡ 0) (λ b. (b.body ≡ restored_body kept) × (0 < kept % 16)) }
{
    let low = kept % 16;
    if low == 0 {
        return None;
    }
    let body = low + 16 * high_nibble(low as u8) as u64 + 256 * (kept / 16);
    Some(ControlBody { body })
}

// What is still to be read of a block: the bits that are left of the limbs so far, the marks of the words to come, and
// whether the first control word, whose body lacks a nibble, is one of these.
#[derive(Drop)]
struct Reader {
    acc: u128,
    marks: u64,
    cut: bool,
    ghost fits: { acc < room cut },
}

impl Reader {
    ghost use Rattle.blocks.specs.Taking.{Taken, Started};

    // Limb 0 has bit 0 below the bodies, or bit 0 and the marks.
    fn new(low: u64) -> Reader
        ensures { Started low result }
    {
        if low % 2 == 1 {
            return Reader {
                acc: (low / 2) as u128,
                marks: 15,
                cut: false,
            };
        }
        Reader {
            acc: (low / 32) as u128,
            marks: low / 2 % 16,
            cut: true,
        }
    }

    // The bits that are left, and the next limb above them.
    fn joined(&self, limb: u64) -> u128
        ensures value { result ≡ self.now.acc + room self.now.cut * limb }
        ensures bound { result < 2 ^ 64 * room self.now.cut }
    {
        if self.cut {
            self.acc + limb as u128 * 0x800_0000_0000_0000
        } else {
            self.acc + limb as u128 * 0x8000_0000_0000_0000
        }
    }

    // The next word, number j of its group: it ends in the next limb.
    fn take(&mut self, limb: u64, j: usize) -> Result<Word, BlockRefusal>
        ensures { Taken self.old limb j self.new result }
    {
        let bits = self.joined(limb);
        let marks = self.marks;
        self.marks /= 2;
        if marks % 2 == 1 {
            self.acc = bits / LIMB;
            return Ok(Word::Data((bits % LIMB) as u64));
        }
        if self.cut {
            let control = restored((bits % KEPT) as u64).ok_or(BlockRefusal::NoType { word: j })?;
            self.acc = bits / KEPT;
            self.cut = false;
            return Ok(Word::Control(control));
        }
        if !is_listed((bits % 256) as u8) {
            return Err(BlockRefusal::Unlisted { word: j });
        }
        self.acc = bits / LIMB;
        let body = (bits % LIMB) as u64;
        Ok(Word::Control(ControlBody { body }))
    }
}

fn words_of(block: &Block) -> Result<[Word; 4], BlockRefusal>
    ensures { told result ≡ read_block (packed 64 block.now.limbs) }
{
    let mut reader = Reader::new(block.limbs[0]);
    let mut words = [Word::Data(0); 4];
    // By place, which a refusal names: after a loop over `words.iter_mut().zip(..)` no proof knows what was written.
    for (j, limb) in block.limbs[1..].iter().enumerate() {
        words[j] = reader.take(*limb, j)?;
    }
    if reader.cut {
        return Err(BlockRefusal::NoControl);
    }
    Ok(words)
}

impl Block {
    // The four words whose block this is, or why there are none.
    pub fn words(&self) -> Result<[Word; 4], BlockRefusal>
        ensures rules { BlockRead (packed 64 self.now.limbs) result }
        ensures back { ReadsBack (packed 64 self.now.limbs) result }
        ensures value { told result ≡ read_block (packed 64 self.now.limbs) }
        ensures narrow { packed 64 self.now.limbs < 2 ^ 257 }
    {
        words_of(self)
    }
}
