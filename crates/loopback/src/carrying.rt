// Eighty words written to a line, the line damaged, and the words read back.
ghost use Rattle.std.specs.Prelude.{◌≡◌, ◌≤◌, length};
ghost use Rattle.loopback.specs.Damage.{flipped};
ghost use Rattle.loopback.specs.Carried.{CarriedHome, NearLinesReadHome};

use code::interface::{Code, LONGEST_LINE};
use messages::WORDS;
use port::state::Port;
use port::totals::Totals;
use words::word::Word;

// How many symbols of the line are damaged, from the first one on.
pub const DAMAGED: usize = 7;

// The words that were read, and the totals of the port.
#[derive(Drop)]
pub struct Carried {
    pub words: [Word; WORDS],
    pub totals: Totals,
}

// Flips bit 0 of symbols 0 to 6.
fn flip(line: &mut [u16])
    requires { 7 ≤ length line.old }
    ensures { line.new ≡ flipped 7 line.old }
{
    for symbol in &mut line[..DAMAGED] {
        *symbol ^= 1;
    }
}

// Makes a port over the code, writes the words, flips bit 0 of the first seven symbols of the line, reads it, and answers the
// words and the totals. A code that mends seven symbols brings every list of words home.
pub fn carry<C: Code + Drop>(code: C, words: &[Word; WORDS]) -> Carried
    ensures carried { CarriedHome (C.Code.model code) words.now result.words result.totals }
    ensures home { NearLinesReadHome (C.Code.model code) }
{
    let n = code.n();
    let mut port = Port::new(code);
    // Only the code says how long its line is, and no memory is asked for: the line is the front of a room for any.
    let mut room = [0u16; LONGEST_LINE];
    let line = &mut room[..n];
    let _ = port.write(words, line);
    flip(line);
    let mut read = [Word::Data(0); WORDS];
    let _ = port.read(line, &mut read);
    Carried {
        words: read,
        totals: port.totals(),
    }
}
