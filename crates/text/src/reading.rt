// The eighty words of a text.
ghost use Rattle.std.specs.Prelude.{◌≡◌};
ghost use Rattle.text.specs.Text.{answer};
ghost use Rattle.text.specs.Laws.{Inverse, Early};
ghost use Rattle.text.specs.Reading.{seen};

use crate::parts::behind;
use crate::refusal::TextRefusal;
use crate::rows::{NAMES_LENGTH, ROW_LENGTH, names, word};
use words::word::Word;

// How many rows a text has.
pub const ROWS: usize = 80;

// How many bytes of a text an answer may depend on: one more than a right text has.
pub const ENOUGH: usize = 1531;

fn read(text: &[u8]) -> Result<[Word; ROWS], TextRefusal>
    ensures { seen result ≡ answer text.now }
{
    names(text)?;
    let mut words = [Word::Data(0); ROWS];
    let mut rest = behind(text, NAMES_LENGTH);
    for (row, place) in words.iter_mut().enumerate() {
        if rest.is_empty() {
            return Err(TextRefusal::Rows { row });
        }
        *place = word(rest, row + 1)?;
        rest = behind(rest, ROW_LENGTH);
    }
    if rest.is_empty() {
        Ok(words)
    } else {
        Err(TextRefusal::Rows { row: ROWS })
    }
}

// The eighty words that the text says, or its first fault from the top. The laws of the text stand here.
#[tactic(auto, using(crate::proofs::Inverses::inverse, crate::proofs::Firsts::early))]
pub fn words_of(text: &[u8]) -> Result<[Word; ROWS], TextRefusal>
    ensures is { seen result ≡ answer text.now }
    ensures inverse { Inverse }
    ensures early { Early }
{
    read(text)
}
