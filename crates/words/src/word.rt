// Words of 66 bits: a header and a body of 64 bits.
ghost use Rattle.std.specs.Prelude.{◌≡◌, ◌%◌};
ghost use Rattle.words.specs.Types.{listed, high};
ghost use Rattle.words.specs.Raw.{header as header_of, body as body_of};
ghost use Rattle.words.specs.Words.{raw, Made};

use crate::control::ControlBody;
use crate::refusal::WordRefusal;
use std::fmt;

// A valid word: header 2 and any body, or header 1 and a body with a listed type.
#[derive(Clone, Copy, PartialEq, Eq, Debug, Drop)]
pub enum Word {
    Data(u64),
    Control(ControlBody),
}

// Whether a control word may have this type.
pub fn is_listed(type_byte: u8) -> bool
    ensures { result ≡ listed type_byte }
{
    matches!(
        type_byte,
        0x1E | 0x2D
            | 0x33
            | 0x4B
            | 0x55
            | 0x66
            | 0x78
            | 0x87
            | 0x99
            | 0xAA
            | 0xB4
            | 0xCC
            | 0xD2
            | 0xE1
            | 0xFF
    )
}

const HIGHS: [u8; 16] = [0, 0xE, 0xD, 3, 0xB, 5, 6, 8, 7, 9, 0xA, 4, 0xC, 2, 1, 0xF];

// The high nibble of the type whose low nibble is that of `low`; 0 where no type has it.
// No Option: the function is public and may not begin to answer none. 0 stands for the one low nibble without a type.
pub fn high_nibble(low: u8) -> u8
    ensures { result ≡ high (low % 16) }
{
    HIGHS[(low % 16) as usize]
}

impl Word {
    // The word of a header number, bit 0 of the word plus twice bit 1, and a body.
    pub fn new(header: u8, body: u64) -> Result<Word, WordRefusal>
        ensures { Made header body result }
    {
        match (header, (body % 256) as u8) {
            (2, _) => Ok(Word::Data(body)),
            (1, listed) if is_listed(listed) => Ok(Word::Control(ControlBody { body })),
            (1, _) => Err(WordRefusal::Unlisted),
            _ => Err(WordRefusal::Header),
        }
    }

    // The header number: a number here as in `new`, where one comes from outside and may be no header.
    pub fn header(&self) -> u8
        ensures { result ≡ header_of (raw self.now) }
    {
        match *self {
            Word::Data(_) => 2,
            Word::Control(_) => 1,
        }
    }

    pub fn body(&self) -> u64
        ensures { result ≡ body_of (raw self.now) }
    {
        match *self {
            Word::Data(body) => body,
            Word::Control(control) => control.body,
        }
    }
}

// The kind and the body, the highest hexadecimal digit first.
impl fmt::Display for Word {
    fn fmt<W: fmt::Write>(&self, f: &mut fmt::Formatter<W>) -> fmt::Result {
        match *self {
            Word::Data(body) => write!(f, "data {body:016x}"),
            Word::Control(control) => {
                let body = control.body;
                write!(f, "control {body:016x}")
            }
        }
    }
}
