// The code itself.
ghost use Rattle.std.specs.Prelude.{◌≡◌, OnOk};
ghost use Rattle.code.specs.Calls.{Formed};
ghost use Rattle.reed_solomon_algebra.specs.CodeWords.{WordOf, generator as generator_of};
ghost use Rattle.reed_solomon_algebra.specs.Division.{reed_solomon_code};
ghost use Rattle.std.proofs.Common.{lit≤};
ghost use Rattle.reed_solomon_algebra.proofs.Encodes;

use crate::forming::write_word;
use crate::reading::read_word;
use code::interface::{Code, check_symbols};
use code::refusal::CodeRefusal;
pub use reed_solomon_decoder::line::LINE_LENGTH;
use symbols::MESSAGE_LENGTH;

// Up to how many wrong symbols are mended.
pub const MENDED: usize = 7;

// The generator's coefficients, the constant term first.
pub fn generator() -> [u16; 15]
    ensures { result ≡ generator_of 14 }
{
    [
        432, 290, 945, 265, 592, 391, 614, 900, 925, 656, 32, 701, 6, 904, 1,
    ]
}

// RS(528,514): a line is the message and 14 parity symbols, and up to 7 wrong symbols of it are mended.
#[derive(Clone, Copy, PartialEq, Eq, Debug)]
pub struct ReedSolomon;

impl Code for ReedSolomon {
    ghost model = { λ _. reed_solomon_code 7 };

    ghost lawful = { λ c. Encodes.lawful 7 (lit≤ tt) };

    fn n(&self) -> usize {
        LINE_LENGTH
    }

    fn t(&self) -> usize {
        MENDED
    }

    // The line becomes the one code word that begins with the message.
    fn form(&self, message: &[u16], line: &mut [u16]) -> Result<(), CodeRefusal>
        ensures formed { Formed (reed_solomon_code 7) message.now line.old line.new result }
        ensures word { OnOk result (WordOf 7 message.now line.new) }
    {
        let message: &[u16; MESSAGE_LENGTH] = message.as_array().ok_or(CodeRefusal::Length)?;
        let line: &mut [u16; LINE_LENGTH] = line.as_mut_array().ok_or(CodeRefusal::Length)?;
        check_symbols(message)?;
        write_word(message, line);
        Ok(())
    }

    fn mend(&self, line: &mut [u16], message: &mut [u16]) -> Result<usize, CodeRefusal> {
        let message: &mut [u16; MESSAGE_LENGTH] = message
            .as_mut_array()
            .ok_or(CodeRefusal::Length)?;
        let line: &mut [u16; LINE_LENGTH] = line.as_mut_array().ok_or(CodeRefusal::Length)?;
        check_symbols(line)?;
        read_word(line, message).ok_or(CodeRefusal::NoCodeWord)
    }
}
