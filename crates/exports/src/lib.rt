// Calls for programs in C and Rust that link the core: comparisons with other codecs, and measurements.
// Each answers a refusal as 1,000 plus its number.
#![tactic(auto)]

ghost use Rattle.std.specs.Prelude.{◌≡◌};
ghost use Rattle.exports.specs.Answers.{number_of as answered_number, at_most_999, FormAnswer, MendAnswer, DataWords, WriteAnswer, BodiesOf, ReadAnswer};

use code::interface::Code;
use code::scrambled::Scrambled;
use numbered_refusal::Refusal;
use port::state::Port;
use port::writing::WORDS;
use reed_solomon::codec::ReedSolomon;
use std::array;
use words::word::Word;

// What a refusal is answered as, less its number.
const REFUSED: u32 = 1000;

// What a call answers C, which has no Result: the number that it gives, at most 999, or its refusal.
fn number_of<E: Refusal + Drop>(answer: Result<usize, E>) -> u32
    ensures { result ≡ answered_number at_most_999 E.Refusal.numbered answer }
{
    match answer {
        Ok(count) => count.min(999) as u32,
        Err(refusal) => REFUSED + u32::from(refusal.number()),
    }
}

// RS(528,514): leaves the code word of the message in the line; answers 0.
#[unsafe(no_mangle)]
pub extern "C" fn l32_form(message: &[u16], line: &mut [u16]) -> u32
    ensures { FormAnswer message.now line.old line.new result }
{
    number_of(ReedSolomon.form(message, line).map(|()| 0))
}

// RS(528,514): mends the line and gives its message; answers the distance.
#[unsafe(no_mangle)]
pub extern "C" fn l32_mend(line: &mut [u16], message: &mut [u16]) -> u32
    ensures { MendAnswer line.old message.old line.new message.new result }
{
    number_of(ReedSolomon.mend(line, message))
}

// The eighty data words of these bodies; bodies that are not there count as 0.
fn data_words(bodies: &[u64]) -> [Word; WORDS]
    ensures { DataWords bodies.now result }
{
    array::from_fn(|i| Word::Data(bodies.get(i).copied().unwrap_or(0)))
}

// Eighty data words of these bodies, through a port over scrambling over RS(528,514), to the line; answers 0.
#[unsafe(no_mangle)]
pub extern "C" fn l32_write(bodies: &[u64], line: &mut [u16]) -> u32
    ensures { WriteAnswer bodies.now line.old line.new result }
{
    let words = data_words(bodies);
    let port = Port::new(Scrambled::over(ReedSolomon));
    number_of(port.write(&words, line).map(|()| 0))
}

// Leaves the bodies of the first words, as many as there is room for.
fn put_bodies(words: &[Word; WORDS], bodies: &mut [u64])
    ensures { BodiesOf words.now bodies.new }
{
    let all = words.map(|word| word.body());
    let room = bodies.len().min(all.len());
    bodies[..room].copy_from_slice(&all[..room]);
}

// The bodies of the eighty words of the line, read by a port over scrambling over RS(528,514); answers the symbols mended.
#[unsafe(no_mangle)]
pub extern "C" fn l32_read(line: &mut [u16], bodies: &mut [u64]) -> u32
    ensures { ReadAnswer line.old bodies.old line.new bodies.new result }
{
    let mut words = [Word::Data(0); WORDS];
    let mut port = Port::new(Scrambled::over(ReedSolomon));
    let answer = port.read(line, &mut words);
    if answer.is_ok() {
        put_bodies(&words, bodies);
    }
    number_of(answer.map(|()| port.totals().mended as usize))
}
