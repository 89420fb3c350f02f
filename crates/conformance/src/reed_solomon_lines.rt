// Lines of an independent program with its parities and verdicts, lines between two code words, and the refusals.
use crate::reed_solomon_words::{PARITIES, VERDICTS};
use code::interface::Code;
use code::refusal::CodeRefusal;
use reed_solomon::codec::{LINE_LENGTH, ReedSolomon, generator};
use std::array;
use std::process::Abort;
use std::test::Fail;
use symbols::MESSAGE_LENGTH;

// How many errors the verdicts are of.
const SPOILS: [usize; 6] = [1, 4, 7, 8, 9, 12];

// The congruence by which tools/reed_solomon.py makes its numbers.
#[derive(Drop)]
struct Congruence {
    state: u32,
}

impl Congruence {
    fn turn(&mut self) -> u32 {
        self.state = self.state.wrapping_mul(1664525).wrapping_add(1013904223);
        self.state
    }

    // The next symbol: the top ten bits of the next state.
    fn symbol(&mut self) -> u16 {
        (self.turn() >> 22) as u16
    }
}

fn made(seed: u32) -> [u16; 514] {
    let mut numbers = Congruence { state: seed };
    array::from_fn(|_| numbers.symbol())
}

fn spoil(line: &mut [u16; 528], seed: u32, errors: usize) {
    let mut numbers = Congruence { state: seed };
    for _ in 0..errors {
        let place = (numbers.turn() >> 16) as usize % LINE_LENGTH;
        line[place] ^= numbers.symbol();
    }
}

// Spoils the seed's line, mends it, and compares the answer with the verdict: how many symbols are wrong, or no code word.
fn judged(rt: &impl Abort, seed: u32, errors: usize, verdict: Option<usize>) -> Result<(), Fail> {
    let message = made(seed);
    let mut line = [0; 528];
    ReedSolomon.form(&message, &mut line)?;
    let sent = line;
    spoil(&mut line, seed, errors);
    let arrived = line;
    let mut read = [0; 514];
    let answer = ReedSolomon.mend(&mut line, &mut read);
    assert_eq!(rt; answer, verdict.ok_or(CodeRefusal::NoCodeWord));
    match verdict {
        Some(_) => assert!(rt; line == sent && read == message),
        None => assert!(rt;
            line == arrived && read == [0; 514],
            "a refusal changes nothing"
        ),
    }
    Ok(())
}

#[test]
fn random_messages(rt: HostRuntime) -> Result<(), Fail> {
    for (seed, parity) in (1..).zip(&PARITIES) {
        let message = made(seed);
        let mut line = [0; 528];
        ReedSolomon.form(&message, &mut line)?;
        assert!(rt; line[..MESSAGE_LENGTH] == message[..]);
        assert!(rt; line[MESSAGE_LENGTH..] == parity[..]);
    }
    Ok(())
}

#[test]
fn random_errors(rt: HostRuntime) -> Result<(), Fail> {
    for (seed, verdicts) in (1..).zip(&VERDICTS) {
        for (errors, verdict) in SPOILS.iter().zip(verdicts) {
            judged(&rt, seed, *errors, *verdict)?;
        }
    }
    Ok(())
}

#[test]
fn message_zero(rt: HostRuntime) -> Result<(), Fail> {
    let mut line = [1023; 528];
    ReedSolomon.form(&[0; 514], &mut line)?;
    assert!(rt; line == [0; 528]);
    Ok(())
}

// The last `count` coefficients of the generator at the end of a line.
fn end_of_generator(count: usize) -> [u16; 528] {
    let mut line = [0; 528];
    let coefficients = generator();
    for (symbol, c) in line.iter_mut().rev().zip(coefficients.iter().take(count)) {
        *symbol = *c;
    }
    line
}

// The generator is a code word of 15 symbols that are not 0: with 7 of them gone, the line lies 7 from it and 8 from zero.
#[test]
fn between_two_words(rt: HostRuntime) {
    let word = end_of_generator(15);
    let mut line = end_of_generator(8);
    let mut read = [1; 514];
    assert_eq!(rt; ReedSolomon.mend(&mut line, &mut read), Ok(7));
    assert!(rt; line == word);
    assert_eq!(rt; read[513], 1);
    line[513] ^= 1;
    line[514] = 0;
    line[527] = 0;
    line[0] = 1023;
    assert_eq!(rt;
        ReedSolomon.mend(&mut line, &mut read),
        Ok(4),
        "the ends of the message and of the line"
    );
    assert!(rt; line == word);
}

#[test]
fn refusals(rt: HostRuntime) {
    let mut line = [7; 528];
    let mut short = [7; 527];
    let mut message = [0; 514];
    assert_eq!(rt;
        ReedSolomon.form(&message[1..], &mut line),
        Err(CodeRefusal::Length)
    );
    assert_eq!(rt;
        ReedSolomon.mend(&mut short, &mut message),
        Err(CodeRefusal::Length)
    );
    message[400] = 1024;
    message[513] = 2000;
    assert_eq!(rt;
        ReedSolomon.form(&message, &mut line),
        Err(CodeRefusal::Symbol { place: 400 })
    );
    line[527] = 1024;
    assert_eq!(rt;
        ReedSolomon.mend(&mut line, &mut message),
        Err(CodeRefusal::Symbol { place: 527 })
    );
    assert_eq!(rt; ReedSolomon.n(), LINE_LENGTH);
    assert_eq!(rt; ReedSolomon.t(), 7);
}
