// Piles of layers over the bare code, tried on examples.
use code::bare::Bare;
use code::correction_off::CorrectionOff;
use code::distance::distance;
use code::interface::Code;
use code::receive::receive;
use code::refusal::CodeRefusal;
use code::scrambled::Scrambled;
use code::sequence::scramble;
use numbered_refusal::Refusal;
use std::process::Abort;
use std::test::Fail;

const FIRST_KEYS: [u16; 7] = [1023, 1023, 1023, 1023, 682, 170, 0];

// Writes a message of fives, whose line begins so, and mends the line.
fn writes<C: Code>(rt: &impl Abort, code: &C, first: &[u16]) {
    let message = [5u16; 514];
    let mut line = [9u16; 514];
    let mut back = [7u16; 514];
    assert_eq!(rt; code.form(&message, &mut line), Ok(()));
    assert!(rt; line.starts_with(first));
    assert_eq!(rt; receive(code, &mut line, &mut back), Ok(0));
    assert!(rt; line.starts_with(first));
    assert_eq!(rt; distance(&back, &message), Some(0));
}

// Refuses lists that are too short, and the first of two numbers that are no symbols.
fn refuses<C: Code>(rt: &impl Abort, code: &C) {
    let mut short = [0u16; 513];
    let mut other = [0u16; 514];
    let mut line = [5u16; 514];
    line[500] = 2000;
    line[513] = 1024;
    assert_eq!(rt; code.form(&line, &mut short), Err(CodeRefusal::Length));
    assert_eq!(rt; code.mend(&mut short, &mut other), Err(CodeRefusal::Length));
    assert_eq!(rt;
        code.form(&line, &mut other),
        Err(CodeRefusal::Symbol { place: 500 })
    );
    assert_eq!(rt;
        code.mend(&mut line, &mut other),
        Err(CodeRefusal::Symbol { place: 500 })
    );
    assert_eq!(rt; distance(&other, &[0u16; 514]), Some(0));
}

#[test]
fn piles(rt: HostRuntime) {
    let keyed = [1018, 1018, 1018, 1018, 687, 175, 5];
    let over_off = Scrambled {
        inner: CorrectionOff { inner: Bare },
    };
    let over_scrambled = CorrectionOff {
        inner: Scrambled { inner: Bare },
    };
    writes(&rt, &Bare, &[5; 7]);
    writes(&rt, &over_off, &keyed);
    writes(&rt, &over_scrambled, &keyed);
    refuses(&rt, &Bare);
    refuses(&rt, &over_off);
    refuses(&rt, &over_scrambled);
}

#[test]
fn keys(rt: HostRuntime) {
    let mut line = [0u16; 544];
    assert_eq!(rt; scramble(&mut line), Ok(()));
    assert!(rt; line.starts_with(&FIRST_KEYS));
    assert_eq!(rt; scramble(&mut [0u16; 545]), Err(CodeRefusal::Length));
}

// The refusal's number and place, in the layer of codes.
fn says(rt: &impl Abort, refusal: CodeRefusal, number: u8, place: usize) {
    assert_eq!(rt; refusal.number(), number);
    assert_eq!(rt; refusal.place(), place);
    assert_eq!(rt; refusal.layer(), 3);
}

#[test]
fn refusals(rt: HostRuntime) -> Result<(), Fail> {
    says(&rt, CodeRefusal::Length, 31, 0);
    says(&rt, CodeRefusal::Symbol { place: 12 }, 32, 12);
    says(&rt, CodeRefusal::NoCodeWord, 33, 0);
    let text = format!(in rt.alloc(); "{}", CodeRefusal::Symbol { place: 12 })?;
    assert!(rt; text.as_str() == "32: a number above 1,023, at symbol 12");
    Ok(())
}
