// Texts with every kind of fault and with every control type, and the exact bytes printed for each.
use crate::answer::printed;
use crate::running::run;
use code::bare::Bare;
use std::process::Abort;
use std::test::*;
use text::reading::words_of;

const NAMES: &str = "head body\n";

fn push_rows(text: &mut Vec<u8>, row: &[u8], count: usize) -> Result<(), Fail> {
    for _ in 0..count {
        text.extend_from_slice(row)?;
    }
    Ok(())
}

// The answer to some bytes behind so many right rows, with so many right rows behind them.
fn answers(
    rt: &(impl AllocGlobal + Abort),
    names: &str,
    before: usize,
    bytes: &[u8],
    after: usize,
    expected: &str,
) -> Result<(), Fail> {
    let row = b"d 0000000000000000\n";
    let mut text = Vec::new(rt.alloc());
    text.extend_from_slice(names.as_bytes())?;
    push_rows(&mut text, row, before)?;
    text.extend_from_slice(bytes)?;
    push_rows(&mut text, row, after)?;
    let said = printed(rt.alloc(), &run(Bare, text.as_slice()))?;
    assert!(rt; said.as_str() == expected, "{said}");
    Ok(())
}

fn names_refused(rt: &(impl AllocGlobal + Abort), names: &str, column: &str) -> Result<(), Fail> {
    let expected = format!(in rt.alloc(); "refusal row column\n61 0 {column}\n")?;
    answers(rt, names, 80, b"", 0, expected.as_str())
}

fn refused(
    rt: &(impl AllocGlobal + Abort),
    before: usize,
    bytes: &[u8],
    after: usize,
    values: &str,
) -> Result<(), Fail> {
    let expected = format!(in rt.alloc(); "refusal row column\n{values}\n")?;
    answers(rt, NAMES, before, bytes, after, expected.as_str())
}

#[test]
fn wrong_names(rt: HostRuntime) -> Result<(), Fail> {
    answers(&rt, "", 0, b"", 0, "refusal row column\n61 0 0\n")?;
    answers(&rt, "hea", 0, b"", 0, "refusal row column\n61 0 0\n")?;
    answers(&rt, "head body", 0, b"", 0, "refusal row column\n61 0 0\n")?;
    names_refused(&rt, "", "1")?;
    names_refused(&rt, "\n", "1")?;
    names_refused(&rt, "Head body\n", "1")?;
    names_refused(&rt, "he\0d body\n", "3")?;
    names_refused(&rt, "head\n", "5")?;
    names_refused(&rt, "head\tbody\n", "5")?;
    names_refused(&rt, "head  body\n", "6")?;
    names_refused(&rt, "head head\n", "6")?;
    names_refused(&rt, "head bodé\n", "9")?;
    names_refused(&rt, "head body\r\n", "10")?;
    names_refused(&rt, "head body \n", "10")
}

// Each faulty row in the first, a middle and the last place.
fn row_refused(
    rt: &(impl AllocGlobal + Abort),
    row: &[u8],
    number: u8,
    column: usize,
) -> Result<(), Fail> {
    for before in [0usize, 40, 79] {
        let due = before + 1;
        let values = format!(in rt.alloc(); "{number} {due} {column}")?;
        refused(rt, before, row, 79 - before, values.as_str())?;
    }
    Ok(())
}

#[test]
fn wrong_rows(rt: HostRuntime) -> Result<(), Fail> {
    row_refused(&rt, b"\n", 62, 1)?;
    row_refused(&rt, b"x 0000000000000000\n", 62, 1)?;
    row_refused(&rt, b"D 0000000000000000\n", 62, 1)?;
    row_refused(&rt, b"\x00 0000000000000000\n", 62, 1)?;
    row_refused(&rt, b"\xff 0000000000000000\n", 62, 1)?;
    row_refused(&rt, b"d\n", 62, 2)?;
    row_refused(&rt, b"d\t0000000000000000\n", 62, 2)?;
    row_refused(&rt, b"d  0000000000000000\n", 62, 3)?;
    row_refused(&rt, b"d 0\x00000000000000000\n", 62, 4)?;
    row_refused(&rt, b"d 00\x80000000000000000\n", 62, 5)?;
    row_refused(&rt, b"c 000000000000001E\n", 62, 18)?;
    row_refused(&rt, b"d 000000000000000g\n", 62, 18)?;
    row_refused(&rt, b"d 000000000000000\n", 62, 18)?;
    row_refused(&rt, b"d 00000000000000000\n", 62, 19)?;
    row_refused(&rt, b"d 0000000000000000\r\n", 62, 19)?;
    row_refused(&rt, b"c 0000000000000000 \n", 62, 19)?;
    row_refused(&rt, b"c 0000000000000000\n", 12, 17)?;
    row_refused(&rt, b"c ffffffffffffff1f\n", 12, 17)
}

#[test]
fn wrong_ends(rt: HostRuntime) -> Result<(), Fail> {
    refused(&rt, 0, b"", 0, "63 0 0")?;
    refused(&rt, 40, b"", 0, "63 40 0")?;
    refused(&rt, 79, b"", 0, "63 79 0")?;
    refused(&rt, 0, b"d", 0, "62 1 0")?;
    refused(&rt, 40, b"c 000000000000001", 0, "62 41 0")?;
    refused(&rt, 79, b"d 0000000000000000", 0, "62 80 0")?;
    refused(&rt, 79, b"c 0000000000000000", 0, "62 80 0")?;
    refused(&rt, 80, b"\n", 0, "63 80 0")?;
    refused(&rt, 80, b"\x00", 0, "63 80 0")?;
    refused(&rt, 80, b"", 1, "63 80 0")?;
    refused(&rt, 80, b"", 2000, "63 80 0")?;
    refused(&rt, 3, b"c 0000000000000000\n\n", 90, "12 4 17")?;
    refused(&rt, 3, b"\nc 0000000000000000\n", 90, "62 4 1")
}

// Kept here, though conformance has the same list: no test sees another crate's, and one taken from words would try words on itself.
const TYPES: [u8; 15] = [
    0x1E, 0x2D, 0x33, 0x4B, 0x55, 0x66, 0x78, 0x87, 0x99, 0xAA, 0xB4, 0xCC, 0xD2, 0xE1, 0xFF,
];

// A row for each control type behind 65 rows of data.
#[test]
fn every_type(rt: HostRuntime) -> Result<(), Fail> {
    let mut text = Vec::new(rt.alloc());
    text.extend_from_slice(NAMES.as_bytes())?;
    push_rows(&mut text, b"d 0123456789abcdef\n", 65)?;
    for t in TYPES {
        let row = format!(in rt.alloc(); "c fedcba98765432{t:02x}\n")?;
        text.extend_from_slice(row.as_bytes())?;
    }
    let words = words_of(text.as_slice())?;
    assert_eq!(rt; words[64].header(), 2);
    assert_eq!(rt; words[64].body(), 0x0123_4567_89ab_cdef);
    for (word, t) in words[65..].iter().zip(TYPES) {
        assert_eq!(rt; word.header(), 1);
        assert_eq!(rt; word.body(), 0xfedc_ba98_7654_3200 + t as u64);
    }
    Ok(())
}

// The bare code mends nothing: the damaged line reads as a block without a type, and the reading is dropped.
#[test]
fn dropped(rt: HostRuntime) -> Result<(), Fail> {
    answers(&rt, NAMES, 80, b"", 0, "accepted dropped mended\n0 1 0\n")
}
