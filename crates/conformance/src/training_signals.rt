// Worked bits, round trips, every refusal with its place, and a survey of signals in noise.
use numbered_refusal::Refusal;
use recording::finding::find;
use recording::surveying::survey;
use signal::line::tui_at;
use signal::reading::{SIGNAL_TUI, read};
use signal::writing::write;
use std::cmp::Ordering;
use std::test::Fail;
use training::records::{Control, Status, Training};
use training::refusals::TrainingRefusal;

// The number and the place of the refusal, if there is one: these two are what is promised to other programs.
fn refused<T: Drop>(answer: Result<T, TrainingRefusal>) -> Option<(u8, usize)> {
    answer
        .err()
        .map(|refusal| (refusal.number(), refusal.place()))
}

fn control(mark: u8) -> Result<Control, TrainingRefusal> {
    Control::new(mark, true, false, true, false, 0, 1, 2)
}

fn status() -> Result<Status, TrainingRefusal> {
    Status::new(true, false, false, true, 1, 2, 3)
}

// The TUI from a place on equal those of a text of ones and zeros.
fn shows(line: &[u8], from: usize, text: &str) -> bool {
    (from..SIGNAL_TUI)
        .zip(text.bytes())
        .all(|(at, digit)| tui_at(line, at) == u8::from(digit == b'1'))
}

#[test]
fn worked_bits(rt: HostRuntime) -> Result<(), Fail> {
    let mut line = [0xa5u8; 548];
    write(control(3)?, status()?, 1, &mut line)?;
    assert!(rt; shows(&line, 0, "11111111111111110000000000000000"));
    assert!(rt; shows(&line, 32, "1111000011110000"));
    assert!(rt; shows(&line, 288, "100000000001"));
    assert!(rt; shows(&line, 4382, "00"));
    write(control(0)?, status()?, 1, &mut line)?;
    assert!(rt; shows(&line, 32, "1111111100000000"));
    Ok(())
}

fn reads_back(control: Control, status: Status, seed: u16) -> Result<bool, TrainingRefusal> {
    let mut line = [0u8; 548];
    write(control, status, seed, &mut line)?;
    Ok(
        read(&line, 0)?
            == Training {
                control,
                status,
                seed,
            },
    )
}

#[test]
fn every_part_reads_back(rt: HostRuntime) -> Result<(), Fail> {
    for bits in 0..16u8 {
        for part in 0..3u8 {
            let [a, b, c, d] = [1u8, 2, 4, 8].map(|place| bits & place != 0);
            let control = Control::new(
                3 * (bits % 2),
                a,
                b,
                c,
                d,
                part,
                (part + 1) % 3,
                (part + 2) % 3,
            )?;
            let status = Status::new(d, c, b, a, part, part + 1, 3 - part)?;
            assert!(rt;
                reads_back(
                    control,
                    status,
                    2047 - u16::from(bits) * 100 - u16::from(part),
                )?
            );
        }
    }
    assert!(rt; reads_back(control(3)?, status()?, 1)?);
    Ok(())
}

#[test]
fn making_and_writing_refuse(rt: HostRuntime) -> Result<(), Fail> {
    for mark in [1u8, 2, 4, 255] {
        assert_eq!(rt; refused(control(mark)), Some((51, 0)));
    }
    assert_eq!(rt;
        refused(Control::new(0, false, false, false, false, 0, 0, 3)),
        Some((51, 0))
    );
    assert_eq!(rt;
        refused(Status::new(false, false, false, false, 0, 4, 0)),
        Some((51, 0))
    );
    let mut short = [7u8; 547];
    assert_eq!(rt;
        refused(write(control(3)?, status()?, 0, &mut short)),
        Some((52, 0))
    );
    assert_eq!(rt;
        refused(write(control(3)?, status()?, 2048, &mut short)),
        Some((52, 0))
    );
    assert_eq!(rt;
        refused(write(control(3)?, status()?, 2047, &mut short)),
        Some((53, 0))
    );
    assert!(rt; short == [7u8; 547]);
    Ok(())
}

// Writes a signal into the recording, from a byte on.
fn put_signal(
    recording: &mut [u8],
    from: usize,
    mark: u8,
    seed: u16,
) -> Result<(), TrainingRefusal> {
    let rest = recording.get_mut(from..).ok_or(TrainingRefusal::Length)?;
    let place = rest.get_mut(..548).ok_or(TrainingRefusal::Length)?;
    write(control(mark)?, status()?, seed, place)
}

// What reading refuses once one byte of the signal was changed by `flip`; the signal begins at byte 100.
fn spoilt(byte: usize, flip: u8) -> Result<Option<(u8, usize)>, TrainingRefusal> {
    let mut recording = [0x55u8; 648];
    put_signal(&mut recording, 100, 3, 77)?;
    if byte < 548 {
        recording[100 + byte] ^= flip;
    }
    Ok(refused(read(&recording, 800)))
}

#[test]
fn reading_refuses(rt: HostRuntime) -> Result<(), Fail> {
    assert_eq!(rt; refused(read(&[0u8; 65537], 0)), Some((53, 0)));
    assert_eq!(rt;
        refused(read(&[0u8; 648], usize::MAX)),
        Some((54, usize::MAX))
    );
    assert_eq!(rt; spoilt(548, 0)?, None);
    // the marker's ends, a half of the first and of the last cell, the seed, the pattern, the end zeros
    for (byte, flip, number) in [
        (0, 1, 55),
        (3, 128, 55),
        (4, 1, 56),
        (35, 128, 56),
        (36, 1, 58),
        (547, 32, 58),
        (547, 64, 58),
        (547, 128, 58),
    ] {
        assert_eq!(rt; spoilt(byte, flip)?, Some((number, 800)));
    }
    Ok(())
}

// Turns the second half of cell k, and all cells after it; the signal begins at byte 50, and its cells are bytes 54 to 85.
fn turn_from(recording: &mut [u8], k: usize) -> Result<(), TrainingRefusal> {
    let cells = recording.get_mut(54..86).ok_or(TrainingRefusal::Length)?;
    for (cell, byte) in cells.iter_mut().enumerate() {
        *byte ^= match cell.cmp(&k) {
            Ordering::Less => 0,
            Ordering::Equal => 0xf0,
            Ordering::Greater => 0xff,
        };
    }
    Ok(())
}

// What reading refuses once the bit that cell k carries is the other one.
fn carrying_other(k: usize) -> Result<Option<(u8, usize)>, TrainingRefusal> {
    let mut recording = [0u8; 600];
    put_signal(&mut recording, 50, 3, 9)?;
    turn_from(&mut recording, k)?;
    Ok(refused(read(&recording, 400)))
}

#[test]
fn reserved_values_and_bits(rt: HostRuntime) -> Result<(), Fail> {
    // the mark, preset, bits 9 and 6, an update that becomes 3, fixed, bits 11 and 6 of the status
    for (k, number) in [
        (1, Some(57)),
        (2, None),
        (6, Some(57)),
        (9, Some(57)),
        (15, Some(57)),
        (19, None),
        (20, Some(57)),
        (25, Some(57)),
    ] {
        assert_eq!(rt; carrying_other(k)?.map(|(number, _)| number), number);
    }
    Ok(())
}

#[test]
fn finding(rt: HostRuntime) -> Result<(), Fail> {
    assert_eq!(rt; refused(find(&[0u8; 65537], 3)), Some((53, 0)));
    assert_eq!(rt;
        refused(find(&[0xffu8; 40], usize::MAX)),
        Some((59, usize::MAX))
    );
    let turned = [0x80u8, 0xff, 0x7f, 0, 0x80, 0xff, 0x7f, 0, 0x80];
    assert_eq!(rt; find(&turned, 0)?, 7);
    assert_eq!(rt; find(&turned, 8)?, 39);
    assert_eq!(rt; refused(find(&turned, 40)), Some((59, 40)));
    Ok(())
}

#[test]
fn surveying(rt: HostRuntime) -> Result<(), Fail> {
    assert_eq!(rt; refused(survey(&[0u8; 65537])), Some((53, 0)));
    let mut recording = [0x5au8; 1800];
    put_signal(&mut recording, 10, 3, 77)?;
    put_signal(&mut recording, 600, 0, 2047)?;
    put_signal(&mut recording, 1200, 3, 1)?;
    recording[1500] ^= 2;
    let survey = survey(&recording)?;
    assert_eq!(rt; (survey.good, survey.bad), (2, 1));
    Ok(())
}
