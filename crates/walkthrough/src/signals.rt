// Two training signals in a recording with noise before and between them: found, read and surveyed.
use crate::outcome::print_refused;
use recording::counts::Survey;
use recording::finding::find;
use recording::surveying::survey;
use signal::reading::read;
use signal::writing::write;
use training::records::{Control, Status};

// Finds the next signal from a place on, reads it, and says what was seen.
fn show_next(rt: &HostRuntime, recording: &[u8], from: usize) -> anyhow::Result<usize> {
    let place = find(recording, from)?;
    println!(rt; "From TUI {from} on, the first marker stands at {place}")?;
    match read(recording, place) {
        Ok(training) => {
            let (mark, c0, seed) = (
                training.control.mark,
                training.control.updates.c0,
                training.seed,
            );
            println!(rt; "  read: mark {mark:?}, update of C0 {c0:?}, seed {seed}")?;
        }
        Err(refusal) => print_refused(rt, refusal)?,
    }
    Ok(place)
}

// Puts two signals into the noise, at bytes 20 and 600.
fn fill(recording: &mut [u8; 1200]) -> anyhow::Result<()> {
    let status = Status::new(false, true, true, false, 0, 1, 0)?;
    let first = Control::new(3, false, false, true, false, 0, 1, 0)?;
    let second = Control::new(0, false, false, false, false, 0, 2, 0)?;
    write(first, status, 1, &mut recording[20..568])?;
    write(second, status, 2047, &mut recording[600..1148])?;
    Ok(())
}

fn tour(rt: &HostRuntime, recording: &[u8]) -> anyhow::Result<()> {
    let first = show_next(rt, recording, 0)?;
    let second = show_next(rt, recording, first.saturating_add(1))?;
    match find(recording, second.saturating_add(1)) {
        Ok(place) => println!(rt; "One more marker at {place}")?,
        Err(refusal) => println!(rt; "After that: {refusal}")?,
    }
    Ok(())
}

fn count(rt: &HostRuntime, recording: &[u8]) -> anyhow::Result<()> {
    let Survey { good, bad } = survey(recording)?;
    println!(rt; "The survey counts {good} good and {bad} bad")?;
    Ok(())
}

pub fn show(rt: &HostRuntime) -> anyhow::Result<()> {
    println!(rt; "A recording of 1,200 bytes with two training signals, at bytes 20 and 600:")?;
    let mut recording = [0x5au8; 1200];
    fill(&mut recording)?;
    tour(rt, &recording)?;
    count(rt, &recording)?;
    recording[1147] ^= 0x80;
    println!(rt; "The last TUI of the second signal is turned over:")?;
    count(rt, &recording)
}
