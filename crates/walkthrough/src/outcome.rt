// How a call ended, in one line.
use std::fmt::Display;

pub(crate) fn print_refused<R: Display + Drop>(rt: &HostRuntime, refusal: R) -> anyhow::Result<()> {
    println!(rt; "  refused: {refusal}")?;
    Ok(())
}
