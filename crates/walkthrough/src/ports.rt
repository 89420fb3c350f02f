// Ports over the codes and layers: written, spoilt, read and refused, with the totals after each step.
use crate::message::eighty;
use crate::outcome::print_refused;
use code::bare::Bare;
use code::correction_off::CorrectionOff;
use code::interface::Code;
use code::scrambled::Scrambled;
use port::state::Port;
use port::totals::Totals;
use reed_solomon::codec::ReedSolomon;
use words::word::Word;

fn print_totals<C: Code>(rt: &HostRuntime, port: &Port<C>) -> anyhow::Result<()> {
    let Totals {
        accepted,
        dropped,
        mended,
    } = port.totals();
    println!(rt; "  accepted {accepted}, dropped {dropped}, mended {mended}")?;
    Ok(())
}

// Flips one bit in each of the first symbols.
fn spoil(line: &mut [u16], symbols: usize) {
    for symbol in line.iter_mut().take(symbols) {
        *symbol ^= 0x100;
    }
}

// Writes eighty words, spoils some symbols of the line, reads it, and says how that ended.
fn carry<C: Code>(
    rt: &HostRuntime,
    port: &mut Port<C>,
    line: &mut [u16],
    wrong: usize,
) -> anyhow::Result<()> {
    let sent = eighty()?;
    port.write(&sent, line)?;
    spoil(line, wrong);
    println!(rt; "Eighty words written, {wrong} symbols spoilt, and the line read:")?;
    let mut words = [Word::Data(0); 80];
    match port.read(line, &mut words) {
        Ok(()) => {
            let same = words == sent;
            println!(rt; "  read, and the words are the same: {same}")?;
        }
        Err(refusal) => print_refused(rt, refusal)?,
    }
    print_totals(rt, port)
}

fn walk<C: Code + Drop>(
    rt: &HostRuntime,
    name: &str,
    code: C,
    line: &mut [u16],
) -> anyhow::Result<()> {
    let (n, t) = (code.n(), code.t());
    println!(rt; "A port over {name}, n {n}, t {t}, opened on zeros:")?;
    let mut port = Port::new(code);
    print_totals(rt, &port)?;
    for wrong in [0usize, 7, 8] {
        carry(rt, &mut port, line, wrong)?;
    }
    Ok(())
}

// A number that is no symbol changes nothing at all.
fn show_no_symbol(rt: &HostRuntime) -> anyhow::Result<()> {
    let mut port = Port::new(Scrambled { inner: Bare });
    let mut words = eighty()?;
    let mut line = [0u16; 514];
    port.write(&words, &mut line)?;
    line[5] = 2000;
    println!(rt; "Symbol 5 of a line set to 2000, and the line read:")?;
    match port.read(&mut line, &mut words) {
        Ok(()) => println!(rt; "  read")?,
        Err(refusal) => print_refused(rt, refusal)?,
    }
    print_totals(rt, &port)
}

pub fn show(rt: &HostRuntime) -> anyhow::Result<()> {
    let mut line = [0u16; 528];
    walk(rt, "RS(528,514)", ReedSolomon, &mut line)?;
    walk(
        rt,
        "scrambling over RS(528,514)",
        Scrambled { inner: ReedSolomon },
        &mut line,
    )?;
    walk(
        rt,
        "correction off over RS(528,514)",
        CorrectionOff { inner: ReedSolomon },
        &mut line,
    )?;
    let scrambled_off = Scrambled {
        inner: CorrectionOff { inner: ReedSolomon },
    };
    walk(
        rt,
        "scrambling over correction off over RS(528,514)",
        scrambled_off,
        &mut line,
    )?;
    let off_scrambled = CorrectionOff {
        inner: Scrambled { inner: ReedSolomon },
    };
    walk(
        rt,
        "correction off over scrambling over RS(528,514)",
        off_scrambled,
        &mut line,
    )?;
    let mut short = [0u16; 514];
    walk(rt, "the bare code", Bare, &mut short)?;
    show_no_symbol(rt)?;
    println!(rt)?;
    Ok(())
}
