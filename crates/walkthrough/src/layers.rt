// A message through a pile of layers over the bare code.
use code::bare::Bare;
use code::correction_off::CorrectionOff;
use code::interface::Code;
use code::scrambled::Scrambled;

pub fn show(rt: &HostRuntime) -> anyhow::Result<()> {
    let pile = Scrambled {
        inner: CorrectionOff { inner: Bare },
    };
    let (n, t) = (pile.n(), pile.t());
    println!(rt; "Scrambling over correction off over the bare code: n is {n}, t is {t}")?;
    let message = [0u16; 514];
    let mut line = [0u16; 514];
    pile.form(&message, &mut line)?;
    let (a, b, c, d) = (line[0], line[3], line[4], line[5]);
    println!(rt; "The line of message 0 begins {a} .. {b} {c} {d}")?;
    let mut found = [1u16; 514];
    let wrong = pile.mend(&mut line, &mut found)?;
    let back = found == message;
    println!(rt; "Mended with {wrong} wrong symbols, the message is the same: {back}")?;
    println!(rt)?;
    Ok(())
}
