// Reads a text of eighty words, carries the words over scrambled RS(528,514) with seven symbols damaged, and prints the answer.
#![tactic(auto)]

ghost use Rattle.std.specs.Prelude.{◌≡◌, ◌≢◌, ◌≤◌, take, IfErr, IfOk, IfSome};
ghost use Rattle.std.specs.Io.{ReadsAtMost};
ghost use Rattle.std.specs.Io.KnownBytes.{ReadConsumes};
ghost use Rattle.std.specs.IoError.{error_kind};
ghost use Rattle.text.specs.Laws.{enough};

use code::scrambled::Scrambled;
use loopback::answer::printed;
use loopback::running::run;
use reed_solomon::codec::ReedSolomon;
use std::io;
use std::io::{ErrorKind, Read};
use text::reading::ENOUGH;

// One read, tried again where a signal interrupts it. The tries are counted, since a loop without an end proves nothing of what
// it answers; no run comes to the last.
fn read_some<R: Read>(input: &mut R, room: &mut [u8]) -> io::Result<usize>
    ensures bound { ReadsAtMost result room.new }
    ensures bytes { ReadConsumes (R.remaining input.old) (R.remaining input.new) result room.new }
    ensures retried { IfErr result (λ e. error_kind e ≢ ErrorKind.Interrupted) }
{
    for _ in 0..u64::MAX {
        match input.read(room) {
            Ok(n) => return Ok(n),
            Err(e) if e.kind() == ErrorKind::Interrupted => {}
            Err(e) => return Err(e),
        }
    }
    Err(io::Error::from(ErrorKind::TimedOut))
}

// The first bytes of the input, as many as an answer can depend on; answers how many there are.
fn read_text<R: Read + Drop>(mut input: R, text: &mut [u8; ENOUGH]) -> io::Result<usize>
    ensures few { IfOk result (λ n. n ≤ enough) }
    ensures first { IfOk result (λ n. IfSome (R.remaining input) (λ bytes. take n text.new ≡ take enough bytes)) }
    ensures retried { IfErr result (λ e. error_kind e ≢ ErrorKind.Interrupted) }
{
    let mut filled = 0;
    while filled < ENOUGH {
        let n = read_some(&mut input, &mut text[filled..])?;
        if n == 0 {
            return Ok(filled);
        }
        filled += n;
    }
    Ok(filled)
}

fn main(rt: HostRuntime) -> anyhow::Result<()> {
    let mut text = [0; ENOUGH];
    let n = read_text(rt.stdin(), &mut text)?;
    let code = Scrambled { inner: ReedSolomon };
    let said = printed(rt.alloc(), &run(code, &text[..n]))?;
    print!(rt; "{said}")?;
    Ok(())
}
