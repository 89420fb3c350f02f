// A client of the port over any code: it uses the calls by their contracts and the promise alone.
#![tactic(auto)]

ghost use Rattle.std.specs.Prelude.{◌≡◌, ◌+◌, MatchResult};
ghost use Rattle.code.specs.Layers.{scrambled};
ghost use Rattle.reed_solomon_algebra.specs.Division.{reed_solomon_code};
ghost use Rattle.client.specs.Sessions.{Session};

use code::interface::Code;
use code::scrambled::Scrambled;
use port::refusal::PortRefusal;
use port::state::Port;
use port::totals::Totals;
use reed_solomon::codec::ReedSolomon;
use words::word::Word;

// Writes the words to the line and reads the line `readings` times, however each reading ends; answers the totals.
pub fn session<C: Code + Drop>(
    code: C,
    opening: Totals,
    words: &mut [Word],
    line: &mut [u16],
    readings: usize,
) -> Result<Totals, PortRefusal>
    ensures { MatchResult result (λ a. Session (C.Code.model code) opening (readings + 1) a) (λ e. e ≡ PortRefusal.Opening) }
{
    let mut port = Port::open(code, opening)?;
    let _ = port.write(words, line);
    for _ in 0..readings {
        let _ = port.read(line, words);
    }
    Ok(port.totals())
}

// The same over the code of a 32GFC link, RS(528,514) under scrambling: the promise holds of it as of every code.
pub fn link_session(
    opening: Totals,
    words: &mut [Word],
    line: &mut [u16],
    readings: usize,
) -> Result<Totals, PortRefusal>
    ensures { MatchResult result (λ a. Session (scrambled (reed_solomon_code 7)) opening (readings + 1) a) (λ e. e ≡ PortRefusal.Opening) }
{
    session(Scrambled::over(ReedSolomon), opening, words, line, readings)
}
