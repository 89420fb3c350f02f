// Adding errors to a line.
ghost use Rattle.std.specs.Prelude.{◌≡◌, ◌≤◌, length};
ghost use Rattle.code.specs.Distance.{distance};
ghost use Rattle.reed_solomon_algebra.specs.Terms.{Distinct, locators};
ghost use Rattle.reed_solomon_decoder.specs.Listed.{listed};
ghost use Rattle.reed_solomon.specs.Corrected.{corrected};

use crate::codec::LINE_LENGTH;
use reed_solomon_decoder::errors::Error;

// Adds each error to the symbol at its place, and counts the symbols that change.
pub(crate) fn correct(line: &mut [u16; LINE_LENGTH], errors: &[Error]) -> usize
    requires { Distinct (listed errors.now) }
    ensures line { line.new ≡ corrected (listed errors.now) line.old (locators 528) }
    ensures count { result ≡ distance line.old line.new }
    ensures few { result ≤ length errors.now }
{
    let mut changed = 0;
    for error in errors {
        if error.value != 0 {
            line[error.place.index] ^= error.value;
            changed += 1;
        }
    }
    changed
}
