// The key of the scrambler: the scrambling sequence cut into symbols.
ghost use Rattle.std.specs.Prelude.{◌≡◌, ◌≤◌, length};
ghost use Rattle.code.specs.Codes.{longest_line};
ghost use Rattle.code.specs.Distance.{plus};
ghost use Rattle.code.specs.Layers.{with_key, KeyLaws, ScrambledLine};
ghost use Rattle.code.specs.Sequence.{SequenceLaws};

use crate::interface::LONGEST_LINE;
use crate::key_table::KEY;
use crate::refusal::CodeRefusal;

// Adds a list to a line, symbol by symbol.
fn add(line: &mut [u16], list: &[u16])
    requires { length line.old ≤ length list.now }
    ensures { line.new ≡ plus line.old list.now }
{
    // By place: after a loop over `line.iter_mut().zip(list)` no proof knows what was written.
    for (i, symbol) in line.iter_mut().enumerate() {
        *symbol ^= list[i];
    }
}

// Adds the key to a line.
pub(crate) fn add_key(line: &mut [u16])
    requires { length line.old ≤ longest_line }
    ensures { line.new ≡ with_key line.old }
{
    add(line, &KEY);
}

// Scrambles a line, and a scrambled line back; refuses a list that is longer than any line.
pub fn scramble(line: &mut [u16]) -> Result<(), CodeRefusal>
    ensures does { ScrambledLine line.old line.new result }
    ensures sequence { SequenceLaws }
    ensures key { KeyLaws }
{
    if line.len() > LONGEST_LINE {
        return Err(CodeRefusal::Length);
    }
    add_key(line);
    Ok(())
}
