// A text answered: its words carried through a port, or its refusal.
ghost use Rattle.std.specs.Prelude.{◌≡◌, ℕ, List, take};
ghost use Rattle.text.specs.Text.{answer as answer_of};
ghost use Rattle.text.specs.Laws.{enough};
ghost use Rattle.loopback.specs.Answers.{Answers};

use crate::carrying::carry;
use code::interface::Code;
use port::totals::Totals;
use text::reading::words_of;
use text::refusal::TextRefusal;

// The totals after the words of the text were carried through a port over the code, or why the text is refused. Where the
// text is the first 1,531 bytes of a whole input, the answer is the one for the whole input.
pub fn run<C: Code + Drop>(code: C, text: &[u8]) -> Result<Totals, TextRefusal>
    ensures is { Answers (C.Code.model code) (answer_of text.now) result }
    ensures whole { (input : List ℕ) → take enough input ≡ text.now → Answers (C.Code.model code) (answer_of input) result }
{
    let words = words_of(text)?;
    Ok(carry(code, &words).totals)
}
