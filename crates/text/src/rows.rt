// One line of the text.
ghost use Rattle.std.specs.Prelude.{◌≡◌, ◌+◌, ◌<◌, [], ◌∷◌, Some, None, drop};
ghost use Rattle.words.specs.Raw.{header as header_of};
ghost use Rattle.text.specs.Text.{just, fault as first_fault, names_line, row_word, row_answer};
ghost use Rattle.text.specs.Reading.{seen_row};
ghost use Rattle.text.specs.Tokens.{line_columns, line_answer};
ghost use Rattle.text.specs.Parts.{IsLine};

use crate::digits::value;
use crate::parts::{behind, front};
use crate::refusal::{Fault, TextRefusal};
use crate::tokens::{BODY_DIGITS, NAME_BYTES, Name, Part, Token, departure};
use words::word::Word;

// How many bytes the names have with their byte 10, and how many a row has.
pub const NAMES_LENGTH: usize = 10;

pub const ROW_LENGTH: usize = 19;

// The space or the byte 10 that stands behind a token, `at` bytes into its line.
fn mark_fault(line: &[u8], at: usize, mark: u8) -> Option<Fault>
    requires { at < 90 }
    ensures { result ≡ first_fault (at + 1) (just mark ∷ []) (drop at line.now) }
{
    departure(behind(line, at), &[mark], at + 1)
}

// The line that a text begins with, as its two tokens.
#[derive(Clone, Copy)]
struct Line<'a> {
    text: &'a [u8],
    head: Part<'a>,
    body: Part<'a>,
    ghost parts: { IsLine text.now head body },
}

impl<'a> Line<'a> {
    // Its first fault.
    fn fault(&self) -> Option<Fault>
        ensures { result ≡ first_fault 1 (line_columns self.now.head.token self.now.body.token) self.now.text.now }
    {
        self.head
            .fault()
            .or(mark_fault(self.text, self.head.end(), b' '))
            .or(self.body.fault())
            .or(mark_fault(self.text, self.body.end(), b'\n'))
    }

    // Refuses it at its fault.
    fn check(&self) -> Result<(), TextRefusal>
        ensures { result ≡ line_answer self.now.head.row (first_fault 1 (line_columns self.now.head.token self.now.body.token) self.now.text.now) }
    {
        // Tried with map_or: what its closure answers, a call of `refusal`, is not known to the proof.
        match self.fault() {
            Some(fault) => Err(self.head.refusal(fault)),
            None => Ok(()),
        }
    }
}

// Refuses a text that does not begin with the names.
pub(crate) fn names(text: &[u8]) -> Result<(), TextRefusal>
    ensures { result ≡ line_answer None (first_fault 1 names_line text.now) }
{
    let head = Part {
        token: Token::Name(Name::Head, front(text, NAME_BYTES)),
        row: None,
        column: 1,
    };
    let body = Part {
        token: Token::Name(Name::Body, front(behind(text, 5), NAME_BYTES)),
        row: None,
        column: 6,
    };
    Line { text, head, body }.check()
}

// The header that the kind letter says, a number since Word::new takes one.
fn header(text: &[u8]) -> u8
    ensures { result ≡ header_of (row_word text.now) }
{
    match text {
        [kind, ..] if *kind as char == 'd' => 2,
        _ => 1,
    }
}

// The word of the row that the text begins with.
pub(crate) fn word(text: &[u8], row: usize) -> Result<Word, TextRefusal>
    ensures { seen_row result ≡ row_answer row text.now }
{
    let digits = front(behind(text, 2), BODY_DIGITS);
    let head = Part {
        token: Token::Head(front(text, 1)),
        row: Some(row),
        column: 1,
    };
    let body = Part {
        token: Token::Body(digits),
        row: Some(row),
        column: 3,
    };
    Line { text, head, body }.check()?;
    Word::new(header(text), value(digits)).map_err(|refusal| TextRefusal::Word { row, refusal })
}
