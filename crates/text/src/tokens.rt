// The tokens of a line: the parts that say something. Each borrows its bytes of the text, fewer where the text ends first.
ghost use Rattle.std.specs.Prelude.{◌≡◌, ◌+◌, ◌^◌, ◌<◌, ◌≤◌, [], ◌∷◌, map, length, replicate, IfSome};
ghost use Rattle.text.specs.Text.{just, digit as digit_column, letter, fault as first_fault};
ghost use Rattle.text.specs.Tokens.{fault_at, spelled, token_columns, refusal_at, Within};

use crate::digits::digit;
use crate::refusal::{Fault, TextRefusal};
use std::str::from_utf8;

// How many bytes a name has, and how many digits a body.
pub const NAME_BYTES: usize = 4;

pub const BODY_DIGITS: usize = 16;

// The names of the two columns.
#[derive(Clone, Copy, Drop)]
pub enum Name {
    Head,
    Body,
}

#[derive(Clone, Copy)]
pub enum Token<'a> {
    // The name of a column, and which one is due.
    Name(Name, &'a [u8]),
    // The kind letter of a row.
    Head(&'a [u8]),
    // The sixteen digits of a row.
    Body(&'a [u8]),
}

// A token and its place: its row, none for the names, and the column of its first byte, from 1.
#[derive(Clone, Copy)]
pub struct Part<'a> {
    pub token: Token<'a>,
    pub row: Option<usize>,
    pub column: usize,
    pub ghost within: { Within token column },
}

// The byte at `wrong` of a token's bytes is the fault, or else the end, where they are too few.
fn fault_of(wrong: Option<usize>, too_few: bool, column: usize) -> Option<Fault>
    requires { IfSome wrong (λ i. column + i < 2 ^ 64) }
    ensures { result ≡ fault_at column too_few wrong }
{
    match wrong {
        Some(i) => Some(Fault::At(column + i)),
        None if too_few => Some(Fault::Ended),
        None => None,
    }
}

// The first byte that is not the one expected there.
pub(crate) fn departure(bytes: &[u8], expected: &[u8], column: usize) -> Option<Fault>
    requires { column + length expected.now < 100 }
    ensures { result ≡ first_fault column (map just expected.now) bytes.now }
{
    let mut pairs = bytes.iter().zip(expected);
    let wrong = pairs.position(|(byte, due)| byte != due);
    fault_of(wrong, bytes.len() < expected.len(), column)
}

#[tactic(auto, unfolding(crate::specs::Text::fault))]
fn head_fault(bytes: &[u8], column: usize) -> Option<Fault>
    ensures { result ≡ first_fault column (letter ∷ []) bytes.now }
{
    match bytes {
        [] => Some(Fault::Ended),
        [kind, ..] => match *kind as char {
            'd' | 'c' => None,
            _ => Some(Fault::At(column)),
        },
    }
}

impl<'a> Part<'a> {
    ghost use Rattle.text.specs.Parts.{token_fault};

    #[tactic(auto, using(crate::proofs::Faults::fault_spelled))]
    fn name_fault(&self, due: Name, bytes: &[u8]) -> Option<Fault>
        ensures { result ≡ first_fault self.now.column (map just (spelled due)) bytes.now }
    {
        match (due, from_utf8(bytes)) {
            (Name::Head, Ok("head")) => None,
            (Name::Body, Ok("body")) => None,
            (Name::Head, _) => departure(bytes, b"head", self.column),
            (Name::Body, _) => departure(bytes, b"body", self.column),
        }
    }

    fn body_fault(&self, bytes: &[u8]) -> Option<Fault>
        requires { length bytes.now ≤ 16 }
        ensures { result ≡ first_fault self.now.column (replicate 16 digit_column) bytes.now }
    {
        let wrong = bytes.iter().position(|byte| digit(*byte as char).is_none());
        fault_of(wrong, bytes.len() < BODY_DIGITS, self.column)
    }

    // The first fault of the token.
    pub(crate) fn fault(&self) -> Option<Fault>
        ensures { result ≡ token_fault self.now }
    {
        match self.token {
            Token::Name(due, bytes) => self.name_fault(due, bytes),
            Token::Head(bytes) => head_fault(bytes, self.column),
            Token::Body(bytes) => self.body_fault(bytes),
        }
    }

    // How many bytes of the line stand before what is behind the token.
    pub(crate) fn end(&self) -> usize
        ensures { result + 1 ≡ self.now.column + length (token_columns self.now.token) }
    {
        let width = match self.token {
            Token::Name(_, _) => NAME_BYTES,
            Token::Head(_) => 1,
            Token::Body(_) => BODY_DIGITS,
        };
        self.column - 1 + width
    }

    // The refusal of the line that the token stands in.
    pub(crate) fn refusal(&self, fault: Fault) -> TextRefusal
        ensures { result ≡ refusal_at self.now.row fault }
    {
        match self.row {
            None => TextRefusal::Names { fault },
            Some(row) => TextRefusal::Row { row, fault },
        }
    }
}
