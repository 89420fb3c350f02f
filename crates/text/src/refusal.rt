// Why a text is refused, and at which row and column.
ghost use Rattle.std.specs.Prelude.{◌≡◌};
ghost use Rattle.text.specs.Refusals.{number as number_of, row as row_of, fault_column, column as column_of};

use numbered_refusal::Refusal;
use std::error::Error;
use std::fmt;
use words::refusal::WordRefusal;

// Why a line is no line of a text.
#[derive(Clone, Copy, PartialEq, Eq, Debug, Drop)]
pub enum Fault {
    // The text ends in the line.
    Ended,
    // The first byte that cannot stand in its column, from 1.
    At(usize),
}

// Rows count from 1 behind the names.
#[derive(Clone, Copy, PartialEq, Eq, Debug, Drop)]
pub enum TextRefusal {
    // The names are wrong or missing.
    Names { fault: Fault },
    // A row is begun and goes wrong.
    Row { row: usize, fault: Fault },
    // The text ends where a row is due or goes on behind the last one; so many rows were read.
    Rows { row: usize },
    // The row is right, and its head and body make no word.
    Word { row: usize, refusal: WordRefusal },
}

impl Fault {
    // The column that is printed, 0 where the text ends first.
    pub fn column(&self) -> usize
        ensures { result ≡ fault_column self.now }
    {
        match *self {
            Fault::Ended => 0,
            Fault::At(column) => column,
        }
    }
}

impl fmt::Display for Fault {
    fn fmt<W: fmt::Write>(&self, f: &mut fmt::Formatter<W>) -> fmt::Result {
        let column = self.column();
        write!(f, "{column}")
    }
}

impl Refusal for TextRefusal {
    ghost numbered = { number_of };

    ghost placed = { row_of };

    fn number(&self) -> u8 {
        match *self {
            TextRefusal::Names { .. } => 61,
            TextRefusal::Row { .. } => 62,
            TextRefusal::Rows { .. } => 63,
            TextRefusal::Word { refusal, .. } => refusal.number(),
        }
    }

    // The row.
    fn place(&self) -> usize {
        match *self {
            TextRefusal::Names { .. } => 0,
            TextRefusal::Row { row, .. }
            | TextRefusal::Rows { row }
            | TextRefusal::Word { row, .. } => row,
        }
    }
}

impl TextRefusal {
    // The column, as the number that is printed.
    pub fn column(&self) -> usize
        ensures { result ≡ column_of self.now }
    {
        match *self {
            TextRefusal::Names { fault } | TextRefusal::Row { fault, .. } => fault.column(),
            TextRefusal::Rows { .. } => 0,
            TextRefusal::Word { .. } => 17,
        }
    }
}

impl fmt::Display for TextRefusal {
    fn fmt<W: fmt::Write>(&self, f: &mut fmt::Formatter<W>) -> fmt::Result {
        match *self {
            TextRefusal::Names { fault } => {
                write!(f, "61: the names are wrong or missing, at column {fault}")
            }
            TextRefusal::Row { row, fault } => {
                write!(f, "62: the row is malformed, at row {row}, column {fault}")
            }
            TextRefusal::Rows { row } => write!(f, "63: not eighty rows, after row {row}"),
            TextRefusal::Word { row, refusal } => write!(f, "{refusal}, at row {row}"),
        }
    }
}

impl Error for TextRefusal {}
