// Symbols of ten bits, and the search for a number that is none.
#![tactic(auto)]

ghost use Rattle.std.specs.Option.{MatchOption};
ghost use Rattle.symbols.specs.Symbols.{Symbols, FirstAbove};

// How many symbols a message has.
pub const MESSAGE_LENGTH: usize = 514;

// The largest symbol.
pub const SYMBOL_MAX: u16 = 1023;

// The place of the first number that is no symbol, if there is one: by index, since the place is the answer.
pub fn first_above(list: &[u16]) -> Option<usize>
    ensures { MatchOption result (Symbols list.now) (FirstAbove list.now) }
{
    for (i, s) in list.iter().enumerate() {
        if *s > SYMBOL_MAX {
            return Some(i);
        }
    }
    None
}
