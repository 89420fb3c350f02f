// The places of a line.
ghost use Rattle.std.specs.Prelude.{◌≡◌, ◌-◌, ◌<◌};
ghost use Rattle.field.specs.Field.{pow, α};

use field::alpha_power;

// How many symbols a line has.
pub const LINE_LENGTH: usize = 528;

// How many parity symbols a line has, and as many syndromes.
pub const PARITY: usize = 14;

// The place of a symbol in a line, counted from the first.
#[derive(Clone, Copy, PartialEq, Eq, Debug)]
pub struct Place {
    pub index: usize,
    pub ghost within: { index < 528 },
}

impl Place {
    // α to the degree of this symbol in the line's polynomial.
    pub(crate) fn locator(self) -> u16
        ensures { result ≡ pow α (527 - self.index) }
    {
        alpha_power(LINE_LENGTH - 1 - self.index)
    }

    // The `j`-th power of the locator.
    pub(crate) fn power(self, j: usize) -> u16
        requires { j < 14 }
        ensures { result ≡ pow (pow α (527 - self.index)) j }
    {
        alpha_power((LINE_LENGTH - 1 - self.index) * j)
    }
}

// The first place of a line.
impl Default for Place {
    ghost is_default = { λ p. p.index ≡ 0 };

    fn default() -> Self {
        Place { index: 0 }
    }
}
