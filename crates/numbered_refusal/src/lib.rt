// What every refusal says of itself: a number, the layer that refuses and a place.
#![tactic(auto)]

ghost use Rattle.std.specs.Prelude.{◌≡◌, ℕ};
ghost use Rattle.numbered_refusal.specs.Layers.{layer as layer_of};

// A refusal is a value of a layer's own enum; the enum's specs give the two ghost members, a line for each case.
pub trait Refusal {
    ghost numbered: { Self → ℕ };

    ghost placed: { Self → ℕ };

    // The refusal's number, 11 to 79. A number beside the enum, since it is what is printed and told to other programs.
    fn number(&self) -> u8
        ensures { result ≡ numbered self.now };

    // Where the fault lies: what is counted there is said at each number. 0 stands where nothing is counted, since the place
    // too is a number that is printed and told to other programs.
    fn place(&self) -> usize
        ensures { result ≡ placed self.now };

    // The layer that refuses, the tens digit of the number: a number itself, since it is printed and told to other programs.
    fn layer(&self) -> u8
        ensures { result ≡ layer_of (numbered self.now) }
    {
        self.number() / 10
    }
}
