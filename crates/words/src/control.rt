// The body of a control word.
ghost use Rattle.std.specs.Prelude.{◌≡◌, ◌%◌, true};
ghost use Rattle.words.specs.Types.{listed};

// The low byte of the body is a listed type.
#[derive(Clone, Copy, PartialEq, Eq, Debug, Drop)]
pub struct ControlBody {
    pub body: u64,
    ghost typed: { listed (body % 256) ≡ true },
}
