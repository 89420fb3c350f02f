// What the decoder answers.
ghost use Rattle.std.specs.Prelude.{◌≤◌};

use crate::errors::Error;

// How many errors are found at most.
pub const MOST: usize = 7;

// At most seven errors: the first `count` of those in the room.
#[derive(Clone, Copy, PartialEq, Eq, Debug)]
pub struct Errors {
    pub count: usize,
    pub room: [Error; MOST],
    pub ghost few: { count ≤ 7 },
}
