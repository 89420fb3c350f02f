// The errors that have given syndromes.
ghost use Rattle.std.specs.Prelude.{◌≡◌, ℕ, ◌<◌, ◌≤◌, length, slice_index};
ghost use Rattle.reed_solomon_algebra.specs.Polynomials.{Elements};
ghost use Rattle.reed_solomon_algebra.specs.Terms.{Differ};
ghost use Rattle.reed_solomon_decoder.specs.Errors.{Agrees, located};
ghost use Rattle.reed_solomon_decoder.specs.Listed.{indices, places, values, errors_of};
ghost use Rattle.reed_solomon_decoder.specs.Decoded.{Decoded};

pub use crate::answer::Errors;
use crate::answer::MOST;
use crate::elimination::locator;
use crate::evaluation::{explained, value_at};
use crate::line::{PARITY, Place};
use crate::search::search;
use arrayvec::ArrayVec;

// A wrong symbol: its place in the line, and what is to be added there.
#[derive(Clone, Copy, PartialEq, Eq, Debug, Default)]
pub struct Error {
    pub place: Place,
    pub value: u16,
}

impl Errors {
    // The errors of this list.
    fn of(errors: &ArrayVec<Error, MOST>) -> Errors
        ensures { errors_of result ≡ errors.now.items }
    {
        let mut room = [Error::default(); MOST];
        let count = errors.len();
        room[..count].copy_from_slice(errors.as_slice());
        Errors { count, room }
    }

    // The errors as a slice.
    pub fn as_slice(&self) -> &[Error]
        ensures value { result.now ≡ errors_of self.now }
        ensures fits { length result.now ≤ 7 }
    {
        &self.room[..self.count]
    }
}

// The errors at these places, as every explanation has them that has errors nowhere else.
fn errors_at(s: &[u16; PARITY], found: &[Place]) -> ArrayVec<Error, MOST>
    requires few { length found.now ≤ 7 }
    requires differ { Differ (located 528 (indices found.now)) }
    ensures places { places result.items ≡ found.now }
    ensures values { (k : ℕ) → k < length found.now → Agrees s.now (located 528 (indices found.now)) (slice_index (located 528 (indices found.now)) k) (slice_index (values result.items) k) }
    ensures small { Elements (values result.items) }
{
    let mut errors = ArrayVec::new();
    for (i, place) in found.iter().enumerate() {
        errors.push(Error {
            place: *place,
            value: value_at(s, found, i),
        });
    }
    errors
}

// The errors, at most seven, that have these syndromes, if there are such.
pub fn decode(s: &[u16; PARITY]) -> Option<Errors>
    ensures { Decoded s.now result }
{
    let places = search(&locator(s));
    let errors = errors_at(s, places.as_slice());
    explained(s, errors.as_slice()).then_some(Errors::of(&errors))
}
