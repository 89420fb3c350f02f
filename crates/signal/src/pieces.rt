// Reading the pieces of a signal at a place of a recording. The places and lengths are numbers as in the definitions: a name
// for each would say no more than the comment of its function.
ghost use Rattle.std.specs.Prelude.{◌≡◌, ℕ, ◌+◌, ◌-◌, ◌*◌, ◌^◌, ◌<◌, ◌≤◌, length, replicate, MatchBool, MatchOption};
ghost use Rattle.std.specs.Int.{from_bool};
ghost use Rattle.signal.specs.Signal.{least_first, Stands, marker, back, IsSeed};
ghost use Rattle.signal.specs.Inner.{CellAt, FieldBroken, FieldAt, SumAt, PatternAt};
ghost use Rattle.signal.specs.Calls.{Broken, Fronted};
ghost use Rattle.signal.specs.Tape.{tui};

use crate::tape::Recording;

#[tactic(auto, using(crate::proofs::Recorded::tui_max))]
impl<'a> Recording<'a> {
    // The level stays for `count` TUI.
    fn stays(&self, place: usize, count: usize, level: bool) -> bool
        requires { place + count ≤ length (tui self.now) }
        ensures { MatchBool result (Stands (replicate count (from_bool level)) (tui self.now) place) (Stands (replicate count (from_bool level)) (tui self.now) place → ⊥) }
    {
        (place..place + count).all(|at| self.level_at(at) == level)
    }

    // A marker stands there.
    pub(crate) fn marker_at(&self, place: usize) -> bool
        requires { place + 32 ≤ length (tui self.now) }
        ensures { MatchBool result (Stands marker (tui self.now) place) (Stands marker (tui self.now) place → ⊥) }
    {
        self.stays(place, 16, true) && self.stays(place + 16, 16, false)
    }

    // The bit that a cell carries.
    fn cell_at(&self, place: usize) -> Option<bool>
        requires { (1 ≤ place) × (place + 8 ≤ length (tui self.now)) }
        ensures { MatchOption result ((bit : ℕ) → CellAt (tui self.now) place bit → ⊥) (λ bit. CellAt (tui self.now) place (from_bool bit)) }
    {
        let first = !self.level_at(place - 1);
        let second = self.level_at(place + 4);
        let whole = self.stays(place, 4, first) && self.stays(place + 4, 4, second);
        whole.then_some(first != second)
    }

    // The field that sixteen cells carry, bit 15 first.
    fn field_at(&self, place: usize) -> Option<u16>
        requires { (1 ≤ place) × (place + 128 ≤ length (tui self.now)) }
        ensures { MatchOption result (FieldBroken (tui self.now) place) (FieldAt (tui self.now) place) }
    {
        let mut field = 0;
        // Cell k begins 8 k TUI on, and its last level is read with the next cell: no list of cells to go over.
        for k in 0..16 {
            let bit = self.cell_at(place + 8 * k)?;
            field = field * 2 + u16::from(bit);
        }
        Some(field)
    }

    // The control and the status field after a marker.
    pub(crate) fn fields_at(&self, start: usize) -> Option<(u16, u16)>
        requires { (start + 288 ≤ length (tui self.now)) × Stands marker (tui self.now) start }
        ensures { MatchOption result (Broken (tui self.now) start) (λ p. Fronted (tui self.now) start p.0 p.1) }
    {
        let control = self.field_at(start + 32)?;
        let status = self.field_at(start + 160)?;
        Some((control, status))
    }

    // The number of the first eleven bits of a pattern, the least first.
    fn seed_at(&self, place: usize) -> u16
        requires { place + 11 ≤ length (tui self.now) }
        ensures { (result < 2048) × Stands (least_first 11 result) (tui self.now) place }
    {
        let mut seed = 0;
        // Tried with fold: that the seed so far times two fits a u16 stays open, as a fold over `rev` has no bound to give its closure.
        for at in (place..place + 11).rev() {
            seed = seed * 2 + u16::from(self.level_at(at));
        }
        seed
    }

    // A level is the sum of those nine and eleven TUI before it, as in the pattern.
    fn sum_at(&self, at: usize) -> bool
        requires { (11 ≤ at) × (at < length (tui self.now)) }
        ensures { MatchBool result (SumAt (tui self.now) at) (SumAt (tui self.now) at → ⊥) }
    {
        self.level_of(at) == (self.level_of(at - 9) != self.level_of(at - 11))
    }

    // The seed whose pattern stands there.
    fn pattern_at(&self, place: usize) -> Option<u16>
        requires { place + 4094 ≤ length (tui self.now) }
        ensures { MatchOption result ((seed : ℕ) → PatternAt (tui self.now) place seed → ⊥) (PatternAt (tui self.now) place) }
    {
        let seed = self.seed_at(place);
        if seed == 0 {
            return None;
        }
        // By `all` a reading takes a third longer, so this is a loop.
        for at in place + 11..place + 4094 {
            if !self.sum_at(at) {
                return None;
            }
        }
        Some(seed)
    }

    // The seed whose pattern stands there with the two zeros after it.
    pub(crate) fn back_at(&self, place: usize) -> Option<u16>
        requires { place + 4096 ≤ length (tui self.now) }
        ensures { MatchOption result ((seed : ℕ) → IsSeed seed → Stands (back seed) (tui self.now) place → ⊥) (λ seed. IsSeed seed × Stands (back seed) (tui self.now) place) }
    {
        let seed = self.pattern_at(place)?;
        self.stays(place + 4094, 2, false).then_some(seed)
    }
}
