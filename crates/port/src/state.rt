// A port: a code and the totals of the readings made over it.
ghost use Rattle.port.specs.Limits.{Within};

use crate::totals::Totals;

// Only readings change the totals, and none takes them past the limit.
#[derive(Drop)]
pub struct Port<C> {
    pub(crate) code: C,
    pub(crate) totals: Totals,
    ghost within: { Within totals },
}
