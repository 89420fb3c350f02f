// Opening a port, and asking for its totals.
ghost use Rattle.std.specs.Prelude.{◌≡◌, [], IfOk, MatchResult};
ghost use Rattle.port.specs.Limits.{Within, zeros};
ghost use Rattle.port.specs.Runs.{Reached, Extends, ask as ask_event};
ghost use Rattle.port.specs.Promise.{Promise, TotalsTrue};

use crate::refusal::PortRefusal;
use crate::state::Port;
use crate::totals::Totals;
use code::interface::Code;

// Accepted and dropped readings together, and mended symbols, go no further: 2^40.
pub(crate) const LIMIT: u64 = 1 << 40;

impl<C: Code> Port<C> {
    // A port over the code that has counted nothing yet. The whole promise stands here, as where a port is opened.
    pub fn new(code: C) -> Port<C>
        ensures code { result.code ≡ code }
        ensures totals { result.totals ≡ zeros }
        ensures begins { Reached (C.Code.model code) zeros [] result.totals }
        ensures promise { Promise (C.Code.model code) }
    {
        Port {
            code,
            totals: Totals::default(),
        }
    }

    // A port over the code that goes on counting from these totals. The whole promise stands here.
    pub fn open(code: C, opening: Totals) -> Result<Port<C>, PortRefusal>
    where
        C: Drop,
        ensures made { MatchResult result (λ p. (p.code ≡ code) × (p.totals ≡ opening)) (λ e. (e ≡ PortRefusal.Opening) × (Within opening → ⊥)) }
        ensures begins { IfOk result (λ p. Reached (C.Code.model code) opening [] p.totals) }
        ensures promise { Promise (C.Code.model code) }
    {
        if opening.accepted > LIMIT
            || opening.dropped > LIMIT - opening.accepted
            || opening.mended > LIMIT
        {
            return Err(PortRefusal::Opening);
        }
        Ok(Port {
            code,
            totals: opening,
        })
    }

    // The totals: what the port was opened with and what its readings have added since.
    pub fn totals(&self) -> Totals
        ensures value { result ≡ self.now.totals }
        ensures counts { TotalsTrue (C.Code.model self.now.code) self.now.totals result }
        ensures extends { Extends (C.Code.model self.now.code) self.now.totals self.now.totals (ask_event result) }
    {
        self.totals
    }
}
