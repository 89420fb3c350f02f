// What a training signal carries: a control record, a status record and the seed of its pattern.

// The speed that a port announces.
#[derive(Clone, Copy, PartialEq, Eq, Debug, Drop)]
pub enum Mark {
    Gfc16 = 0,
    Gfc32 = 3,
}

// What a port asks of one coefficient of the other port's transmitter.
#[derive(Clone, Copy, PartialEq, Eq, Debug, Drop)]
pub enum Update {
    Hold = 0,
    Increment = 1,
    Decrement = 2,
}

// The status of a coefficient.
#[derive(Clone, Copy, PartialEq, Eq, Debug, Drop)]
pub enum State {
    Ready = 0,
    Updated = 1,
    Minimum = 2,
    Maximum = 3,
}

// One value for each of a transmitter's three coefficients.
#[derive(Clone, Copy, PartialEq, Eq, Debug, Drop)]
pub struct Coefficients<T> {
    pub c1: T,
    pub c0: T,
    pub cm1: T,
}

// What a port announces, and what it asks of the other port.
#[derive(Clone, Copy, PartialEq, Eq, Debug, Drop)]
pub struct Control {
    pub mark: Mark,
    pub preset: bool,
    pub initialise: bool,
    pub fec_request: bool,
    pub parallel_lanes: bool,
    pub updates: Coefficients<Update>,
}

// How far a port's training is, and what became of each coefficient.
#[derive(Clone, Copy, PartialEq, Eq, Debug, Drop)]
pub struct Status {
    pub complete: bool,
    pub negotiating: bool,
    pub fec_capable: bool,
    pub fixed: bool,
    pub states: Coefficients<State>,
}

// What one signal says.
#[derive(Clone, Copy, PartialEq, Eq, Debug, Drop)]
pub struct Training {
    pub control: Control,
    pub status: Status,
    pub seed: u16,
}
