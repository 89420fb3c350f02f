// What a port counts.

// Readings accepted, readings dropped, and the symbols mended in accepted readings; all zero by default.
#[derive(Clone, Copy, PartialEq, Eq, Debug, Default, Drop)]
pub struct Totals {
    pub accepted: u64,
    pub dropped: u64,
    pub mended: u64,
}
