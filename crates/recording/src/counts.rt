// What a survey answers.
#[derive(Clone, Copy, PartialEq, Eq, Debug, Default, Drop)]
pub struct Survey {
    pub good: usize,
    pub bad: usize,
}
