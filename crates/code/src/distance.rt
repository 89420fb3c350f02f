// How far two lists of symbols lie apart.
ghost use Rattle.code.specs.Distance.{Measured, DistanceLaws};

// In how many places the two lists differ; none where they have not the same length.
pub fn distance(a: &[u16], b: &[u16]) -> Option<usize>
    ensures answer { Measured a.now b.now result }
    ensures laws { DistanceLaws }
{
    if a.len() != b.len() {
        return None;
    }
    Some(a.iter().zip(b).filter(|(x, y)| x != y).count())
}
