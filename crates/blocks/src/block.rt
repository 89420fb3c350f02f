// Blocks of 257 bits.
ghost use Rattle.std.specs.Prelude.{◌≡◌, ◌^◌, ◌<◌, ◌≤◌, MatchOption, slice_index};
ghost use Rattle.blocks.specs.Packed.{packed};

use std::fmt;

// What a limb counts: it has 64 bits.
pub(crate) const LIMB: u128 = 0x1_0000_0000_0000_0000;

// The bits in words of 64, the lowest first: limb 4 holds bit 256 alone.
#[derive(Clone, Copy, PartialEq, Eq, Debug, Drop)]
pub struct Block {
    pub limbs: [u64; 5],
    ghost narrow: { packed 64 limbs < 2 ^ 257 },
}

impl Block {
    // The block of these limbs; none where limb 4 has more than bit 256.
    pub fn new(limbs: [u64; 5]) -> Option<Block>
        ensures { MatchOption result (2 ≤ slice_index limbs 4) (λ b. b.limbs ≡ limbs) }
    {
        if limbs[4] > 1 {
            return None;
        }
        Some(Block { limbs })
    }
}

// The 257 bits as hexadecimal digits, bit 256 first.
impl fmt::Display for Block {
    fn fmt<W: fmt::Write>(&self, f: &mut fmt::Formatter<W>) -> fmt::Result {
        let [a, b, c, d, e] = self.limbs;
        write!(f, "{e:x}{d:016x}{c:016x}{b:016x}{a:016x}")
    }
}
