// Needs: the least level that a route asks of each component, coded in one number.
#![tactic(auto)]

ghost use Rattle.std.specs.Prelude.{◌≡◌, ℕ, ◌<◌, ◌≤◌, ◌^◌, Decides};
ghost use Rattle.needs.specs.Levels.{join as joined, Covers, Same, digit, width};
ghost use Rattle.std.proofs.Common.{rules};

// How many components a need speaks of.
pub const WIDTH: usize = 16;

// A kind of need: its top level, and how a need is coded.
pub trait Kind: Copy {
    const TOP: u8;

    // the same number, for clauses
    ghost TOP: { ℕ };

    // the need that a code stands for
    ghost levels: { Self → ℕ → ℕ };

    fn level(self, component: usize) -> u8
        ensures answer { result ≡ levels self component };

    fn join(self, other: Self) -> Self
        ensures answer { (i : ℕ) → levels result i ≡ joined (levels self) (levels other) i };

    fn covers(self, other: Self) -> bool
        ensures answer { Decides result (Covers (levels self) (levels other)) }
    {
        (0..WIDTH).all(|i| self.level(i) >= other.level(i))
    }

    fn same(self, other: Self) -> bool
        ensures answer { Decides result (Same (levels self) (levels other)) }
    {
        (0..WIDTH).all(|i| self.level(i) == other.level(i))
    }

    ghost top_least: { 1 ≤ TOP };

    ghost top_most: { TOP ≤ 3 };

    ghost levels_most: { (d : Self) (i : ℕ) → levels d i ≤ TOP };
}

// The digit of BITS bits that a code has at a component, the lowest first; it has none past the width.
fn digit_at<const BITS: usize>(code: u32, component: usize) -> u8
    requires most { BITS ≤ 2 }
    requires within { code < (2 ^ BITS) ^ width }
    ensures answer { result ≡ digit (2 ^ BITS) code component }
{
    if component < WIDTH {
        ((code >> (BITS * component)) & ((1 << BITS) - 1)) as u8
    } else {
        0
    }
}

// Plain needs: component i is needed (level 1) where bit i is set.
impl Kind for u16 {
    const TOP: u8 = 1;

    ghost TOP = { 1 };

    ghost levels = { digit 2 };

    ghost top_least = { Prim.search rules };

    ghost top_most = { Prim.search rules };

    ghost levels_most = { Prim.search rules };

    fn level(self, component: usize) -> u8 {
        digit_at::<1>(u32::from(self), component)
    }

    fn join(self, other: u16) -> u16 {
        self | other
    }
}

// Graded needs: the level of component i is the i-th digit in base 4.
impl Kind for u32 {
    const TOP: u8 = 3;

    ghost TOP = { 3 };

    ghost levels = { digit 4 };

    ghost top_least = { Prim.search rules };

    ghost top_most = { Prim.search rules };

    ghost levels_most = { Prim.search rules };

    fn level(self, component: usize) -> u8 {
        digit_at::<2>(self, component)
    }

    fn join(self, other: u32) -> u32 {
        (0..WIDTH).fold(0, |joined, i| {
            let level = self.level(i).max(other.level(i));
            joined | u32::from(level) << (2 * i)
        })
    }
}
