// Numbers modulo 2^64, which every algebra here is built on.
ghost use Rattle.std.specs.Prelude.{◌≡◌};
ghost use Rattle.algebras.specs.Meanings.{meaning};
ghost use Rattle.algebras.specs.Residues.{number, plus, minus, scaled, signed};

use std::ops::{Add, Mul, Sub};

// A number modulo 2^64.
#[derive(Clone, Copy, Debug, PartialEq, Eq)]
pub struct Residue {
    bits: u64,
}

impl Residue {
    // The unsigned reading.
    pub fn bits(self) -> u64
        ensures answer { result ≡ (meaning self).value }
    {
        self.bits
    }

    // The signed reading, exact for a number that lies between -2^63 and 2^63.
    pub fn signed(self) -> i64
        ensures answer { result ≡ signed (meaning self) }
    {
        u64::cast_signed(self.bits)
    }
}

impl From<u64> for Residue {
    ghost from_gives = { λ bits made. meaning made ≡ number bits };

    fn from(bits: u64) -> Residue {
        Residue { bits }
    }
}

impl Add for Residue {
    type Output = Residue;

    ghost add_gives = { λ a b sum. meaning sum ≡ plus (meaning a) (meaning b) };

    fn add(self, other: Residue) -> Residue {
        Residue::from(self.bits.wrapping_add(other.bits))
    }
}

impl Sub for Residue {
    type Output = Residue;

    ghost sub_gives = { λ a b difference. meaning difference ≡ minus (meaning a) (meaning b) };

    fn sub(self, other: Residue) -> Residue {
        Residue::from(self.bits.wrapping_sub(other.bits))
    }
}

impl Mul<u64> for Residue {
    type Output = Residue;

    ghost mul_gives = { λ a factor product. meaning product ≡ scaled factor (meaning a) };

    fn mul(self, factor: u64) -> Residue {
        Residue::from(self.bits.wrapping_mul(factor))
    }
}
