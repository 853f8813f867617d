// Packed values: 64 decided lanes in two words.
#![tactic(auto)]

ghost use Rattle.std.specs.Prelude.{◌≡◌};
ghost use Rattle.packed.specs.Packed.{packed, packed_meaning, packed_ops, packed_words};
ghost use Rattle.packed.specs.PackedAlgebraLemmas.{packed_operation_laws, packed_word_laws};
ghost use Rattle.std.proofs.Common.{rules};

use signal::Algebra;

// Bit i of each word is what the good and the faulty circuit carry in lane i.
#[derive(Clone, Copy, Debug, PartialEq, Eq)]
pub struct Packed {
    good: u64,
    faulty: u64,
}

impl Packed {
    pub fn of(good: u64, faulty: u64) -> Packed
        ensures made { result ≡ packed good faulty }
    {
        Packed { good, faulty }
    }
}

impl Algebra for Packed {
    const LANES: u32 = 64;

    ghost LANES = { 64 };

    ghost meaning = { packed_meaning };

    ghost ops = { packed_ops };

    ghost words = { packed_words };

    ghost lanes = { Prim.search rules };

    ghost operations = { packed_operation_laws };

    ghost reading = { packed_word_laws };

    fn load(word: u64) -> Packed {
        Packed {
            good: word,
            faulty: word,
        }
    }

    fn not(self) -> Packed {
        Packed {
            good: !self.good,
            faulty: !self.faulty,
        }
    }

    fn and(self, other: Packed) -> Packed {
        Packed {
            good: self.good & other.good,
            faulty: self.faulty & other.faulty,
        }
    }

    fn or(self, other: Packed) -> Packed {
        Packed {
            good: self.good | other.good,
            faulty: self.faulty | other.faulty,
        }
    }

    fn xor(self, other: Packed) -> Packed {
        Packed {
            good: self.good ^ other.good,
            faulty: self.faulty ^ other.faulty,
        }
    }

    fn stuck(self, at: bool) -> Packed {
        Packed {
            good: self.good,
            faulty: if at { u64::MAX } else { 0 },
        }
    }

    fn difference(self) -> u64 {
        self.good ^ self.faulty
    }

    fn good(self) -> u64 {
        self.good // every lane is decided
    }
}
