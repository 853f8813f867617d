// An algebra of one decided lane, written outside the crate of the interface.
// A type of its own beside `Packed`, since the test is that another crate can write an algebra by itself.
ghost use Rattle.signal_tests.specs.Pair.{pair_meaning, pair_ops, pair_words, pair, one_pair};
ghost use Rattle.std.specs.Prelude.{refl};
ghost use Rattle.model.proofs.OneLane.{operation_laws, word_laws};
ghost use Rattle.signal_tests.specs.PairAlgebraLemmas.{finite};
ghost use Rattle.std.proofs.Common.{rules};

use signal::Algebra;

#[derive(Clone, Copy, Debug, PartialEq, Eq)]
pub struct Pair {
    good: bool,
    faulty: bool,
}

impl Algebra for Pair {
    const LANES: u32 = 1;

    ghost LANES = { 1 };

    ghost meaning = { pair_meaning };

    ghost ops = { pair_ops };

    ghost words = { pair_words };

    ghost lanes = { Prim.search rules };

    ghost operations = { operation_laws finite one_pair (λ b. pair b b) pair_ops
        (record { nonempty = refl; loads = λ w. refl; load = refl; inv = refl; and = refl; or = refl; xor = refl; stuck = refl }) };

    ghost reading = { word_laws one_pair };

    fn load(word: u64) -> Pair {
        let bit = word % 2 == 1;
        Pair {
            good: bit,
            faulty: bit,
        }
    }

    fn not(self) -> Pair {
        Pair {
            good: !self.good,
            faulty: !self.faulty,
        }
    }

    fn and(self, other: Pair) -> Pair {
        Pair {
            good: self.good & other.good,
            faulty: self.faulty & other.faulty,
        }
    }

    fn or(self, other: Pair) -> Pair {
        Pair {
            good: self.good | other.good,
            faulty: self.faulty | other.faulty,
        }
    }

    fn xor(self, other: Pair) -> Pair {
        Pair {
            good: self.good ^ other.good,
            faulty: self.faulty ^ other.faulty,
        }
    }

    fn stuck(self, at: bool) -> Pair {
        Pair {
            good: self.good,
            faulty: at,
        }
    }

    fn difference(self) -> u64 {
        u64::from(self.good != self.faulty)
    }

    fn good(self) -> u64 {
        u64::from(self.good)
    }
}
