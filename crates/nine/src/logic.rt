// The nine values as a search algebra.
use crate::table::{Operation, entry};
use crate::{Nine, Three};
use signal::{Algebra, SearchAlgebra};

impl Algebra for Nine {
    ghost use Rattle.std.specs.Prelude.{refl};
    ghost use Rattle.nine.specs.Nine.{nine_meaning, nine_ops, nine_words, nine_pairs, nine_constant};
    ghost use Rattle.model.proofs.OneLane.{operation_laws, word_laws};
    ghost use Rattle.nine.specs.NineValues.{nines};
    ghost use Rattle.std.proofs.Common.{rules};

    const LANES: u32 = 1;

    ghost LANES = { 1 };

    ghost meaning = { nine_meaning };

    ghost ops = { nine_ops };

    ghost words = { nine_words };

    ghost lanes = { Prim.search rules };

    ghost operations = { operation_laws nines nine_pairs nine_constant nine_ops
        (record { nonempty = refl; loads = λ w. refl; load = refl; inv = refl; and = refl; or = refl; xor = refl; stuck = refl }) };

    ghost reading = { word_laws nine_pairs };

    fn load(word: u64) -> Nine {
        let bit = if word % 2 == 1 {
            Three::One
        } else {
            Three::Zero
        };
        Nine::of(bit, bit)
    }

    // Exclusive or with (1, 1).
    fn not(self) -> Nine {
        entry(Operation::Xor, self, Nine { number: 4 })
    }

    fn and(self, other: Nine) -> Nine {
        entry(Operation::And, self, other)
    }

    fn or(self, other: Nine) -> Nine {
        entry(Operation::Or, self, other)
    }

    fn xor(self, other: Nine) -> Nine {
        entry(Operation::Xor, self, other)
    }

    fn stuck(self, at: bool) -> Nine {
        let good = self.number / 3;
        Nine {
            number: 3 * good + u8::from(at),
        }
    }

    // (0, 1) is 1 and (1, 0) is 3.
    fn difference(self) -> u64 {
        u64::from(self.number == 1 || self.number == 3)
    }

    fn good(self) -> u64 {
        u64::from(self.number / 3 == 1)
    }
}

impl SearchAlgebra for Nine {
    ghost use Rattle.nine.specs.Nine.{nine_search};
    ghost use Rattle.std.proofs.Common.{rules};

    ghost searching = { nine_search };

    ghost searches = { Prim.search rules };

    fn unknown() -> Nine {
        Nine::of(Three::X, Three::X)
    }

    fn decided(self) -> bool {
        self.number / 3 < 2 && self.number % 3 < 2
    }

    // Only (0, 0) and (1, 1) have no pair that differs.
    fn may_differ(self) -> bool {
        self.number != 0 && self.number != 4
    }
}
