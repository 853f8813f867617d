// Roth's five values (1966): 0, 1, D where only the good circuit carries 1, E (D with a bar) where only the
// faulty one does, and X where anything may be.
#![tactic(auto)]

ghost use Rattle.five.specs.Five.{five_meaning, five_ops, five_words, five_search, five_pairs, five_constant};
ghost use Rattle.std.specs.Prelude.{refl};
ghost use Rattle.model.proofs.OneLane.{operation_laws, word_laws};
ghost use Rattle.five.specs.FiveAlgebraLemmas.{fives};
ghost use Rattle.std.proofs.Common.{rules};

use signal::{Algebra, SearchAlgebra};

#[derive(Clone, Copy, Debug, PartialEq, Eq)]
pub enum Five {
    Zero,
    One,
    D,
    E,
    X,
}

impl Algebra for Five {
    const LANES: u32 = 1;

    ghost LANES = { 1 };

    ghost meaning = { five_meaning };

    ghost ops = { five_ops };

    ghost words = { five_words };

    ghost lanes = { Prim.search rules };

    ghost operations = { operation_laws fives five_pairs five_constant five_ops
        (record { nonempty = refl; loads = λ w. refl; load = refl; inv = refl; and = refl; or = refl; xor = refl; stuck = refl }) };

    ghost reading = { word_laws five_pairs };

    fn load(word: u64) -> Five {
        if word % 2 == 1 { Five::One } else { Five::Zero }
    }

    fn not(self) -> Five {
        match self {
            Five::Zero => Five::One,
            Five::One => Five::Zero,
            Five::D => Five::E,
            Five::E => Five::D,
            Five::X => Five::X,
        }
    }

    fn and(self, other: Five) -> Five {
        match (self, other) {
            (Five::Zero, _) | (_, Five::Zero) => Five::Zero,
            (Five::One, v) | (v, Five::One) => v,
            (Five::X, _) | (_, Five::X) => Five::X,
            (Five::D, Five::D) => Five::D,
            (Five::E, Five::E) => Five::E,
            (Five::D, Five::E) | (Five::E, Five::D) => Five::Zero,
        }
    }

    fn or(self, other: Five) -> Five {
        match (self, other) {
            (Five::One, _) | (_, Five::One) => Five::One,
            (Five::Zero, v) | (v, Five::Zero) => v,
            (Five::X, _) | (_, Five::X) => Five::X,
            (Five::D, Five::D) => Five::D,
            (Five::E, Five::E) => Five::E,
            (Five::D, Five::E) | (Five::E, Five::D) => Five::One,
        }
    }

    fn xor(self, other: Five) -> Five {
        match (self, other) {
            (Five::X, _) | (_, Five::X) => Five::X,
            (Five::Zero, v) | (v, Five::Zero) => v,
            (Five::One, v) | (v, Five::One) => v.not(),
            (Five::D, Five::D) | (Five::E, Five::E) => Five::Zero,
            (Five::D, Five::E) | (Five::E, Five::D) => Five::One,
        }
    }

    fn stuck(self, at: bool) -> Five {
        match (self, at) {
            (Five::X, _) => Five::X,
            (Five::Zero | Five::E, false) => Five::Zero,
            (Five::Zero | Five::E, true) => Five::E,
            (Five::One | Five::D, false) => Five::D,
            (Five::One | Five::D, true) => Five::One,
        }
    }

    fn difference(self) -> u64 {
        u64::from(matches!(self, Five::D | Five::E))
    }

    fn good(self) -> u64 {
        u64::from(matches!(self, Five::One | Five::D))
    }
}

impl SearchAlgebra for Five {
    ghost searching = { five_search };

    ghost searches = { Prim.search rules };

    fn unknown() -> Five {
        Five::X // all four pairs
    }

    fn decided(self) -> bool {
        !matches!(self, Five::X)
    }

    fn may_differ(self) -> bool {
        matches!(self, Five::D | Five::E | Five::X)
    }
}
