// Signal algebras: values that stand for what a place of the good and of the faulty circuit may carry.
// Evaluation and search are written once over these interfaces and rest on the laws alone.
#![tactic(auto)]

ghost use Rattle.std.specs.Prelude.{◌≡◌, ℕ};
ghost use Rattle.model.specs.Operations.{Ops};
ghost use Rattle.model.specs.Meaning.{Meaning};
ghost use Rattle.model.specs.OperationLaws.{OperationLaws};
ghost use Rattle.model.specs.WordLaws.{Words, WordLaws};
ghost use Rattle.model.specs.SearchLaws.{Search, SearchLaws};
ghost use Rattle.model.specs.ShutOut.{ShutsOutUnknownAnd, ShutsOutNeverDiffers};

pub trait Algebra: Copy {
    // The number of lanes, from 1 to 64.
    const LANES: u32;

    // The same number, for clauses.
    ghost LANES: { ℕ };

    ghost meaning: { Meaning Self };

    ghost ops: { Ops Self };

    ghost words: { Words Self };

    // Bit i of the word, in both circuits, in lane i.
    fn load(word: u64) -> Self
        ensures loaded { result ≡ ops.load word };

    fn not(self) -> Self
        ensures negation { result ≡ ops.inv self };

    fn and(self, other: Self) -> Self
        ensures conjunction { result ≡ ops.and self other };

    fn or(self, other: Self) -> Self
        ensures disjunction { result ≡ ops.or self other };

    fn xor(self, other: Self) -> Self
        ensures parity { result ≡ ops.xor self other };

    // The value with the faulty circuit stuck at a bit.
    fn stuck(self, at: bool) -> Self
        ensures forced { result ≡ ops.stuck at self };

    // The lanes in which the circuits surely differ.
    fn difference(self) -> u64
        ensures differing { result ≡ words.difference self };

    // The lanes in which the good circuit surely carries 1.
    fn good(self) -> u64
        ensures ones { result ≡ words.good self };

    // The laws, which each impl proves; as such they stand below the last function.
    ghost lanes: { meaning.lanes ≡ LANES };

    ghost operations: { OperationLaws meaning ops };

    ghost reading: { WordLaws meaning words };
}

// What a search for one test asks of lane 0.
pub trait SearchAlgebra: Algebra {
    ghost searching: { Search Self };

    fn unknown() -> Self
        ensures anything { result ≡ searching.unknown };

    fn decided(self) -> bool
        ensures single { result ≡ searching.decided self };

    fn may_differ(self) -> bool
        ensures possible { result ≡ searching.may_differ self };

    // The law, below the last function.
    ghost searches: { SearchLaws Self.Algebra.meaning searching };
}

// What the laws shut out, whatever the values are: an `and` that is always unknown, and a `may_differ` that always
// says no.
#[tactic(auto, using(model::proofs::ShutOut::unknown_and, model::proofs::ShutOut::never_differs))]
pub fn shuts_out_empty_answers<V>()
    ensures no_unknown_and { ShutsOutUnknownAnd V }
    ensures no_blind_may_differ { ShutsOutNeverDiffers V }
{}
