// What the text and its statements are refused for; a line by its number.
ghost use Rattle.std.specs.Prelude.{◌≡◌};
ghost use Rattle.bench.specs.declared.fault.StatementFault.TheVariants.{Text};
ghost use Rattle.bench.specs.Faults.{statement_refusal};

use model::refusal::Refusal;
use text::fault::TextFault;

#[derive(Clone, Copy, Debug, PartialEq, Eq)]
pub enum StatementFault {
    Text(TextFault),
    UnknownKind(usize),
    OperandCount(usize),
    DefinedBefore(usize),
    ListedBefore(usize),
    BeyondLimit(usize),
}

impl From<TextFault> for StatementFault {
    ghost from_gives = { λ e r. r ≡ Text e };

    fn from(e: TextFault) -> StatementFault {
        StatementFault::Text(e)
    }
}

// The number, the line and the layer of a refusal.
impl From<StatementFault> for Refusal {
    ghost from_gives = { λ e r. r ≡ statement_refusal e };

    fn from(e: StatementFault) -> Refusal {
        match e {
            StatementFault::Text(fault) => Refusal::from(fault),
            StatementFault::UnknownKind(line) => Refusal::new(5, line),
            StatementFault::OperandCount(line) => Refusal::new(6, line),
            StatementFault::DefinedBefore(line) => Refusal::new(7, line),
            StatementFault::ListedBefore(line) => Refusal::new(8, line),
            StatementFault::BeyondLimit(line) => Refusal::new(9, line),
        }
    }
}
