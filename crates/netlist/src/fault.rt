// What a load is refused for; a line by its number.
ghost use Rattle.std.specs.Prelude.{◌≡◌};
ghost use Rattle.netlist.specs.Refusing.{load_refusal};
ghost use Rattle.netlist.specs.declared.fault.LoadFault.TheVariants.{Memory, Statement};

use bench::fault::StatementFault;
use model::refusal::Refusal;
use std::alloc::AllocError;

#[derive(Clone, Copy, Debug, PartialEq, Eq)]
pub enum LoadFault {
    Memory,
    FewCells,
    Statement(StatementFault),
    UndefinedOperand(usize),
    UndefinedOutput(usize),
    NoPort,
    Circle(usize),
}

impl From<StatementFault> for LoadFault {
    ghost from_gives = { λ e r. r ≡ Statement e };

    fn from(e: StatementFault) -> LoadFault {
        LoadFault::Statement(e)
    }
}

impl From<AllocError> for LoadFault {
    ghost from_gives = { λ _ r. r ≡ Memory };

    fn from(_e: AllocError) -> LoadFault {
        LoadFault::Memory // no other fault has number 0
    }
}

// The number, the line and the layer of a refusal.
impl From<LoadFault> for Refusal {
    ghost from_gives = { λ fault r. r ≡ load_refusal fault };

    fn from(fault: LoadFault) -> Refusal {
        match fault {
            LoadFault::Memory => Refusal::new(0, 0),
            LoadFault::FewCells => Refusal::new(1, 0),
            LoadFault::Statement(fault) => Refusal::from(fault),
            LoadFault::UndefinedOperand(line) => Refusal::new(10, line),
            LoadFault::UndefinedOutput(line) => Refusal::new(11, line),
            LoadFault::NoPort => Refusal::new(12, 0),
            LoadFault::Circle(line) => Refusal::new(13, line),
        }
    }
}
