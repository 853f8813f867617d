// What the text layer refuses; a line by its number.
ghost use Rattle.std.specs.Prelude.{◌≡◌};
ghost use Rattle.text.specs.Faults.{text_refusal};

use model::refusal::Refusal;

#[derive(Clone, Copy, Debug, PartialEq, Eq)]
pub enum TextFault {
    TooLong,
    NoStatement(usize),
    LongName(usize),
}

impl From<TextFault> for Refusal {
    ghost from_gives = { λ e r. r ≡ text_refusal e };

    fn from(e: TextFault) -> Refusal {
        match e {
            TextFault::TooLong => Refusal::new(2, 0),
            TextFault::NoStatement(line) => Refusal::new(3, line),
            TextFault::LongName(line) => Refusal::new(4, line),
        }
    }
}
