// Muth's nine values (1976): what the good circuit carries and what the faulty one does, each 0, 1 or X.
#![tactic(auto)]

ghost use Rattle.std.specs.Prelude.{◌<◌};

pub mod logic;
mod table;
pub mod three;

pub use three::Three;

// The number 3g + f, with X as 2: a rule of the project wants each result read off one table over these numbers.
#[derive(Clone, Copy, Debug, PartialEq, Eq)]
pub struct Nine {
    number: u8,
    ghost nine: { number < 9 },
}

impl Nine {
    ghost use Rattle.std.specs.Prelude.{◌≡◌};
    ghost use Rattle.nine.specs.Nine.{value};

    pub fn of(good: Three, faulty: Three) -> Nine
        ensures valued { result ≡ value good faulty }
    {
        Nine {
            number: 3 * u8::from(good) + u8::from(faulty),
        }
    }

    pub fn number(self) -> u8
        ensures numbered { result ≡ self.number }
    {
        self.number // 3g + f, with X as 2
    }
}
