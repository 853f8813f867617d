// The one refusal of a call that writes into a lent buffer.
ghost use Rattle.std.specs.Prelude.{◌≡◌, Some, codes};
ghost use Rattle.model.specs.Refusals.{refusal};

use model::refusal::Refusal;
use std::error::Error;
use std::fmt;

// The buffer is shorter than what is to be written.
#[derive(Clone, Copy, Debug, PartialEq, Eq)]
pub struct ShortBuffer;

impl fmt::Display for ShortBuffer {
    ghost output = { λ _. Some (codes "a line does not fit its buffer") };

    fn fmt<W: fmt::Write>(&self, f: &mut fmt::Formatter<W>) -> fmt::Result {
        f.write_str("a line does not fit its buffer")
    }
}

impl Error for ShortBuffer {}

// Refusal 1, about no line.
impl From<ShortBuffer> for Refusal {
    ghost from_gives = { λ _ r. r ≡ refusal 1 0 };

    fn from(_short: ShortBuffer) -> Refusal {
        Refusal::new(1, 0)
    }
}
