// One step of a deck: the vector that the tester drives, and the good output bits that it expects.
ghost use Rattle.std.specs.Prelude.{◌≡◌, ◌≤◌, length};
ghost use Rattle.vector_file.specs.Files.{entry_numbers_of};
ghost use Rattle.vector_file.specs.Numbers.{numbers_bytes};

use crate::numbers::numbers_length;

#[derive(Clone, Copy, Debug, PartialEq, Eq)]
pub struct Entry {
    pub vector: u64,
    pub response: u64,
}

impl Entry {
    // How many bytes it takes in a file.
    pub(crate) fn length(&self) -> usize
        ensures value { result ≡ length (numbers_bytes (entry_numbers_of self.now)) }
        ensures small { result ≤ 20 }
    {
        numbers_length(&<[u64; 2]>::from(*self))
    }
}

// The numbers that stand for it in a file.
impl From<Entry> for [u64; 2] {
    ghost from_gives = { λ entry numbers. numbers ≡ entry_numbers_of entry };

    fn from(entry: Entry) -> [u64; 2] {
        [entry.vector, entry.response]
    }
}
