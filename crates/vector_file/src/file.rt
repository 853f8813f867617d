// The file: the format's number, how many inputs, outputs and vectors there are, then each vector with its response.
ghost use Rattle.std.specs.Prelude.{◌≡◌, ◌+◌, ◌<◌, length, MatchOption};
ghost use Rattle.report.specs.Outcome.{Written};
ghost use Rattle.vector_file.specs.Files.{header_numbers, file_bytes, EqualFilesEqualDecks};

use crate::entry::Entry;
use crate::numbers::{numbers_length, write_numbers};
use report::short::ShortBuffer;

// The number of this format.
const FORMAT: u64 = 1;

// How many inputs and outputs the circuit has, and its deck.
#[derive(Clone, Copy, Debug, PartialEq, Eq)]
pub struct VectorFile<'a> {
    pub inputs: usize,
    pub outputs: usize,
    pub deck: &'a [Entry],
}

impl VectorFile<'_> {
    // What stands before the vectors. The check proves that `as` loses no bits, and a `try_from` with its `unwrap` is no plainer.
    fn header(&self) -> [u64; 4]
        ensures { result ≡ header_numbers self.now.inputs self.now.outputs (length self.now.deck.now) }
    {
        [
            FORMAT,
            self.inputs as u64,
            self.outputs as u64,
            self.deck.len() as u64,
        ]
    }

    // How much of a room is left behind the file; none where the room is too short, as soon as that shows.
    fn room_behind(&self, room: usize) -> Option<usize>
        ensures { MatchOption result (room < length (file_bytes self.now.inputs self.now.outputs self.now.deck.now)) (λ left. left + length (file_bytes self.now.inputs self.now.outputs self.now.deck.now) ≡ room) }
    {
        let mut left = room.checked_sub(numbers_length(&self.header()))?;
        for entry in self.deck {
            left = left.checked_sub(entry.length())?;
        }
        Some(left)
    }

    // Writes the file at the start of a buffer, or nothing where it is too short.
    #[tactic(auto, using(crate::proofs::Splits::split_room))]
    pub fn write(&self, out: &mut [u8]) -> Result<usize, ShortBuffer>
        ensures written { Written (file_bytes self.now.inputs self.now.outputs self.now.deck.now) out.old result out.new }
        ensures equal_files_equal_decks { EqualFilesEqualDecks self.now.inputs self.now.outputs self.now.deck.now }
    {
        if self.room_behind(out.len()).is_none() {
            return Err(ShortBuffer);
        }
        let mut at = write_numbers(&self.header(), out);
        // Not by a walk that keeps the free rest alone: it is unknown then what the whole buffer ends as.
        for entry in self.deck {
            at += write_numbers(&<[u64; 2]>::from(*entry), &mut out[at..]);
        }
        Ok(at)
    }
}
