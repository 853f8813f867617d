// Pieces of text one behind the other.
ghost use Rattle.std.specs.Prelude.{◌≡◌, ◌<◌, ◌≤◌, ◌^◌, ◌++◌, length, drop, sum_by};
ghost use Rattle.report.specs.Outcome.{Written};
ghost use Rattle.report.specs.Pieces.{joined};

use crate::short::ShortBuffer;

// Writes the pieces at the start of a buffer that has room for them, each into the part of it that is still free.
// Not by `write!`: no clause says when that answers an error, and not in a loop: there it is unknown what the whole buffer ends as.
fn put(out: &mut [u8], pieces: &[&str])
    requires { length (joined pieces.now) ≤ length out.old }
    ensures { out.new ≡ joined pieces.now ++ drop (length (joined pieces.now)) out.old }
{
    if let [piece, others @ ..] = pieces {
        let (front, free) = out.split_at_mut(piece.len());
        front.copy_from_slice(piece.as_bytes());
        put(free, others);
    }
}

// Writes the pieces at the start of a buffer, or nothing where it is too short.
#[tactic(auto, using(crate::proofs::Joined::joined_length))]
pub(crate) fn write(out: &mut [u8], pieces: &[&str]) -> Result<usize, ShortBuffer>
    requires { sum_by (λ piece. length piece.now) pieces.now < 2 ^ 64 }
    ensures { Written (joined pieces.now) out.old result out.new }
{
    let length = pieces.iter().map(|piece| piece.len()).sum();
    if out.len() < length {
        return Err(ShortBuffer);
    }
    put(out, pieces);
    Ok(length)
}
