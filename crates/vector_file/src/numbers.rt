// Numbers one behind the other.
ghost use Rattle.std.specs.Prelude.{◌≡◌, ◌≤◌, ◌*◌, length};
ghost use Rattle.report.specs.Outcome.{Placed};
ghost use Rattle.vector_file.specs.Numbers.{numbers_bytes};

use crate::number::{number_length, write_number};

// How many bytes the numbers take. There is less than 2 ^ 60 of them, so that the sum cannot wrap.
#[tactic(auto, using(crate::proofs::Splits::numbers_size))]
pub(crate) fn numbers_length(numbers: &[u64]) -> usize
    ensures value { result ≡ length (numbers_bytes numbers.now) }
    ensures small { result ≤ 10 * length numbers.now }
{
    numbers.iter().map(|n| number_length(*n)).sum()
}

// Writes the numbers at the start of a buffer that has room for them, each into the part of it that is still free.
pub(crate) fn write_numbers(numbers: &[u64], out: &mut [u8]) -> usize
    requires { length (numbers_bytes numbers.now) ≤ length out.old }
    ensures { Placed (numbers_bytes numbers.now) out.old result out.new }
{
    match numbers {
        [] => 0,
        [n, others @ ..] => {
            let at = write_number(*n, out);
            let (_, free) = out.split_at_mut(at);
            at + write_numbers(others, free)
        }
    }
}
