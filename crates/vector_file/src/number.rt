// Numbers in groups of seven bits.
ghost use Rattle.std.specs.Prelude.{◌≡◌, ◌≤◌, length};
ghost use Rattle.report.specs.Outcome.{Placed};
ghost use Rattle.vector_file.specs.Numbers.{number_bytes};

// How many groups a number has. Counted by recursion, as the groups are defined: `successors` with a `count` is no plainer.
#[tactic(auto, using(crate::proofs::Groups::bytes_small, crate::proofs::Groups::bytes_more, crate::proofs::Groups::word_length))]
pub(crate) fn number_length(n: u64) -> usize
    ensures { result ≡ length (number_bytes n) }
{
    if n < 128 {
        1
    } else {
        number_length(n / 128) + 1
    }
}

// Writes a number at the start of a buffer that has room for it, each group into the part of it that is still free.
#[tactic(auto, using(crate::proofs::Groups::bytes_small, crate::proofs::Groups::bytes_more, crate::proofs::Groups::some_byte))]
pub(crate) fn write_number(n: u64, out: &mut [u8]) -> usize
    requires { length (number_bytes n) ≤ length out.old }
    ensures { Placed (number_bytes n) out.old result out.new }
{
    let (lowest, free) = out.split_at_mut(1);
    if n < 128 {
        lowest[0] = n as u8;
        return 1;
    }
    lowest[0] = (n % 128) as u8 + 128;
    1 + write_number(n / 128, free)
}
