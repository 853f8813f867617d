// The algebras as another crate sees them: generic code over the interface, an algebra of its own, and worked rows.
#![tactic(auto)]

ghost use Rattle.std.specs.Prelude.{◌≡◌, ◌-◌, ◌^◌};

use pair::Pair;
use signal::Algebra;

pub mod pair;

// A word with a 1 for each lane.
pub fn lane_mask<A: Algebra>() -> u64
    ensures mask { result ≡ 2 ^ A.meaning.lanes - 1 }
{
    u64::MAX >> (64 - A::LANES)
}

pub fn pair_mask() -> u64
    ensures mask { result ≡ 1 }
{
    lane_mask::<Pair>()
}

#[cfg(test)]
mod rows;
