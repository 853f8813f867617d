// Chains through a table of keys: where each key stands first, and behind each place the next one with the same key.
// The pins that read a net and the faults of a class are such chains.
#![tactic(auto)]

ghost use Rattle.std.specs.Prelude.{◌≡◌, ℕ, ◌<◌, ◌≤◌, length, slice_index};
ghost use Rattle.std.specs.Bool.{OnTrue, OnFalse};
ghost use Rattle.chains.specs.Chains.{Chained};
ghost use Rattle.chains.specs.Chaining.{AllBelow, ChainsOf};
ghost use Rattle.chains.specs.declared.ChainFault.TheVariants.{Memory};

use std::alloc::{AllocError, Global};

// The number of keys stands for no place, and not `None`: fixed links of 16 bits are a rule of the project.
#[derive(Debug, PartialEq, Eq, Drop)]
pub struct Chains {
    pub first: Vec<u16>,
    pub next: Vec<u16>,
}

impl Chains {
    // Puts each place before those of its key, from the last one on.
    #[tactic(auto, using(crate::proofs::Places::place_end, crate::proofs::Places::place_here, crate::proofs::Places::place_later))]
    fn link(&mut self, keys: &[u16], places: u16)
        requires places { places ≡ length keys.now }
        requires keys { AllBelow keys.now (length self.old.first.items) }
        requires unseen { (k : ℕ) → k < length self.old.first.items → slice_index self.old.first.items k ≡ places }
        requires sizes { length self.old.next.items ≡ places }
        ensures { Chained keys.now (length self.old.first.items) self.new.first.items self.new.next.items }
    {
        for at in (0..places).rev() {
            let key = usize::from(keys[usize::from(at)]);
            self.next[usize::from(at)] = self.first[key];
            self.first[key] = at;
        }
    }
}

// Why a table has no chains: no memory for them, more keys than places have numbers, or a key not below the count.
#[derive(Clone, Copy, Debug, PartialEq, Eq)]
pub enum ChainFault {
    Memory,
    ManyKeys,
    HighKey,
}

impl From<AllocError> for ChainFault {
    ghost from_gives = { λ _ r. r ≡ Memory };

    fn from(_e: AllocError) -> ChainFault {
        ChainFault::Memory
    }
}

fn all_below(keys: &[u16], count: usize) -> bool
    ensures yes { OnTrue result (AllBelow keys.now count) }
    ensures no { OnFalse result ((i : ℕ) × (i < length keys.now) × (count ≤ slice_index keys.now i)) }
{
    keys.iter().all(|key| usize::from(*key) < count)
}

// The chains of a table of at most 65,535 keys, all below count.
pub fn chain(heap: Global, keys: &[u16], count: usize) -> Result<Chains, ChainFault>
    ensures { ChainsOf keys.now count result }
{
    let places = u16::try_from(keys.len()).map_err(|_| ChainFault::ManyKeys)?;
    if !all_below(keys, count) {
        return Err(ChainFault::HighKey);
    }
    let mut chains = Chains {
        first: vec![in heap; places; count]?,
        next: vec![in heap; places; keys.len()]?,
    };
    chains.link(keys, places);
    Ok(chains)
}
