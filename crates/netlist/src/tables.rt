// The tables of a netlist while they are laid out, with memory for as many nets and pins as the limits allow.
ghost use Rattle.std.specs.Prelude.{◌≡◌, ◌≤◌, vec_len, vec_capacity};

use arrayvec::ArrayVec;
use bench::limits::{NETS, PINS};
use circuit::net::Net;
use std::alloc::{AllocError, Global};

// The name of a net, and the line that defines it.
#[derive(Debug, Drop)]
pub struct Definition {
    pub name: ArrayVec<u8, 16>,
    pub line: usize,
}

// Definitions stand beside the nets, since a netlist hands out its nets alone, as one slice.
#[derive(Debug, Drop)]
pub struct Tables {
    pub definitions: Vec<Definition>,
    pub nets: Vec<Net>,
    pub pins: Vec<u16>,
    pub inputs: usize,
    ghost paired: { vec_len definitions ≡ vec_len nets },
    ghost definition_room: { 2048 ≤ vec_capacity definitions },
    ghost net_room: { 2048 ≤ vec_capacity nets },
    ghost pin_room: { 8192 ≤ vec_capacity pins },
}

impl Tables {
    ghost use Rattle.std.specs.Prelude.{◌≡◌, ◌<◌, ◌≤◌, ◌++◌, ◌∷◌, [], ℕ, List, length, vec_len, IfOk};
    ghost use Rattle.netlist.specs.Laid.{LaidIn};

    // Empty tables.
    pub(crate) fn new(heap: Global) -> Result<Tables, AllocError>
        ensures { IfOk result (λ t. (names : List (List ℕ)) → LaidIn names [] t) }
    {
        let definitions = Vec::with_capacity(heap, NETS)?;
        let nets = Vec::with_capacity(heap, NETS)?;
        let pins = Vec::with_capacity(heap, PINS)?;
        Ok(Tables {
            definitions,
            nets,
            pins,
            inputs: 0,
        })
    }

    // A net behind those before it.
    pub(crate) fn push(&mut self, name: &[u8], line: usize, net: Net)
        requires short { length name.now ≤ 16 }
        requires room { vec_len self.old.nets < 2048 }
        ensures definitions { self.new.definitions.items ≡ self.old.definitions.items ++ record { name = record { items = name.now }; line = line } ∷ [] }
        ensures nets { self.new.nets.items ≡ self.old.nets.items ++ net ∷ [] }
        ensures pins { self.new.pins ≡ self.old.pins }
        ensures inputs { self.new.inputs ≡ self.old.inputs }
    {
        let name = ArrayVec::try_from(name).unwrap();
        self.definitions.push_reserved(Definition { name, line });
        self.nets.push_reserved(net);
    }
}
