// A whole netlist: its names, nets, pins and outputs, what reads each net, and an order in which each gate stands behind
// what it reads.
ghost use Rattle.std.specs.Prelude.{◌≡◌, true, length};
ghost use Rattle.std.proofs.Props.{props};
ghost use Rattle.grammar.specs.Proper.{Distinct};
ghost use Rattle.circuit.specs.Listed.{Complete, Follows};
ghost use Rattle.circuit.specs.Tables.{cells_of, tables_fit};
ghost use Rattle.netlist.specs.Names.{names_of};
ghost use Rattle.netlist.specs.Readers.{ListsReaders};

use crate::resolve::Parts;
use crate::tables::Definition;
use circuit::net::Net;
use model::counts::Counts;
use std::alloc::Global;

// Definitions stand beside the nets, since the nets are handed out alone, as one slice.
#[derive(Debug, Drop)]
pub struct Netlist {
    definitions: Vec<Definition>,
    nets: Vec<Net>,
    pins: Vec<u16>,
    inputs: usize,
    outputs: Vec<u16>,
    order: Vec<u16>,
    readers: Vec<Vec<u16>>,
    ghost fits: { tables_fit inputs nets.items pins.items outputs.items ≡ true },
    ghost named: { length definitions.items ≡ length nets.items },
    ghost distinct: { Distinct (names_of definitions.items) } by { Prim.hlevel props },
    ghost read: { ListsReaders (cells_of nets.items pins.items) readers.items } by { Prim.hlevel props },
    ghost size: { length order.items ≡ length nets.items },
    ghost follows: { Follows (cells_of nets.items pins.items) order.items },
    ghost complete: { Complete (cells_of nets.items pins.items) order.items },
}

impl Netlist {
    ghost use Rattle.std.specs.Prelude.{◌≡◌, true};
    ghost use Rattle.grammar.specs.Proper.{Distinct};
    ghost use Rattle.circuit.specs.Circles.{Sorted};
    ghost use Rattle.circuit.specs.Tables.{cells_of, tables_fit};
    ghost use Rattle.netlist.specs.Names.{names_of};
    ghost use Rattle.netlist.specs.Readers.{ListsReaders};
    ghost use Rattle.netlist.specs.Views.{Empty, Named, ReadBy, counts_in, names_in, netlist_in, nets_in, order_in, pins_in};

    // A netlist of checked tables.
    pub(crate) fn of(parts: Parts, order: Vec<u16>, readers: Vec<Vec<u16>>) -> Netlist
        requires fits { tables_fit parts.tables.inputs parts.tables.nets.items parts.tables.pins.items parts.outputs.items ≡ true }
        requires distinct { Distinct (names_of parts.tables.definitions.items) }
        requires readers { ListsReaders (cells_of parts.tables.nets.items parts.tables.pins.items) readers.items }
        requires sorted { Sorted (cells_of parts.tables.nets.items parts.tables.pins.items) order.items }
        ensures names { names_in result ≡ names_of parts.tables.definitions.items }
        ensures pins { pins_in result ≡ parts.tables.pins.items }
        ensures netlist { netlist_in result ≡ record { inputs = parts.tables.inputs; cells = cells_of parts.tables.nets.items parts.tables.pins.items; outputs = parts.outputs.items } }
    {
        let Parts { tables, outputs } = parts;
        Netlist {
            definitions: tables.definitions,
            nets: tables.nets,
            pins: tables.pins,
            inputs: tables.inputs,
            outputs,
            order,
            readers,
        }
    }

    // The netlist without nets.
    pub fn empty(heap: Global) -> Netlist
        ensures { Empty result }
    {
        Netlist {
            definitions: Vec::new(heap),
            nets: Vec::new(heap),
            pins: Vec::new(heap),
            inputs: 0,
            outputs: Vec::new(heap),
            order: Vec::new(heap),
            readers: Vec::new(heap),
        }
    }

    pub fn counts(&self) -> Counts
        ensures { result ≡ counts_in self.now }
    {
        Counts {
            nets: self.nets.len(),
            inputs: self.inputs,
            outputs: self.outputs.len(),
            pins: self.pins.len(),
        }
    }

    // What defines each net, net by net.
    pub fn nets(&self) -> &[Net]
        ensures { result.now ≡ nets_in self.now }
    {
        self.nets.as_slice()
    }

    // The net that each pin reads, pin by pin.
    pub fn pins(&self) -> &[u16]
        ensures { result.now ≡ pins_in self.now }
    {
        self.pins.as_slice()
    }

    // The nets that the tester sees, in the order of the OUTPUT lines.
    pub fn outputs(&self) -> &[u16]
        ensures { result.now ≡ (netlist_in self.now).outputs }
    {
        self.outputs.as_slice()
    }

    // Every net once, each behind what it reads.
    pub fn order(&self) -> &[u16]
        ensures { result.now ≡ order_in self.now }
    {
        self.order.as_slice()
    }

    // The nets that read a net, in line order, each once; none where there is no such net.
    pub fn readers(&self, net: usize) -> Option<&[u16]>
        ensures { ReadBy self.now net result }
    {
        let readers = self.readers.get(net)?;
        Some(readers.as_slice())
    }

    // The name of a net; none where there is no such net.
    pub fn name(&self, net: usize) -> Option<&[u8]>
        ensures { Named self.now net result }
    {
        let definition = self.definitions.get(net)?;
        Some(definition.name.as_slice())
    }
}
