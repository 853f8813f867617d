// The order of a netlist's nets.
ghost use Rattle.std.specs.Prelude.{◌≡◌, ◌≤◌, length};
ghost use Rattle.netlist.specs.Accepted.{declared_in};
ghost use Rattle.netlist.specs.Building.{Resolved, OrdersAll};

use crate::accepted::Accepted;
use crate::fault::LoadFault;
use crate::resolve::Parts;
use order::arrange;
use order::gates::Gates;
use std::alloc::Global;
use walk::mark::Mark;

// What each net reads.
pub(crate) fn gates_in<'p>(text: Accepted<'_, '_>, parts: &'p Parts) -> Gates<'p>
    requires { Resolved (declared_in text) parts.now }
    ensures nets { result.nets.now ≡ parts.now.tables.nets.items }
    ensures pins { result.pins.now ≡ parts.now.tables.pins.items }
{
    Gates {
        nets: parts.tables.nets.as_slice(),
        pins: parts.tables.pins.as_slice(),
    }
}

// An order of the nets, each behind what it reads; or the first gate that depends on a circle. The text is there for the
// clauses, which speak of its declarations.
pub(crate) fn find_order(
    heap: Global,
    text: Accepted<'_, '_>,
    parts: &Parts,
    cells: &mut [u16],
) -> Result<Vec<u16>, LoadFault>
    requires resolved { Resolved (declared_in text) parts.now }
    requires room { 2048 ≤ length cells.old }
    ensures { OrdersAll (declared_in text.entry) result }
{
    let gates = gates_in(text, parts);
    let count = gates.nets.len();
    let mut order = Vec::with_capacity(heap, count)?;
    let mut marks = vec![in heap; Mark::New; count]?;
    match arrange(gates, cells, marks.as_mut_slice(), &mut order) {
        Ok(()) => Ok(order),
        Err(circle) => {
            let definition = &parts.tables.definitions[circle.net as usize]; // 16 bits always fit
            Err(LoadFault::Circle(definition.line))
        }
    }
}
