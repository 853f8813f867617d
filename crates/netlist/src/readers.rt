// The nets that read each net.
ghost use Rattle.std.specs.Prelude.{[], ◌<◌, ◌+◌, length, OnOk, IfOk};
ghost use Rattle.order.specs.Cells.{cells_in};
ghost use Rattle.netlist.specs.Readers.{ListsReaders, ReadSoFar};

use order::gates::Gates;
use std::alloc::{AllocError, Global};

// A net more among the readers of what it reads; where it reads a net at two places it stands once.
fn add_net(gates: Gates<'_>, net: u16, readers: &mut Vec<Vec<u16>>) -> Result<(), AllocError>
    requires net { net < length gates.nets.now }
    requires so_far { ReadSoFar (cells_in gates) net [] readers.old.items }
    ensures { OnOk result (ReadSoFar (cells_in gates.entry) (net + 1) [] readers.new.items) }
{
    for read in gates.operands(net).unwrap() {
        let own = &mut readers[*read as usize];
        if !own.ends_with(&[net]) {
            own.push(net)?;
        }
    }
    Ok(())
}

// The nets that read each net, in line order.
pub(crate) fn list_readers(heap: Global, gates: Gates<'_>) -> Result<Vec<Vec<u16>>, AllocError>
    ensures { IfOk result (λ r. ListsReaders (cells_in gates.entry) r.items) }
{
    let mut readers = Vec::with_capacity(heap, gates.nets.len())?;
    for _ in gates.nets {
        readers.push_reserved(Vec::new(heap));
    }
    for net in 0..gates.nets.len() {
        add_net(gates, net as u16, &mut readers)?;
    }
    Ok(readers)
}
