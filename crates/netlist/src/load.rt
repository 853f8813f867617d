// From .bench text to a netlist.
ghost use Rattle.std.specs.Prelude.{◌≤◌, length};
ghost use Rattle.netlist.specs.Accepted.{declared_in};
ghost use Rattle.netlist.specs.Loading.{Builds, Loads, Makes};

use crate::accepted::Accepted;
use crate::arrange::{find_order, gates_in};
use crate::fault::LoadFault;
use crate::limits::{CELLS, LINKS};
use crate::readers::list_readers;
use crate::resolve::resolve;
use crate::whole::Netlist;
use bench::declarations::Declarations;
use std::alloc::Global;

// The netlist that the declarations of a text stand for.
fn build(heap: Global, text: Accepted<'_, '_>, cells: &mut [u16]) -> Result<Netlist, LoadFault>
    requires { 2048 ≤ length cells.old }
    ensures { Builds (declared_in text.entry) result }
{
    let parts = resolve(heap, text)?;
    let order = find_order(heap, text, &parts, cells)?;
    let readers = list_readers(heap, gates_in(text, &parts))?;
    Ok(Netlist::of(parts, order, readers))
}

// The netlist that a text declares.
fn make(
    heap: Global,
    text: &[u8],
    cells: &mut [u16],
    links: &mut [u16],
) -> Result<Netlist, LoadFault>
    ensures { Makes text.now (length cells.old) (length links.old) result }
{
    if cells.len() < CELLS || links.len() < LINKS {
        return Err(LoadFault::FewCells);
    }
    let mut declarations = Declarations::new(heap)?;
    declarations.read(text)?;
    let accepted = Accepted {
        declarations: &declarations,
    };
    build(heap, accepted, cells)
}

impl Netlist {
    // Reads a text and holds the netlist that it declares; after a refusal it is the empty netlist. The host lends cells and
    // links apart, and refusal 1 counts them apart.
    pub fn load(
        &mut self,
        heap: Global,
        text: &[u8],
        cells: &mut [u16],
        links: &mut [u16],
    ) -> Result<(), LoadFault>
        ensures { Loads text.now (length cells.old) (length links.old) result self.new }
    {
        *self = Netlist::empty(heap);
        *self = make(heap, text, cells, links)?;
        Ok(())
    }
}
