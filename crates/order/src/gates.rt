// What each net reads.
ghost use Rattle.std.specs.Prelude.{◌<◌, ◌≤◌, length};
ghost use Rattle.circuit.specs.Tables.{AllFormed};
ghost use Rattle.circuit.proofs.Formed.{all_formed_prop};

use circuit::net::Net;

// The nets and the net that each pin reads: each gate's pins are among the pins, and each reads one of the nets. A net is a plain
// number, as in every table, so that each function says that its own is one of these.
#[derive(Clone, Copy, Debug, PartialEq, Eq)]
pub struct Gates<'a> {
    pub nets: &'a [Net],
    pub pins: &'a [u16],
    ghost formed: { AllFormed nets.now pins.now } by { all_formed_prop nets.now pins.now },
    ghost few: { length nets.now ≤ 65536 },
}

impl<'a> Gates<'a> {
    ghost use Rattle.std.specs.Prelude.{◌≡◌, ◌<◌, ◌≤◌, length, slice_index};
    ghost use Rattle.circuit.specs.Circuit.{operands_at};
    ghost use Rattle.order.specs.Cells.{cells_in, Reads};

    // What a net reads, operand by operand; none where there is no such net.
    pub fn operands(self, net: u16) -> Option<&'a [u16]>
        ensures { Reads self.entry net result }
    {
        match *self.nets.get(net as usize)? {
            Net::Input(_) => Some(&[]),
            Net::Gate(_, first, count) => {
                let start = first as usize;
                Some(&self.pins[start..start + count as usize])
            }
        }
    }

    // How many operands a net has.
    pub(crate) fn count(self, net: u16) -> u16
        requires { net < length self.nets.now }
        ensures value { result ≡ length (operands_at (cells_in self.entry) net) }
        ensures few { result ≤ 16 }
    {
        self.operands(net).unwrap().len() as u16
    }

    // The operand of a net at a place.
    pub(crate) fn operand(self, net: u16, place: u16) -> u16
        requires net { net < length self.nets.now }
        requires place { place < length (operands_at (cells_in self) net) }
        ensures value { result ≡ slice_index (operands_at (cells_in self.entry) net) place }
        ensures net { result < length self.entry.nets.now }
    {
        self.operands(net).unwrap()[place as usize]
    }
}
