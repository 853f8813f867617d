// How large a netlist is.
#[derive(Clone, Copy, Debug, PartialEq, Eq)]
pub struct Counts {
    pub nets: usize,
    pub inputs: usize,
    pub outputs: usize,
    pub pins: usize,
}
