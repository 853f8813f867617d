// How large a text and a netlist may be. Where one is narrowed by `as`, the check proves that no bit is lost.
pub const TEXT_BYTES: usize = 65536;

pub const NETS: usize = 2048;

pub const INPUTS: usize = 64;

pub const OUTPUTS: usize = 64;

pub const PINS: usize = 8192;

// Each declaration defines a net or lists an output.
pub const DECLARATIONS: usize = NETS + OUTPUTS;
