// What defines a net.
use model::kind::Kind;

// An input by its number, or a gate by its kind, its first pin and how many pins it has: the pins of all gates stand in one
// table, since a pin and its faults are known by its place there.
#[derive(Clone, Copy, Debug, PartialEq, Eq)]
pub enum Net {
    Input(u16),
    Gate(Kind, u16, u16),
}
