// The text layer: a window on a text that hands out its lines, and on a line that hands out names and signs; the
// statement that a line has, with names of any length, any kind and any count of operands.
#![tactic(auto)]

pub mod cursor;
mod ends;
pub mod fault;
pub mod reader;
pub mod shape;
