// The bytes of a vector file: how many inputs and outputs the circuit has, and what a tester drives and expects.
// The file is written into a buffer that the caller lends. Its length is known before its first byte is written, so a buffer that is too short stays as it is.
#![tactic(auto)]

pub mod entry;
pub mod file;
mod number;
mod numbers;
