// The lines that the program prints, each written into a buffer that the caller lends, byte 10 last.
// A line is a list of pieces. Its length is known before its first byte is written, so a buffer that is too short stays as it is.
#![tactic(auto)]

mod line;
pub mod lines;
pub mod short;
