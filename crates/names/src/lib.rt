// Names as parts of a text, and the table of the names seen so far.
#![tactic(auto)]

pub mod name;
pub mod table;
