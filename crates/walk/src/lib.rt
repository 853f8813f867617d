// A walk back through a netlist: its state, its steps and what it tells at the end. Definitions and lemmas;
// the one type of code is the mark that a walk leaves on a net.
#![tactic(auto)]

pub mod mark;
