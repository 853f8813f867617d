// The statements of a .bench text: kinds and counts of operands, and the declarations so far with their limits.
#![tactic(auto)]

pub mod declarations;
pub mod fault;
pub mod limits;
pub mod statement;
