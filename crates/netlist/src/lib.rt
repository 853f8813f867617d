// Netlists that own their tables, and the loader that makes them from .bench text.
#![tactic(auto)]

mod accepted;
mod arrange;
pub mod fault;
pub mod limits;
mod load;
mod readers;
mod resolve;
mod tables;
pub mod whole;
