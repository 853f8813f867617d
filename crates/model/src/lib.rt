// The subject's types that every layer shares, and its rules.
#![tactic(auto)]

pub mod counts;
pub mod full;
pub mod kind;
pub mod refusal;
