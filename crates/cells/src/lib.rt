// A stack over cells that the caller lends: nothing is allocated, and full and empty are answers.
#![tactic(auto)]

pub mod stack;
