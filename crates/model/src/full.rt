// The answer to a call that found no room for one element more.
#[derive(Clone, Copy, Debug, PartialEq, Eq)]
pub struct Full;
