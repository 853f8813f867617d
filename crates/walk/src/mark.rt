// How far a walk has come with a net: Open has so many operands left to look at.
#[derive(Clone, Copy, Debug, PartialEq, Eq)]
pub enum Mark {
    New,
    Open(u16),
    Done,
}
