// A name: the bytes as they stand in the text, and their place there.
#[derive(Clone, Copy, Debug, PartialEq, Eq)]
pub struct Name<'a> {
    pub bytes: &'a [u8],
    pub at: usize,
}
