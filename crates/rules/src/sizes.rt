//! How many entries of each kind a store has.

/// How many letters, marks and pairs. Entries are numbered from 0, the letters first, then the marks, then the pairs; together there are
/// from 1 to 1,024.
#[derive(Clone, Copy, Default, PartialEq, Eq, Debug)]
pub struct Sizes {
    pub letters: usize,
    pub marks: usize,
    pub pairs: usize,
}
