//! The numbers of a store, each once.

/// How many seats there are, numbered from 0.
pub const SEATS: usize = 16;

/// The most entries on an edit's reading list.
pub const MOST_READS: usize = 32;

/// The most drafts of an edit.
pub const MOST_DRAFTS: usize = 16;

/// The last time that the clock gives.
pub const LAST_TIME: u32 = 1_000_000;
