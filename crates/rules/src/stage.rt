//! What a seat is doing.

/// The stage of a seat. A seat is where one reader or one writer sits: at most one proof or one edit is open on it.
#[derive(Clone, Copy, PartialEq, Eq, Debug)]
pub enum Stage {
    /// Nothing is open.
    Idle,
    /// A proof is open, and reads the cards after its start.
    Proof { start: u32 },
    /// An edit is open; it may read and write.
    Edit { start: u32 },
    /// An edit has locked all entries that it drafted.
    Locked { start: u32 },
    /// An edit has its time, and has put this many of its drafts.
    Stamped { time: u32, put: u32 },
}
