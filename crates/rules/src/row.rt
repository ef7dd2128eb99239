//! What is known of an entry.

/// The row of an entry. By default it is free: none was put, and none has it locked.
#[derive(Clone, Copy, Default, PartialEq, Eq, Debug)]
pub struct Row {
    /// The time of its newest version that was put, 0 if none.
    pub time: u32,
    /// The seat whose edit has locked it; `None` if nobody has.
    pub lock: Option<u16>,
}
