//! A keeper in linked places: each entry's versions in a chain of their own, the newest first, and the free places in another.
#![tactic(auto)]

pub mod keeper;
pub mod place;

pub use crate::keeper::Linked;
pub use crate::place::Place;
