//! What a keeper of versions promises, and the one search.
#![tactic(auto)]

pub mod draft;
pub mod keeper;
pub mod memory;
pub mod search;
pub mod theorems;
pub mod version;
