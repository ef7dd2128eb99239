//! The packed form of a card.
#![tactic(auto)]

pub mod packing;
pub mod theorems;
