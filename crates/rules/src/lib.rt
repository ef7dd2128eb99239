//! What a store of versions means: its words, one rule a call, and the law of its runs.
#![tactic(auto)]

pub mod answer;
pub mod call;
pub mod limits;
pub mod row;
pub mod sizes;
pub mod stage;
pub mod theorems;
