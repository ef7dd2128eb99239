//! The table: what a store has beside its keeper.
#![tactic(auto)]

pub mod counts;
pub mod rows;
pub mod seat;
pub mod seat_number;
mod short;
pub mod sizes;
pub mod table;
