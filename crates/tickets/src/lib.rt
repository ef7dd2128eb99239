//! Tickets: the stages of a seat as types. A ticket holds its seat's number and nothing more, and is judged by it alone. It does not tell
//! it: who opens a proof or an edit has named the seat, and calls by the number, past the ticket, may bring the seat to a stage that is
//! not the ticket's.
#![tactic(auto)]

pub mod declined;
pub mod edit;
pub mod locked;
pub mod proof;
pub mod stamped;
