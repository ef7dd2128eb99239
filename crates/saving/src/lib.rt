//! A library over tickets: an edit of one draft is saved in one call. What is declined is handed on, with the ticket that is left.
#![tactic(auto)]

pub mod saving;
pub mod unsaved;
