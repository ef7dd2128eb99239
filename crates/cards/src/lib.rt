//! The vocabulary that every part shares: the refusals, the entry numbers, the cards with their kinds and their text, and drafts.
#![tactic(auto)]

pub mod card;
pub mod draft;
pub mod entry;
pub mod kind;
pub mod refusal;
mod shown;
