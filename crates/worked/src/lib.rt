//! Worked cases of the rules and of the packed form, for people who read them: each is computed here, and nothing rests on them.
#![tactic(auto)]

pub mod theorems;
