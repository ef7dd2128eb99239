//! The lines of a script, read to calls, and the lines that answer them.
#![tactic(auto)]

mod bytes;
mod cursor;
mod line;
pub mod reader;
pub mod run;
mod script;
pub mod theorems;
mod word;
pub mod writer;
