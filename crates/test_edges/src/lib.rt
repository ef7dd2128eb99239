//! Tests at the edges: of cards and their forms, of both keepers, of a store over each, and of the lines of a script; what needs a keeper
//! is written once, over any.
#![tactic(auto)]

#[cfg(test)]
mod answers;
#[cfg(test)]
mod each_keeper;
#[cfg(test)]
mod each_store;
#[cfg(test)]
mod forms;
#[cfg(test)]
mod lines;
