//! A keeper that rolls on: versions in their order of arrival, without gaps.
#![tactic(auto)]

pub mod keeper;

pub use crate::keeper::Roll;
