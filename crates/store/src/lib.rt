//! The store: its calls over any keeper, and the law of every run of them.
#![tactic(auto)]

mod apply;
mod calls;
pub mod run;
mod store;

pub use crate::store::Store;
pub use rules::sizes::Sizes;
pub use table::sizes::check;
