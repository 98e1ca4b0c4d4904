//! The search for the files of a project.
#![tactic(auto)]

mod files;
mod groups;
mod laws;
mod picking;
mod reading;
mod rows;
mod search;
mod sets;
mod starts;
mod walking;

pub use files::{Files, FindFault};
pub use laws::{one_finding, one_order};
pub use search::find;
