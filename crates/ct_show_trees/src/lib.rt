//! What tables say of syntax trees: their outlines, their places, the texts in which they are printed, and
//! which tokens are left out of the language.
#![tactic(auto)]

mod declarations;
mod expressions;
mod items;
mod left_out;
mod outcome;
mod places;
mod statements;
mod words;

pub use left_out::left_out_outcome;
pub use outcome::{printed_outcome, tree_outcome};
