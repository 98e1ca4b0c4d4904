//! From tokens to syntax trees.
#![tactic(auto)]

mod items;
mod laws;
mod left_out;
mod reader;

pub use ct_grammar_laws::one_tree;
pub use laws::{no_tree, one_first, one_unspelled};
pub use left_out::unsupported;
pub use reader::{SyntaxFault, parse};
