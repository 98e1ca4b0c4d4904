//! The text tables of a program for developers: rows that have an input and the outcome that it must have
//! side by side.
#![tactic(auto)]

mod counts;
mod escapes;
mod part;
mod reader;
mod row;

pub use counts::{Counts, push_difference};
pub use escapes::push_escaped;
pub use reader::RowReader;
pub use row::{Part, Row};
