//! The unit of a file: what its text becomes by preprocessing, with the files that it includes (C11
//! 5.1.1.2p1.4, 6.10).
#![tactic(auto)]

mod conditionals;
mod directives;
mod file;
mod law;
mod paths;
mod reader;
mod reading;
mod state;
mod units;

pub use ct_directive::{Head, Heads, PreFault, PreKind};
pub use law::{each_unit, one_unit};
pub use units::{Definition, Include, SourceUnit, unit};
