//! The table of macro definitions, and the expansion of token lists (C11 6.10.3).
#![tactic(auto)]

mod expander;
mod expanding;
mod faults;
mod keeping;
mod laws;
mod reading;
mod table;

pub use ct_macro_call::Macro;
pub use expanding::{Expansion, expand};
pub use faults::{MacroFault, MacroKind};
pub use laws::{each_list, one_expansion};
pub use table::Macros;
