//! What tables say of integers and layouts, of project files and their settings, and of reports.
#![tactic(auto)]

mod integers;
mod layouts;
mod names;
mod reports;
mod set;
mod types;
mod yaml;

pub use integers::{digit_outcome, integer_outcome};
pub use layouts::layout_outcome;
pub use reports::report_outcome;
pub use set::setting_outcome;
pub use yaml::yaml_outcome;
