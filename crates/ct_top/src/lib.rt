//! The top call: from the words and the files of a project to the report.
#![tactic(auto)]

mod laws;
mod names;
mod project;
mod refusing;
mod searching;
mod stops;
mod top;
mod translating;
mod words;
mod writing;

pub use ct_base::Status;
pub use laws::one_outcome;
pub use top::run;
