//! What tables say of files and paths, of the search for files, of whole projects and of test files of the form.
#![tactic(auto)]

mod files;
mod forms;
mod fronts;
mod given;
mod paths;
mod runs;
mod searches;
mod shown;
mod sinks;
mod watched;
mod wide;

pub use files::file_outcome;
pub use forms::{budget_outcome, form_outcome};
pub use paths::path_outcome;
pub use runs::project_outcome;
pub use searches::search_outcome;
