//! The subjects of integers, projects and runs.

use ct_base::Mem;
use ct_show_projects::{
    budget_outcome, file_outcome, form_outcome, path_outcome, project_outcome, search_outcome,
};
use ct_show_rows::Row;
use ct_show_values::{
    digit_outcome, integer_outcome, layout_outcome, report_outcome, setting_outcome, yaml_outcome,
};
use std::alloc::Global;

/// Appends the outcome of a row; the answer is `false` where the subject is none of these.
pub fn outcome(alloc: Global, subject: &str, row: &Row, out: &mut String) -> Mem<bool> {
    match subject {
        "integers" => integer_outcome(alloc, row, out)?,
        "layouts" => layout_outcome(alloc, row, out)?,
        "decimal digits" => digit_outcome(alloc, row, out)?,
        "YAML" => yaml_outcome(alloc, row, out)?,
        "settings" => setting_outcome(alloc, row, out)?,
        "reports" => report_outcome(alloc, row, out)?,
        "paths" => path_outcome(alloc, row, out)?,
        "files" => file_outcome(alloc, row, out)?,
        "search" => search_outcome(alloc, row, out)?,
        "projects" | "test files" => project_outcome(alloc, row, out)?,
        "forms" => form_outcome(alloc, row, out)?,
        "budgets" => budget_outcome(alloc, row, out)?,
        _ => return Ok(false),
    }
    Ok(true)
}
