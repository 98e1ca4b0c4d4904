//! The subjects of the preprocessor and the grammar.

use ct_base::Mem;
use ct_show_preprocessor::{
    condition_outcome, constant_outcome, macro_outcome, token_outcome, unit_outcome,
};
use ct_show_rows::Row;
use ct_show_trees::{left_out_outcome, printed_outcome, tree_outcome};
use std::alloc::Global;

/// Appends the outcome of a row; the answer is `false` where the subject is none of these.
pub fn outcome(alloc: Global, subject: &str, row: &Row, out: &mut String) -> Mem<bool> {
    match subject {
        "tokens" => token_outcome(alloc, row, out)?,
        "constants" => constant_outcome(alloc, row, out)?,
        "conditions" => condition_outcome(alloc, row, out)?,
        "macros" => macro_outcome(alloc, row, out)?,
        "expansions" | "units" => unit_outcome(alloc, row, out)?,
        "left out" => left_out_outcome(alloc, row, out)?,
        "trees" => tree_outcome(alloc, row, out)?,
        "printed text" => printed_outcome(alloc, row, out)?,
        _ => return Ok(false),
    }
    Ok(true)
}
