//! Definitions and expansions of macros.

use crate::steps::Steps;
use ct_base::Mem;
use ct_macro::Macros;
use ct_show_rows::Row;
use std::alloc::Global;

/// How many tokens may be put where the row does not say it.
const ROOM: u64 = 1000;

/// Appends what a row about macros shows. Its options are steps: `define` takes the definitions of its text,
/// one on a line, `undef NAME` takes one away, `name NAME` shows whether a name is defined, `room NUMBER`
/// says how many tokens may be put, `places` shows places, and `text` shows what its text becomes. A
/// definition that is refused is the last step. A row that shows nothing was `taken`.
pub fn macro_outcome(alloc: Global, row: &Row, out: &mut String) -> Mem<()> {
    let mut steps = Steps {
        macros: Macros::new(alloc)?,
        room: ROOM,
        places: false,
    };
    let mut shown = String::new(alloc);
    for part in &row.parts {
        if !steps.take(alloc, part, &mut shown)? {
            break;
        }
    }
    if shown.is_empty() {
        shown.push_str("taken")?;
    }
    Ok(out.push_str(shown.as_str())?)
}
