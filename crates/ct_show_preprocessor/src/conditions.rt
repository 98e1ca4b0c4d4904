//! Whether conditions hold.

use crate::scan::words_of;
use ct_base::{Fail, Mem, OutOfMemory};
use ct_ppexpr::{CondFault, condition};
use ct_show_rows::Row;
use std::alloc::Global;

/// What is wrong with a condition.
fn name_of_fault(fault: CondFault) -> &'static str {
    match fault {
        CondFault::Grammar => "Grammar",
        CondFault::DivideByZero => "DivideByZero",
        CondFault::Overflow => "Overflow",
        CondFault::Shift => "Shift",
    }
}

/// Appends whether a condition holds, or what is wrong with it.
pub fn condition_outcome(alloc: Global, row: &Row, out: &mut String) -> Mem<()> {
    let text = row.input(alloc)?;
    let Some(words) = words_of(alloc, text.as_slice())? else {
        return Ok(out.push_str("an open comment")?);
    };
    let answer = match condition(alloc, words.as_slice()) {
        Ok(true) => "holds",
        Ok(false) => "does not hold",
        Err(Fail::Fault(fault)) => name_of_fault(fault),
        Err(Fail::OutOfMemory) => return Err(OutOfMemory),
    };
    Ok(out.push_str(answer)?)
}
