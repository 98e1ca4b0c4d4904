//! Test files of the form, read and run by themselves.

ghost use Rattle.std.specs.Prelude.{◌≤◌};
ghost use Rattle.ct_base.specs.Limits.{most_steps};

use crate::shown::push_line;
use ct_base::{Fail, MOST_STEPS, Mem, Out, OutOfMemory, Token};
use ct_core::CoreUnit;
use ct_form::{Outside, read};
use ct_phases::log_by_runner;
use ct_report::lines;
use ct_show_rows::{Row, push_escaped};
use ct_token::tokens;
use std::alloc::Global;

/// The most bytes that a file may have.
const FILE_BYTES: usize = 1_048_576;

/// The tokens of a text, where it has no open comment and is not too long.
fn tokens_of(alloc: Global, text: &[u8]) -> Mem<Option<Vec<Token>>> {
    if text.len() > FILE_BYTES {
        return Ok(None);
    }
    match tokens(alloc, 0, text) {
        Ok(tokens) => Ok(Some(tokens)),
        Err(Fail::Fault(_)) => Ok(None),
        Err(Fail::OutOfMemory) => Err(OutOfMemory),
    }
}

/// What the test file of a row is read as, where it has tokens.
fn read_row(alloc: Global, row: &Row) -> Mem<Option<Out<CoreUnit, Outside>>> {
    let text = row.input(alloc)?;
    match tokens_of(alloc, text.as_slice())? {
        Some(tokens) => Ok(Some(read(alloc, "test/test_a.c", tokens.as_slice()))),
        None => Ok(None),
    }
}

/// Appends how many functions the test file of a row has, or the line and the word at which it is refused.
pub fn form_outcome(alloc: Global, row: &Row, out: &mut String) -> Mem<()> {
    match read_row(alloc, row)? {
        Some(Ok(unit)) => {
            let count = format!(in alloc; "{} functions", unit.functions.len())?;
            push_line(count.as_str(), out)
        }
        Some(Err(Fail::Fault(outside))) => {
            let line = format!(in alloc; "line {}: ", outside.line)?;
            out.push_str(line.as_str())?;
            push_escaped(outside.word.as_slice(), out)
        }
        Some(Err(Fail::OutOfMemory)) => Err(OutOfMemory),
        None => push_line("no tokens", out),
    }
}

/// The budget of a row: from 1 to the most steps of a test, 1 where the row names none.
fn budget_of(row: &Row) -> u64
    ensures { (1 ≤ result) × (result ≤ most_steps) }
{
    let budget = row
        .value_of("budget")
        .and_then(|budget| budget.parse::<u64>().ok());
    budget.unwrap_or(1).clamp(1, MOST_STEPS)
}

/// Appends the lines of the report on the test file of a row, where each test may take as many steps as the
/// option `budget` says.
pub fn budget_outcome(alloc: Global, row: &Row, out: &mut String) -> Mem<()> {
    let Some(Ok(unit)) = read_row(alloc, row)? else {
        return push_line("not of the form", out);
    };
    let log = log_by_runner(alloc, unit, budget_of(row))?;
    let mut text = Vec::new(alloc);
    lines(alloc, &log, &mut text)?;
    match str::from_utf8(text.as_slice()) {
        Ok(text) => Ok(out.push_str(text)?),
        Err(_) => push_line("no text", out),
    }
}
