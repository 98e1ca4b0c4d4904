//! From the bytes of test files to their logs.

ghost use Rattle.std.specs.Prelude.{◌≡◌, ◌<◌, ◌≤◌, ◌^◌, All, ℕ, List, Some, IfOk, Result, length};
ghost use Rattle.std.specs.FinMap.{get};
ghost use Rattle.ct_base.specs.Answers.{IfFault, OnAnswer};
ghost use Rattle.ct_base.specs.declared.lexical.Token.{Token as token};
ghost use Rattle.ct_top.specs.Meaning.{FileMeans, TokensMean};
ghost use Rattle.ct_find.specs.Limits.{most_file_bytes};
ghost use Rattle.ct_top.specs.Project.{FilesMean, text_at};

use crate::refusing::{open_comment, unsupported};
use ct_base::{Fail, Out, Refusal, Text, Token};
use ct_core::CoreFunction;
use ct_form::read;
use ct_outside::Finder;
use ct_phases::test_log;
use ct_report::RunLog;
use ct_token::tokens;
use std::alloc::Global;

/// The steps that a test may take.
const STEP_BUDGET: u64 = 1_000_000;

/// The text of a file.
fn text_at<'a, F: Finder>(finder: &'a F, path: &str) -> &'a [u8]
    ensures { result.now ≡ text_at (F.texts finder.now) path.now }
{
    finder.get(path).unwrap_or(&[])
}

/// The logs of test files in order, or the refusal of the first that is refused.
pub fn run_files<F: Finder>(alloc: Global, finder: &F, paths: &[Text]) -> Out<Vec<RunLog>, Refusal>
    requires { (path text : List ℕ) → get (F.texts finder.now) path ≡ Some text → length text ≤ most_file_bytes }
    ensures ok { IfOk result (λ logs. FilesMean (F.texts finder.now) paths.now (Ok logs.items)) }
    ensures refused { IfFault result (λ refusal. FilesMean (F.texts finder.now) paths.now (Err refusal)) }
{
    let mut logs = Vec::new(alloc);
    for path in paths {
        match run_file(alloc, path.as_str(), text_at(finder, path.as_str())) {
            Ok(log) => logs.push(log)?,
            Err(fail) => return Err(fail),
        }
    }
    Ok(logs)
}

/// The log of a test file, or why it is refused.
fn run_file(alloc: Global, path: &str, text: &[u8]) -> Out<RunLog, Refusal>
    requires { length text.now ≤ most_file_bytes }
    ensures { OnAnswer result (FileMeans path.now text.now) }
{
    match tokens(alloc, 0, text) {
        Ok(tokens) => run_tokens(alloc, path, tokens.as_slice()),
        Err(Fail::OutOfMemory) => Err(Fail::OutOfMemory),
        Err(Fail::Fault(fault)) => Err(Fail::Fault(open_comment(alloc, path, fault.line)?)),
    }
}

/// The number of a line has 32 bits.
fn has_bits(line: u32)
    ensures { line < 2 ^ 32 }
{}

/// The lines of functions are numbers of 32 bits.
fn count_lines(functions: &[CoreFunction])
    ensures { All (λ f. f.span.line < 2 ^ 32) functions.now }
{
    for function in functions {
        has_bits(function.span.line);
    }
}

/// The log of a test file of these tokens, or why it is refused.
fn run_tokens(alloc: Global, path: &str, tokens: &[Token]) -> Out<RunLog, Refusal>
    ensures { OnAnswer result (TokensMean path.now tokens.now) }
{
    match read(alloc, path, tokens) {
        Ok(unit) => {
            count_lines(unit.functions.as_slice());
            Ok(test_log(alloc, unit, STEP_BUDGET)?)
        }
        Err(Fail::OutOfMemory) => Err(Fail::OutOfMemory),
        Err(Fail::Fault(outside)) => Err(Fail::Fault(unsupported(alloc, path, &outside)?)),
    }
}
