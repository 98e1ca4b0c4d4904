//! The text of the logs.
#![tactic(auto, using(crate::proofs::Extending::extending))]

ghost use Rattle.std.specs.Prelude.{◌≡◌, ◌++◌, ◌<◌, ◌^◌, decimal as digits_of, OnOk, OnErr};
ghost use Rattle.ct_report.specs.Counting.{AreBelow, counts_text, word_after};
ghost use Rattle.ct_report.specs.Report.{Extends, behind_colon, footer_of, info_line, lines_of, place_of, summary_of, test_lines, verdict_line, word_of};

use crate::counts::{Counts, counts_of_logs, counts_of_tests};
use crate::logs::{Info, RunLog, TestLine, Verdict};
use ct_base::{Mem, decimal};
use std::alloc::Global;

/// What stands between the lines of a file's tests and their counts.
const RULE: &str = "-----------------------\n";

/// What ends the counts of a file.
const EMPTY_LINE: &str = "\n";

/// Appends the lines of each test of a log. For want of memory `into` begins with what it held.
pub fn lines(alloc: Global, log: &RunLog, into: &mut Vec<u8>) -> Mem<()>
    ensures ok { OnOk result (into.new.items ≡ into.old.items ++ lines_of log.now) }
    ensures kept { OnErr result (Extends into.old.items into.new.items) }
{
    for test in log.tests.as_slice() {
        append_test(alloc, log.file.as_str(), test, into)?;
    }
    Ok(())
}

/// Appends the counts of a log. For want of memory `into` begins with what it held.
pub fn footer(alloc: Global, log: &RunLog, into: &mut Vec<u8>) -> Mem<()>
    ensures ok { OnOk result (into.new.items ≡ into.old.items ++ footer_of log.now) }
    ensures kept { OnErr result (Extends into.old.items into.new.items) }
{
    let counts = counts_of_tests(log.tests.as_slice());
    append(RULE, into)?;
    append_counts(alloc, counts, into)?;
    append(EMPTY_LINE, into)?;
    Ok(())
}

/// Appends the counts over all logs. For want of memory `into` begins with what it held.
pub fn summary(alloc: Global, logs: &[RunLog], into: &mut Vec<u8>) -> Mem<()>
    ensures ok { OnOk result (into.new.items ≡ into.old.items ++ summary_of logs.now) }
    ensures kept { OnErr result (Extends into.old.items into.new.items) }
{
    let counts = counts_of_logs(logs);
    append("OVERALL\n", into)?;
    append_counts(alloc, counts, into)?;
    Ok(())
}

/// Appends the line of the counts, and whether a test failed.
fn append_counts(alloc: Global, counts: Counts, into: &mut Vec<u8>) -> Mem<()>
    requires { AreBelow (2 ^ 127) counts }
    ensures ok { OnOk result (into.new.items ≡ into.old.items ++ counts_text counts) }
    ensures kept { OnErr result (Extends into.old.items into.new.items) }
{
    append_count(alloc, counts.tests, " Tests ", into)?;
    append_count(alloc, counts.failures, " Failures ", into)?;
    append_count(alloc, counts.ignored, " Ignored\n", into)?;
    append(word_of_failures(counts.failures), into)?;
    append("\n", into)?;
    Ok(())
}

/// Appends a number and what it counts.
fn append_count(alloc: Global, count: u128, of: &str, into: &mut Vec<u8>) -> Mem<()>
    requires { count < 2 ^ 127 }
    ensures ok { OnOk result (into.new.items ≡ into.old.items ++ digits_of count ++ of.now) }
    ensures kept { OnErr result (Extends into.old.items into.new.items) }
{
    decimal(alloc, count as i128, into)?;
    append(of, into)?;
    Ok(())
}

/// `FAIL` where a test failed.
fn word_of_failures(failures: u128) -> &'static str
    ensures { result.now ≡ word_after failures }
{
    if failures > 0 { "FAIL" } else { "OK" }
}

/// Appends the messages of a test, and then its verdict.
fn append_test(alloc: Global, file: &str, test: &TestLine, into: &mut Vec<u8>) -> Mem<()>
    ensures ok { OnOk result (into.new.items ≡ into.old.items ++ test_lines file.now test.now) }
    ensures kept { OnErr result (Extends into.old.items into.new.items) }
{
    let name = test.name.as_slice();
    for info in test.infos.as_slice() {
        append_info(alloc, file, name, info, into)?;
    }
    append_verdict(alloc, file, test, into)?;
    Ok(())
}

fn append_info(alloc: Global, file: &str, name: &[u8], info: &Info, into: &mut Vec<u8>) -> Mem<()>
    ensures ok { OnOk result (into.new.items ≡ into.old.items ++ info_line file.now name.now info.now) }
    ensures kept { OnErr result (Extends into.old.items into.new.items) }
{
    append_place(alloc, file, name, info.line, into)?;
    append("INFO: ", into)?;
    append_bytes(info.text.as_slice(), into)?;
    append("\n", into)?;
    Ok(())
}

fn append_verdict(alloc: Global, file: &str, test: &TestLine, into: &mut Vec<u8>) -> Mem<()>
    ensures ok { OnOk result (into.new.items ≡ into.old.items ++ verdict_line file.now test.now) }
    ensures kept { OnErr result (Extends into.old.items into.new.items) }
{
    append_place(alloc, file, test.name.as_slice(), test.line, into)?;
    append(word(test.verdict), into)?;
    append_behind_colon(test.text.as_slice(), into)?;
    append("\n", into)?;
    Ok(())
}

/// Appends a colon and a text, and nothing where the text is empty.
fn append_behind_colon(text: &[u8], into: &mut Vec<u8>) -> Mem<()>
    ensures ok { OnOk result (into.new.items ≡ into.old.items ++ behind_colon text.now) }
    ensures kept { OnErr result (Extends into.old.items into.new.items) }
{
    if text.is_empty() {
        return Ok(());
    }
    append(": ", into)?;
    append_bytes(text, into)
}

/// Appends `FILE:LINE:NAME:`.
fn append_place(alloc: Global, file: &str, name: &[u8], line: u32, into: &mut Vec<u8>) -> Mem<()>
    ensures ok { OnOk result (into.new.items ≡ into.old.items ++ place_of file.now name.now line) }
    ensures kept { OnErr result (Extends into.old.items into.new.items) }
{
    append(file, into)?;
    append(":", into)?;
    decimal(alloc, i128::from(line), into)?;
    append(":", into)?;
    append_bytes(name, into)?;
    append(":", into)?;
    Ok(())
}

fn word(verdict: Verdict) -> &'static str
    ensures { result.now ≡ word_of verdict }
{
    match verdict {
        Verdict::Pass => "PASS",
        Verdict::Fail => "FAIL",
        Verdict::Ignore => "IGNORE",
    }
}

fn append(text: &str, into: &mut Vec<u8>) -> Mem<()>
    ensures ok { OnOk result (into.new.items ≡ into.old.items ++ text.now) }
    ensures kept { OnErr result (Extends into.old.items into.new.items) }
{
    append_bytes(text.as_bytes(), into)
}

fn append_bytes(bytes: &[u8], into: &mut Vec<u8>) -> Mem<()>
    ensures ok { OnOk result (into.new.items ≡ into.old.items ++ bytes.now) }
    ensures kept { OnErr result (Extends into.old.items into.new.items) }
{
    into.extend_from_slice(bytes)?;
    Ok(())
}
