//! Reports on tests that ended.

use ct_base::{Bytes, Items, Mem, Status, Text};
use ct_report::{Info, RunLog, TestLine, Verdict, footer, lines, status, summary};
use ct_show_rows::Row;
use std::alloc::Global;

/// Appends the report on the logs that the lines of a row tell. A line is `file NAME`; `pass`, `fail` or
/// `ignore`, and behind it the text of the verdict of a test `test_two` at line 2; or `note`, which is a message
/// at line 7 of the test of the next line. With the option `lines` the lines of the tests alone are shown, between
/// a line before and one behind; without it the counts are too, and the status.
pub fn report_outcome(alloc: Global, row: &Row, out: &mut String) -> Mem<()> {
    let logs = logs_of(alloc, row)?;
    let mut text = Vec::new(alloc);
    if row.has("lines") {
        text.extend_from_slice("before\n".as_bytes())?;
    }
    for log in &logs {
        lines(alloc, log, &mut text)?;
        if !row.has("lines") {
            footer(alloc, log, &mut text)?;
        }
    }
    if row.has("lines") {
        text.extend_from_slice("behind\n".as_bytes())?;
        return push_text(text.as_slice(), out);
    }
    summary(alloc, logs.as_slice(), &mut text)?;
    push_text(text.as_slice(), out)?;
    Ok(out.push_str(status_name(status(logs.as_slice())))?)
}

/// Appends a report, which is a text.
fn push_text(text: &[u8], out: &mut String) -> Mem<()> {
    match str::from_utf8(text) {
        Ok(text) => Ok(out.push_str(text)?),
        Err(_) => Ok(out.push_str("no text")?),
    }
}

fn status_name(status: Status) -> &'static str {
    match status {
        Status::Passed => "Passed",
        Status::Failed => "Failed",
        _ => "another status",
    }
}

/// The logs that the lines of a row tell.
fn logs_of(alloc: Global, row: &Row) -> Mem<Vec<RunLog>> {
    let input = row.input(alloc)?;
    let text = str::from_utf8(input.as_slice()).unwrap_or("");
    let mut logs = Vec::new(alloc);
    let mut log = Log::new(alloc, "")?;
    for line in text.lines() {
        match line.strip_prefix("file ") {
            Some(name) => {
                let ended = std::mem::replace(&mut log, Log::new(alloc, name)?);
                ended.end(&mut logs)?;
            }
            None => log.take(alloc, line)?,
        }
    }
    log.end(&mut logs)?;
    Ok(logs)
}

/// A log that is read: the name of its file, its tests, and the messages of the next one.
#[derive(Drop)]
struct Log {
    file: Text,
    tests: Items<TestLine>,
    infos: Items<Info>,
}

impl Log {
    fn new(alloc: Global, name: &str) -> Mem<Log> {
        Ok(Log {
            file: Text::copy_of(alloc, name)?,
            tests: Items::new(alloc),
            infos: Items::new(alloc),
        })
    }

    /// Takes a line that tells a message or a test.
    fn take(&mut self, alloc: Global, line: &str) -> Mem<()> {
        let (word, text) = line.split_once(' ').unwrap_or((line, ""));
        match word {
            "note" => {
                let text = Bytes::from_slice(alloc, word.as_bytes())?;
                self.infos.push(Info { line: 7, text })?;
                Ok(())
            }
            "pass" => self.add(alloc, Verdict::Pass, text),
            "fail" => self.add(alloc, Verdict::Fail, text),
            "ignore" => self.add(alloc, Verdict::Ignore, text),
            _ => Ok(()),
        }
    }

    /// Adds a test.
    fn add(&mut self, alloc: Global, verdict: Verdict, text: &str) -> Mem<()> {
        let name = Bytes::from_slice(alloc, "test_two".as_bytes())?;
        let text = Bytes::from_slice(alloc, text.as_bytes())?;
        let infos = std::mem::replace(&mut self.infos, Items::new(alloc));
        self.tests.push(TestLine {
            name,
            line: 2,
            verdict,
            text,
            infos,
        })?;
        Ok(())
    }

    /// Ends the log of a file that was named.
    fn end(self, logs: &mut Vec<RunLog>) -> Mem<()> {
        let Log { file, tests, .. } = self;
        if !file.as_str().is_empty() {
            logs.push(RunLog { file, tests })?;
        }
        Ok(())
    }
}
