//! How many tests ended in which way.

ghost use Rattle.std.specs.Prelude.{◌≡◌, ℕ, ◌^◌};
ghost use Rattle.ct_report.specs.Counting.{AreBelow, counts_of};
ghost use Rattle.ct_report.specs.Report.{all_tests, is_failure, is_ignored, status_of};

use crate::logs::{RunLog, TestLine, Verdict};
use ct_base::Status;

/// Numbers of tests: of all, of those that failed and of those that were ignored.
#[derive(Clone, Copy)]
pub(crate) struct Counts {
    pub tests: u128,
    pub failures: u128,
    pub ignored: u128,
}

/// `Failed` where a test failed, else `Passed`.
#[tactic(auto, using(crate::proofs::Counted::failing))]
pub fn status(logs: &[RunLog]) -> Status
    ensures { result ≡ status_of logs.now }
{
    if counts_of_logs(logs).failures > 0 {
        Status::Failed
    } else {
        Status::Passed
    }
}

/// The counts over the tests of all logs.
pub(crate) fn counts_of_logs(logs: &[RunLog]) -> Counts
    ensures value { result ≡ counts_of (all_tests logs.now) }
    ensures bound { AreBelow (2 ^ 127) result }
{
    let mut all = Counts {
        tests: 0,
        failures: 0,
        ignored: 0,
    };
    for log in logs {
        let of_file = counts_of_tests(log.tests.as_slice());
        all = Counts {
            tests: all.tests + of_file.tests,
            failures: all.failures + of_file.failures,
            ignored: all.ignored + of_file.ignored,
        };
    }
    all
}

/// The counts over the tests of one log.
pub(crate) fn counts_of_tests(tests: &[TestLine]) -> Counts
    ensures value { result ≡ counts_of tests.now }
    ensures bound { AreBelow (2 ^ 63) result }
{
    let failures = tests.iter().filter(|test| is_failure(test)).count();
    let ignored = tests.iter().filter(|test| is_ignored(test)).count();
    Counts {
        tests: tests.len() as u128,
        failures: failures as u128,
        ignored: ignored as u128,
    }
}

fn is_failure(test: &TestLine) -> bool
    ensures { result ≡ is_failure test.now }
{
    matches!(test.verdict, Verdict::Fail)
}

fn is_ignored(test: &TestLine) -> bool
    ensures { result ≡ is_ignored test.now }
{
    matches!(test.verdict, Verdict::Ignore)
}
