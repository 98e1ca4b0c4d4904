//! What is known of a run once its tests have ended.

use ct_base::{Bytes, Items, Text};

/// How a test ended.
#[derive(Clone, Copy, Debug, PartialEq, Eq)]
pub enum Verdict {
    Pass,
    Fail,
    Ignore,
}

/// A message of a test, and its line.
#[derive(Debug, Drop)]
pub struct Info {
    pub line: u32,
    pub text: Bytes,
}

/// A test that ended: its name, the line that its verdict names, the verdict, the text of the
/// verdict, empty where there is none, and the messages in order.
#[derive(Debug, Drop)]
pub struct TestLine {
    pub name: Bytes,
    pub line: u32,
    pub verdict: Verdict,
    pub text: Bytes,
    pub infos: Items<Info>,
}

/// The tests of a test file, in order. `file` is the path of the test file.
#[derive(Debug, Drop)]
pub struct RunLog {
    pub file: Text,
    pub tests: Items<TestLine>,
}
