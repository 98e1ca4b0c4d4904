//! The test that runs.

use ct_base::{Bytes, Items, Text};
use ct_report::{Info, Verdict};

/// How the running test stands: the path of the test file, the test's name, its line, or that
/// which the verdict names once there is one, the verdict, its text, and the messages so far.
#[derive(Debug, Drop)]
pub struct TestState {
    pub file: Text,
    pub name: Bytes,
    pub line: u32,
    pub verdict: Option<Verdict>,
    pub text: Bytes,
    pub infos: Items<Info>,
}
