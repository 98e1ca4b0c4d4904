//! How a run ends.

/// How a run of the tool ended. `ct_cli` turns it into the exit status.
#[derive(Clone, Copy, Debug, PartialEq, Eq)]
pub enum Status {
    /// No test failed, or a command other than a test run was done.
    Passed,
    /// The written report has a failed test.
    Failed,
    /// The project was refused, and the line that says why was written.
    Refused,
    /// A list or a read of the tree failed. Nothing was written.
    ReadFault,
    /// A write to the tree failed. The sink took nothing.
    WriteFault,
    /// The sink failed. It took a front of its text.
    OutFault,
    /// Memory ran out. The sink took nothing.
    OutOfMemory,
    /// The words are no command, and the usage line was written.
    Usage,
}
