//! The limits of a project.

/// 1 MiB: the most bytes of a file, of an object and of a type.
pub const MEBIBYTE: u32 = 1_048_576;

/// The most steps of a test.
pub const MOST_STEPS: u64 = 10_000_000;

/// A quantity with a limit. A quantity equal to its limit is allowed.
#[derive(Clone, Copy, Debug, PartialEq, Eq)]
pub enum LimitKind {
    /// Bytes of a file.
    FileBytes,
    /// Bytes of all files that the search reads.
    AllBytes,
    /// Files of a project.
    Files,
    /// Listed entries.
    Entries,
    /// Components of a folder's path.
    FolderDepth,
    /// Tokens of a unit's text lines, and tokens put by replacements.
    Tokens,
    /// Nested includes.
    IncludeDepth,
    /// Nested expression nodes.
    ExpressionDepth,
    /// Nested statements.
    StatementDepth,
    /// Nested parts of a declarator, a member list or an initialiser.
    DeclaratorDepth,
    /// Parts of one type with its typedefs written out.
    TypeParts,
    /// Bytes of an object or of a type.
    ObjectBytes,
    /// Bytes of the static objects and texts of a test program.
    StaticBytes,
    /// Automatic objects of a function, its parameters among them.
    AutoObjects,
    /// Bytes of the automatic objects of a function.
    AutoBytes,
    /// Tests of a file.
    Tests,
    /// Mocked functions of a header.
    MockedFunctions,
}
