//! What a project file sets.

use ct_base::{Bytes, Items, Text};

/// The settings of a project. The build root and the paths of the patterns have no leading `./`
/// and no trailing `/`.
#[derive(Debug, Drop)]
pub struct ProjectSettings {
    /// The folder of what a run writes.
    pub build_root: Text,
    /// How the base name of a test file begins.
    pub test_prefix: Text,
    pub test: Items<Pattern>,
    pub source: Items<Pattern>,
    pub include: Items<Pattern>,
    pub support: Items<Pattern>,
    /// The macros that each unit begins with. A name stands once.
    pub defines: Items<Define>,
    pub cmock: Cmock,
}

/// A pattern of folders: whether it adds the folders that it matches or removes them, and its
/// path, which is empty for the root.
#[derive(Debug, Drop)]
pub struct Pattern {
    pub add: bool,
    pub path: Text,
}

/// A macro without parameters, and the text that replaces it.
#[derive(Debug, Drop)]
pub struct Define {
    pub name: Bytes,
    pub text: Bytes,
}

/// The settings of mocks.
#[derive(Debug, Drop)]
pub struct Cmock {
    /// How the name of a mock's header begins.
    pub mock_prefix: Text,
    /// The plugins that are on.
    pub ignore: bool,
    pub ignore_arg: bool,
    pub array: bool,
    pub callback: bool,
    pub return_thru_ptr: bool,
    pub expect_any_args: bool,
    /// Whether calls of mocked functions must come in the order in which they are expected.
    pub strict: bool,
    pub when_ptr: WhenPtr,
    /// Whether a callback is told how many calls there were.
    pub callback_count: bool,
}

/// What is compared where a mocked function takes a pointer.
#[derive(Clone, Copy, Debug, PartialEq, Eq)]
pub enum WhenPtr {
    /// What the pointers point to; nothing with a depth of 0 or below.
    CompareData,
    /// The pointers, but for a `char *` without a depth, which is compared as a string.
    ComparePtr,
    /// What the pointers point to; the pointers with a depth of 0 or below.
    Smart,
}

/// Why a value is refused.
#[derive(Clone, Copy, Debug, PartialEq, Eq)]
pub enum SettingKind {
    /// A section is no map.
    NotMap,
    /// One scalar is asked for.
    NotText,
    /// A list of scalars, or one, is asked for.
    NotList,
    /// A truth value is asked for.
    NotBool,
    /// A scalar is none that its key takes.
    BadValue,
}

/// A value that the table of settings does not allow: its section and key with one space between
/// them, or the section alone where that is no map, and why.
#[derive(Debug, Drop)]
pub struct SettingFault {
    pub key: Text,
    pub kind: SettingKind,
}
