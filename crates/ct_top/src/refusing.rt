//! Refusals, and the line that says one.

ghost use Rattle.std.specs.Prelude.{◌≡◌, IfOk, codes};
ghost use Rattle.ct_top.specs.Meaning as meaning;
ghost use Rattle.ct_top.specs.Project as spec;

use crate::names::base_name;
use crate::project::PROJECT_FILE;
use ct_base::{Bytes, LimitKind, Mem, Refusal, Text, decimal};
use ct_form::Outside;
use ct_settings::{SettingFault, SettingKind};
use std::alloc::Global;

/// The number of each kind of refusal.
const NO_PROJECT: u32 = 1;

const SETTINGS: u32 = 2;

const NAMES: u32 = 3;

const LIMIT: u32 = 4;

const LEX: u32 = 5;

const UNSUPPORTED: u32 = 7;

/// A refusal with its parts.
fn refuse(alloc: Global, kind: u32, file: &str, line: u32, text: &[u8]) -> Mem<Refusal>
    ensures { IfOk result (λ made. made ≡ spec.refusal kind file.now line text.now) }
{
    let file = Text::copy_of(alloc, file)?;
    let text = Bytes::from_slice(alloc, text)?;
    Ok(Refusal {
        kind,
        file,
        line,
        text,
    })
}

/// The refusal of a project without a project file.
pub fn no_project(alloc: Global) -> Mem<Refusal>
    ensures { IfOk result (λ made. made ≡ spec.no_project) }
{
    refuse(alloc, NO_PROJECT, PROJECT_FILE, 0, b"NoProject")
}

/// The refusal of a project file that is no YAML of the profile, by its line.
pub fn no_yaml(alloc: Global, line: u32) -> Mem<Refusal>
    ensures { IfOk result (λ made. made ≡ spec.no_yaml line) }
{
    refuse(alloc, SETTINGS, PROJECT_FILE, line, b"Settings Yaml")
}

fn setting_word(kind: SettingKind) -> &'static [u8]
    ensures { result.now ≡ spec.setting_word kind }
{
    match kind {
        SettingKind::NotMap => b"NotMap",
        SettingKind::NotText => b"NotText",
        SettingKind::NotList => b"NotList",
        SettingKind::NotBool => b"NotBool",
        SettingKind::BadValue => b"BadValue",
    }
}

/// The refusal of a setting.
pub fn bad_setting(alloc: Global, fault: &SettingFault) -> Mem<Refusal>
    ensures { IfOk result (λ made. made ≡ spec.bad_setting fault.now) }
{
    let mut text = Vec::from_slice(alloc, b"Settings ")?;
    text.extend_from_slice(fault.key.as_str().as_bytes())?;
    text.extend_from_slice(b" ")?;
    text.extend_from_slice(setting_word(fault.kind))?;
    refuse(alloc, SETTINGS, PROJECT_FILE, 0, text.as_slice())
}

fn limit_word(kind: LimitKind) -> &'static [u8]
    ensures { result.now ≡ spec.limit_word kind }
{
    match kind {
        LimitKind::FileBytes => b"FileBytes",
        LimitKind::AllBytes => b"AllBytes",
        LimitKind::Files => b"Files",
        LimitKind::Entries => b"Entries",
        LimitKind::FolderDepth => b"FolderDepth",
        LimitKind::Tokens => b"Tokens",
        LimitKind::IncludeDepth => b"IncludeDepth",
        LimitKind::ExpressionDepth => b"ExpressionDepth",
        LimitKind::StatementDepth => b"StatementDepth",
        LimitKind::DeclaratorDepth => b"DeclaratorDepth",
        LimitKind::TypeParts => b"TypeParts",
        LimitKind::ObjectBytes => b"ObjectBytes",
        LimitKind::StaticBytes => b"StaticBytes",
        LimitKind::AutoObjects => b"AutoObjects",
        LimitKind::AutoBytes => b"AutoBytes",
        LimitKind::Tests => b"Tests",
        LimitKind::MockedFunctions => b"MockedFunctions",
    }
}

/// The refusal of a limit that is passed at a file or a folder.
pub fn limit_passed(alloc: Global, kind: LimitKind, path: &str) -> Mem<Refusal>
    ensures { IfOk result (λ made. made ≡ spec.limit_passed kind path.now) }
{
    let mut text = Vec::from_slice(alloc, b"Limit ")?;
    text.extend_from_slice(limit_word(kind))?;
    refuse(alloc, LIMIT, path, 0, text.as_slice())
}

/// The refusal of a test file whose base name an earlier one has.
pub fn same_test(alloc: Global, path: &str) -> Mem<Refusal>
    ensures { IfOk result (λ made. made ≡ spec.same_test path.now) }
{
    let mut text = Vec::from_slice(alloc, b"SameTest ")?;
    text.extend_from_slice(base_name(path.as_bytes()))?;
    refuse(alloc, NAMES, path, 0, text.as_slice())
}

/// The refusal of a comment that is not closed, by the line on which it opens.
pub fn open_comment(alloc: Global, path: &str, line: u32) -> Mem<Refusal>
    ensures { IfOk result (λ made. made ≡ meaning.open_comment path.now line) }
{
    refuse(alloc, LEX, path, line, b"Lex OpenComment")
}

/// The refusal of what is outside the form, by its first token.
pub fn unsupported(alloc: Global, path: &str, outside: &Outside) -> Mem<Refusal>
    ensures { IfOk result (λ made. made ≡ meaning.unsupported path.now outside.now) }
{
    let mut text = Vec::from_slice(alloc, b"Unsupported ")?;
    text.extend_from_slice(outside.word.as_slice())?;
    refuse(alloc, UNSUPPORTED, path, outside.line, text.as_slice())
}

/// The line `ERROR: FILE:LINE: TEXT`.
pub fn refusal_text(alloc: Global, refusal: &Refusal) -> Mem<Vec<u8>>
    ensures { IfOk result (λ text. text.items ≡ spec.refusal_line refusal.now) }
{
    let mut line = Vec::from_slice(alloc, b"ERROR: ")?;
    line.extend_from_slice(refusal.file.as_str().as_bytes())?;
    line.extend_from_slice(b":")?;
    decimal(alloc, i128::from(refusal.line), &mut line)?;
    line.extend_from_slice(b": ")?;
    line.extend_from_slice(refusal.text.as_slice())?;
    line.extend_from_slice(b"\n")?;
    Ok(line)
}
