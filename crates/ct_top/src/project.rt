//! The project file and its settings.

ghost use Rattle.std.specs.Prelude.{◌≡◌, ◌≤◌, ℕ, IfOk, Some, Ok, Err, length};
ghost use Rattle.std.specs.FinMap.{get};
ghost use Rattle.ct_base.specs.Answers.{IfFault};
ghost use Rattle.ct_find.specs.Limits.{most_file_bytes};
ghost use Rattle.ct_outside.specs.Files.{Files};
ghost use Rattle.ct_settings.specs.Table.{settings_of};
ghost use Rattle.ct_settings.specs.declared.record.SettingFault.{SettingFault};
ghost use Rattle.ct_top.specs.Project.{HasOutcome, IsNoYaml, LogsOrRefusal, SearchMeans, TextMeans, bad_setting, no_yaml, project_path};
ghost use Rattle.ct_top.specs.Stops.{FaultsAfter, IfRefused};
ghost use Rattle.ct_yaml.specs.Text.{SpellsNode, text_lines};

use crate::refusing::{bad_setting, limit_passed, no_project, no_yaml};
use crate::stops::Stop;
use ct_base::{Fail, LimitKind, MEBIBYTE, Out, Refusal};
use ct_outside::{Found, Tree};
use ct_settings::{ProjectSettings, settings};
use ct_yaml::{Node, read};
use std::alloc::Global;

/// The path of the project file.
pub const PROJECT_FILE: &str = "project.yml";

/// The most bytes that a file may have.
const FILE_BYTES: u64 = MEBIBYTE as u64;

/// The bytes of the project file.
fn project_text<T: Tree>(alloc: Global, tree: &mut T) -> Result<Vec<u8>, Stop>
    ensures told { (files : Files) → T.files tree.old ≡ Some files → IfOk result (λ text. get files project_path ≡ Some text.items) }
    ensures small { IfOk result (λ text. length text.items ≤ most_file_bytes) }
    ensures refused { (files : Files) → T.files tree.old ≡ Some files → IfRefused result (λ refusal. HasOutcome files (Err refusal)) }
    ensures same_files { T.files tree.new ≡ T.files tree.old }
    ensures faults { FaultsAfter result (T.read_faults tree.old) (T.read_faults tree.new) }
    ensures write_faults { T.write_faults tree.new ≡ T.write_faults tree.old }
{
    let mut text = Vec::new(alloc);
    match tree.read(alloc, PROJECT_FILE, FILE_BYTES, &mut text)? {
        Found::There => Ok(text),
        Found::Absent => Err(Stop::Refused(no_project(alloc)?)),
        Found::TooLarge => Err(Stop::Refused(limit_passed(
            alloc,
            LimitKind::FileBytes,
            PROJECT_FILE,
        )?)),
    }
}

/// The tree of the text of a project file.
fn node_of(alloc: Global, text: &[u8]) -> Out<Node, Refusal>
    requires { length text.now ≤ most_file_bytes }
    ensures ok { IfOk result (λ node. SpellsNode (text_lines text.now) node) }
    ensures refused { IfFault result (λ refusal. (line : ℕ) × IsNoYaml text.now line × (refusal ≡ no_yaml line)) }
{
    match read(alloc, text) {
        Ok(node) => Ok(node),
        Err(Fail::OutOfMemory) => Err(Fail::OutOfMemory),
        Err(Fail::Fault(fault)) => Err(Fail::Fault(no_yaml(alloc, fault.line)?)),
    }
}

/// The settings of the tree of a project file.
fn settings_of(alloc: Global, node: &Node) -> Out<ProjectSettings, Refusal>
    ensures ok { IfOk result (λ settings. settings_of node.now ≡ Ok settings) }
    ensures refused { IfFault result (λ refusal. (fault : SettingFault) × (settings_of node.now ≡ Err fault) × (refusal ≡ bad_setting fault)) }
{
    match settings(alloc, node) {
        Ok(settings) => Ok(settings),
        Err(Fail::OutOfMemory) => Err(Fail::OutOfMemory),
        Err(Fail::Fault(fault)) => Err(Fail::Fault(bad_setting(alloc, &fault)?)),
    }
}

/// The settings of the text of a project file.
fn settings_of_text(alloc: Global, text: &[u8]) -> Out<ProjectSettings, Refusal>
    requires { length text.now ≤ most_file_bytes }
    ensures ok { IfOk result (λ settings. (files : Files) (outcome : LogsOrRefusal) → SearchMeans files settings outcome → TextMeans files text.now outcome) }
    ensures refused { IfFault result (λ refusal. (files : Files) → TextMeans files text.now (Err refusal)) }
{
    let node = node_of(alloc, text)?;
    settings_of(alloc, &node)
}

/// The settings of a project.
pub fn project_settings<T: Tree>(alloc: Global, tree: &mut T) -> Result<ProjectSettings, Stop>
    ensures goes_on { (files : Files) → T.files tree.old ≡ Some files →
        IfOk result (λ settings. (outcome : LogsOrRefusal) → SearchMeans files settings outcome → HasOutcome files outcome) }
    ensures refused { (files : Files) → T.files tree.old ≡ Some files → IfRefused result (λ refusal. HasOutcome files (Err refusal)) }
    ensures same_files { T.files tree.new ≡ T.files tree.old }
    ensures faults { FaultsAfter result (T.read_faults tree.old) (T.read_faults tree.new) }
    ensures write_faults { T.write_faults tree.new ≡ T.write_faults tree.old }
{
    let text = project_text(alloc, tree)?;
    Ok(settings_of_text(alloc, text.as_slice())?)
}
