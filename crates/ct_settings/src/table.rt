//! The table of settings, applied to the tree of a project file.

ghost use Rattle.std.specs.Prelude.{◌≡◌, IfOk};
ghost use Rattle.ct_base.specs.Answers.{IfFault, OnAnswer};
ghost use Rattle.ct_settings.specs.Table as spec;

use crate::defines::keep_last;
use crate::names::has_word;
use crate::record::{Cmock, Define, Pattern, ProjectSettings, SettingFault, WhenPtr};
use crate::sections::Section;
use ct_base::{Items, Mem, Out, Text};
use ct_yaml::Node;
use std::alloc::Global;

/// The settings of the section `:project:`.
#[derive(Debug, Drop)]
pub struct Project {
    pub build_root: Text,
    pub test_prefix: Text,
}

/// The settings of the section `:paths:`.
#[derive(Debug, Drop)]
pub struct Paths {
    pub test: Items<Pattern>,
    pub source: Items<Pattern>,
    pub include: Items<Pattern>,
    pub support: Items<Pattern>,
}

/// The pattern that adds the folders of a path.
fn adding(alloc: Global, path: &str) -> Mem<Items<Pattern>>
    ensures { IfOk result (λ patterns. patterns ≡ spec.adding path.now) }
{
    let mut patterns = Items::new(alloc);
    let path = Text::copy_of(alloc, path)?;
    patterns.push(Pattern { add: true, path })?;
    Ok(patterns)
}

fn project_of(alloc: Global, node: &Node) -> Out<Project, SettingFault>
    ensures { OnAnswer result (λ answer. spec.project_of node.now ≡ answer) }
{
    let project = Section::of(alloc, ":project", node)?;
    let build_root = project.path(alloc, ":build_root", "build")?;
    let test_prefix = project.test_prefix(alloc, ":test_file_prefix", "test_")?;
    Ok(Project {
        build_root,
        test_prefix,
    })
}

fn paths_of(alloc: Global, node: &Node) -> Out<Paths, SettingFault>
    ensures { OnAnswer result (λ answer. spec.paths_of node.now ≡ answer) }
{
    let paths = Section::of(alloc, ":paths", node)?;
    let test = paths.patterns(alloc, ":test", adding(alloc, "test/**")?)?;
    let source = paths.patterns(alloc, ":source", adding(alloc, "src/**")?)?;
    let include = paths.patterns(alloc, ":include", Items::new(alloc))?;
    let support = paths.patterns(alloc, ":support", Items::new(alloc))?;
    Ok(Paths {
        test,
        source,
        include,
        support,
    })
}

fn defines_of(alloc: Global, node: &Node) -> Out<Items<Define>, SettingFault>
    ensures { OnAnswer result (λ answer. spec.defines_of node.now ≡ answer) }
{
    let defines = Section::of(alloc, ":defines", node)?;
    let mut all = defines.defines(alloc, ":common", Items::new(alloc))?;
    let test = defines.defines(alloc, ":test", Items::new(alloc))?;
    all.append(test)?;
    Ok(keep_last(alloc, all)?)
}

fn cmock_of(alloc: Global, node: &Node) -> Out<Cmock, SettingFault>
    ensures { OnAnswer result (λ answer. spec.cmock_of node.now ≡ answer) }
{
    let cmock = Section::of(alloc, ":cmock", node)?;
    let mock_prefix = cmock.mock_prefix(alloc, ":mock_prefix", "mock_")?;
    let plugins = cmock.words(alloc, ":plugins")?;
    let strict = cmock.untruth(alloc, ":enforce_strict_ordering", false)?;
    let when_ptr = cmock.pointers(alloc, ":when_ptr", WhenPtr::Smart)?;
    let callback_count = cmock.truth(alloc, ":callback_include_count", true)?;
    let plugins = plugins.as_slice();
    Ok(Cmock {
        mock_prefix,
        ignore: has_word(b"ignore", plugins),
        ignore_arg: has_word(b"ignore_arg", plugins),
        array: has_word(b"array", plugins),
        callback: has_word(b"callback", plugins),
        return_thru_ptr: has_word(b"return_thru_ptr", plugins),
        expect_any_args: has_word(b"expect_any_args", plugins),
        strict,
        when_ptr,
        callback_count,
    })
}

/// The settings of a project file's tree.
///
/// # Errors
///
/// A fault comes exactly where a key of the table has a value that the table does not allow. It is that of the
/// first such key in the order of the table.
pub fn settings(alloc: Global, node: &Node) -> Out<ProjectSettings, SettingFault>
    ensures settings { IfOk result (λ settings. spec.settings_of node.now ≡ Ok settings) }
    ensures fault { IfFault result (λ fault. spec.settings_of node.now ≡ Err fault) }
    ensures paths { IfOk result spec.ArePaths }
{
    let project = project_of(alloc, node)?;
    let paths = paths_of(alloc, node)?;
    let defines = defines_of(alloc, node)?;
    let cmock = cmock_of(alloc, node)?;
    Ok(ProjectSettings {
        build_root: project.build_root,
        test_prefix: project.test_prefix,
        test: paths.test,
        source: paths.source,
        include: paths.include,
        support: paths.support,
        defines,
        cmock,
    })
}
