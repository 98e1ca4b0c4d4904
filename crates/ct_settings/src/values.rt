//! Values of keys.

ghost use Rattle.std.specs.Prelude.{◌≡◌, IfOk, map};
ghost use Rattle.std.specs.Option.{option_copied, option_map};
ghost use Rattle.std.specs.Result.{result_map_both};
ghost use Rattle.ct_base.specs.Answers.{OnAnswer};
ghost use Rattle.ct_yaml.specs.declared.node.Node.{out-Node};
ghost use Rattle.ct_settings.specs.Values as spec;
ghost use Rattle.ct_settings.specs.Names as names;
ghost use Rattle.ct_settings.specs.Paths as paths;

use crate::defines::define;
use crate::names::{mock_prefix as mock_prefix_of, prefix, truth, when_ptr};
use crate::paths::{path, pattern};
use crate::record::{Define, Pattern, SettingKind, WhenPtr};
use ct_base::{Fail, Items, Mem, Out, Text};
use ct_yaml::Node;
use std::alloc::Global;

fn scalar(node: &Node) -> Option<&[u8]>
    ensures { option_copied result ≡ spec.scalar_of (out-Node node.now) }
{
    match node {
        Node::Scalar(text) => Some(text.as_slice()),
        Node::List(_) => None,
        Node::Map(_) => None,
    }
}

/// The texts of a list of scalars.
fn texts(alloc: Global, items: &[Node]) -> Mem<Option<Vec<&[u8]>>>
    ensures { IfOk result (λ found. option_map (λ texts. map (λ text. text.now) texts.items) found ≡ spec.list_of items.now) }
{
    let mut texts = Vec::new(alloc);
    for item in items {
        let Some(text) = scalar(item) else {
            return Ok(None);
        };
        texts.push(text)?;
    }
    Ok(Some(texts))
}

/// What is read of each text, where something is read of all.
fn patterns_of(alloc: Global, texts: &[&[u8]]) -> Mem<Option<Items<Pattern>>>
    ensures { IfOk result (λ patterns. patterns ≡ spec.each paths.pattern_of (map (λ text. text.now) texts.now)) }
{
    let mut patterns = Items::new(alloc);
    for text in texts {
        let Some(pattern) = pattern(alloc, text)? else {
            return Ok(None);
        };
        patterns.push(pattern)?;
    }
    Ok(Some(patterns))
}

fn defines_of(alloc: Global, texts: &[&[u8]]) -> Mem<Option<Items<Define>>>
    ensures { IfOk result (λ defines. defines ≡ spec.each names.define_of (map (λ text. text.now) texts.now)) }
{
    let mut defines = Items::new(alloc);
    for text in texts {
        let Some(define) = define(alloc, text)? else {
            return Ok(None);
        };
        defines.push(define)?;
    }
    Ok(Some(defines))
}

/// The texts of a list of scalars, or of one scalar.
fn one_or_more(alloc: Global, node: &Node) -> Mem<Option<Vec<&[u8]>>>
    ensures { IfOk result (λ found. option_map (λ texts. map (λ text. text.now) texts.items) found ≡ spec.texts_of (out-Node node.now)) }
{
    match node {
        Node::Scalar(text) => {
            let mut texts = Vec::new(alloc);
            texts.push(text.as_slice())?;
            Ok(Some(texts))
        }
        Node::List(items) => texts(alloc, items.as_slice()),
        Node::Map(_) => Ok(None),
    }
}

/// A list of patterns, or one.
#[tactic(auto, unfolding(crate::specs::Values::many))]
pub fn patterns(alloc: Global, node: &Node) -> Out<Items<Pattern>, SettingKind>
    ensures { OnAnswer result (λ answer. answer ≡ spec.many paths.pattern_of (out-Node node.now)) }
{
    let Some(texts) = one_or_more(alloc, node)? else {
        return Err(Fail::Fault(SettingKind::NotList));
    };
    let Some(patterns) = patterns_of(alloc, texts.as_slice())? else {
        return Err(Fail::Fault(SettingKind::BadValue));
    };
    Ok(patterns)
}

/// A list of defines, or one.
#[tactic(auto, unfolding(crate::specs::Values::many))]
pub fn defines(alloc: Global, node: &Node) -> Out<Items<Define>, SettingKind>
    ensures { OnAnswer result (λ answer. answer ≡ spec.many names.define_of (out-Node node.now)) }
{
    let Some(texts) = one_or_more(alloc, node)? else {
        return Err(Fail::Fault(SettingKind::NotList));
    };
    let Some(defines) = defines_of(alloc, texts.as_slice())? else {
        return Err(Fail::Fault(SettingKind::BadValue));
    };
    Ok(defines)
}

/// A list of words.
#[tactic(auto, unfolding(crate::specs::Values::words))]
pub fn words(alloc: Global, node: &Node) -> Out<Vec<&[u8]>, SettingKind>
    ensures { OnAnswer result (λ answer. result_map_both (λ words. map (λ word. word.now) words.items) (λ kind. kind) answer ≡ spec.words (out-Node node.now)) }
{
    let Node::List(items) = node else {
        return Err(Fail::Fault(SettingKind::NotList));
    };
    let Some(words) = texts(alloc, items.as_slice())? else {
        return Err(Fail::Fault(SettingKind::NotList));
    };
    Ok(words)
}

/// A path.
#[tactic(auto, unfolding(crate::specs::Values::one))]
pub fn one_path(alloc: Global, node: &Node) -> Out<Text, SettingKind>
    ensures { OnAnswer result (λ answer. answer ≡ spec.one paths.path_of (out-Node node.now)) }
{
    let Some(text) = scalar(node) else {
        return Err(Fail::Fault(SettingKind::NotText));
    };
    let Some(path) = path(alloc, text)? else {
        return Err(Fail::Fault(SettingKind::BadValue));
    };
    Ok(path)
}

/// A prefix of test files.
#[tactic(auto, unfolding(crate::specs::Values::one))]
pub fn test_prefix(alloc: Global, node: &Node) -> Out<Text, SettingKind>
    ensures { OnAnswer result (λ answer. answer ≡ spec.one names.prefix_of (out-Node node.now)) }
{
    let Some(text) = scalar(node) else {
        return Err(Fail::Fault(SettingKind::NotText));
    };
    let Some(prefix) = prefix(alloc, text)? else {
        return Err(Fail::Fault(SettingKind::BadValue));
    };
    Ok(prefix)
}

/// A prefix of mocks.
#[tactic(auto, unfolding(crate::specs::Values::one))]
pub fn mock_prefix(alloc: Global, node: &Node) -> Out<Text, SettingKind>
    ensures { OnAnswer result (λ answer. answer ≡ spec.one names.mock_prefix_of (out-Node node.now)) }
{
    let Some(text) = scalar(node) else {
        return Err(Fail::Fault(SettingKind::NotText));
    };
    let Some(prefix) = mock_prefix_of(alloc, text)? else {
        return Err(Fail::Fault(SettingKind::BadValue));
    };
    Ok(prefix)
}

/// What is compared of pointers.
#[tactic(auto, unfolding(crate::specs::Values::one))]
pub fn pointers(node: &Node) -> Out<WhenPtr, SettingKind>
    ensures { OnAnswer result (λ answer. answer ≡ spec.one names.when_ptr_of (out-Node node.now)) }
{
    let Some(text) = scalar(node) else {
        return Err(Fail::Fault(SettingKind::NotText));
    };
    when_ptr(text).ok_or(Fail::Fault(SettingKind::BadValue))
}

/// A truth value.
#[tactic(auto, unfolding(crate::specs::Values::truth))]
pub fn truth_value(node: &Node) -> Out<bool, SettingKind>
    ensures { OnAnswer result (λ answer. answer ≡ spec.truth (out-Node node.now)) }
{
    let Some(text) = scalar(node) else {
        return Err(Fail::Fault(SettingKind::NotBool));
    };
    truth(text).ok_or(Fail::Fault(SettingKind::NotBool))
}

/// A truth value that may not be true yet.
#[tactic(auto, unfolding(crate::specs::Values::untruth))]
pub fn untruth_value(node: &Node) -> Out<bool, SettingKind>
    ensures { OnAnswer result (λ answer. answer ≡ spec.untruth (out-Node node.now)) }
{
    if truth_value(node)? {
        return Err(Fail::Fault(SettingKind::BadValue));
    }
    Ok(false)
}
