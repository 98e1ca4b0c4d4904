//! Sections of a project file, and the values of their keys.

ghost use Rattle.std.specs.Prelude.{◌≡◌, [], ◌∷◌, ◌++◌, MatchOption, IfOk, codes, map, string_bytes};
ghost use Rattle.std.specs.Option.{option_copied, option_map};
ghost use Rattle.std.specs.Result.{result_map_both};
ghost use Rattle.ct_base.specs.Answers.{IfFault, OnAnswer};
ghost use Rattle.ct_yaml.specs.declared.node.Node.{out-Node};
ghost use Rattle.ct_settings.specs.Rows as spec;
ghost use Rattle.ct_settings.specs.Places as places;

use crate::record::{SettingFault, SettingKind};
use ct_base::{Fail, Mem, Out, Text};
use ct_yaml::{Entry, Node};
use std::alloc::Global;

/// A section: its name, and the entries of its map.
#[derive(Debug, Drop)]
pub struct Section<'a> {
    pub name: &'a str,
    pub entries: &'a [Entry],
}

fn first_entry(entries: &[Entry]) -> Option<(&Entry, &[Entry])>
    ensures { MatchOption result (entries.now ≡ []) (λ found. entries.now ≡ found.0.now ∷ found.1.now) }
{
    entries.split_first()
}

/// The value of the last entry of a key.
fn last_value<'a>(key: &[u8], entries: &'a [Entry]) -> Option<&'a Node>
    ensures { option_copied result ≡ spec.last_value key.now entries.now }
{
    let mut found = None;
    let mut rest = entries;
    while let Some((entry, more)) = first_entry(rest) {
        if entry.key.as_slice() == key {
            found = Some(&entry.value);
        }
        rest = more;
    }
    found
}

/// The value of a key, where the empty scalar is none.
fn value_of<'a>(key: &[u8], entries: &'a [Entry]) -> Option<&'a Node>
    ensures { option_map (λ node. out-Node node.now) result ≡ spec.value_of key.now entries.now }
{
    let node = last_value(key, entries)?;
    match node {
        Node::Scalar(text) => {
            if text.as_slice().is_empty() {
                return None;
            }
            Some(node)
        }
        Node::List(_) => Some(node),
        Node::Map(_) => Some(node),
    }
}

/// The entries of a map.
fn entries_of(node: &Node) -> &[Entry]
    ensures { result.now ≡ spec.entries_of (out-Node node.now) }
{
    match node {
        Node::Scalar(_) => &[],
        Node::List(_) => &[],
        Node::Map(entries) => entries.as_slice(),
    }
}

/// The refusal of a value, by the text that names its key.
fn refused(alloc: Global, key: &str, kind: SettingKind) -> Fail<SettingFault>
    ensures { places.IsFault result (record { key = key.now; kind = kind }) }
{
    match Text::copy_of(alloc, key) {
        Ok(key) => Fail::Fault(SettingFault { key, kind }),
        Err(_) => Fail::OutOfMemory,
    }
}

impl<'a> Section<'a> {
    /// The section of a name. One that is absent has no keys.
    #[tactic(auto, unfolding(crate::specs::Rows::section))]
    pub fn of(alloc: Global, name: &'a str, node: &'a Node) -> Out<Section<'a>, SettingFault>
        ensures { OnAnswer result (λ answer. spec.section name.now node.now ≡ result_map_both places.place_of (λ fault. fault) answer) }
    {
        match value_of(name.as_bytes(), entries_of(node)) {
            None => Ok(Section { name, entries: &[] }),
            Some(Node::Map(entries)) => Ok(Section {
                name,
                entries: entries.as_slice(),
            }),
            Some(_) => {
                let key = format!(in alloc; "{name}:")?;
                Err(refused(alloc, &key, SettingKind::NotMap))
            }
        }
    }

    /// The value of a key.
    pub fn value(&self, key: &str) -> Option<&Node>
        ensures { option_map (λ node. out-Node node.now) result ≡ spec.value_of key.now self.now.entries.now }
    {
        value_of(key.as_bytes(), self.entries)
    }

    /// How a refusal names a key.
    fn key_text(&self, alloc: Global, key: &str) -> Mem<String>
        ensures { IfOk result (λ text. string_bytes text ≡ spec.key_of (places.place_of self.now) key.now) }
    {
        let name = self.name;
        let text = format!(in alloc; "{name}: {key}:")?;
        Ok(text)
    }

    /// What is read of a key, where a refusal names the section and the key.
    pub fn named<T>(
        &self,
        alloc: Global,
        key: &str,
        read: Out<T, SettingKind>,
    ) -> Out<T, SettingFault>
        ensures ok { IfOk result (λ value. read ≡ Ok value) }
        ensures fault { IfFault result (λ fault. places.IsNamed (places.place_of self.now) key.now read fault) }
    {
        match read {
            Ok(value) => Ok(value),
            Err(Fail::OutOfMemory) => Err(Fail::OutOfMemory),
            Err(Fail::Fault(kind)) => {
                let key = self.key_text(alloc, key)?;
                Err(refused(alloc, key.as_str(), kind))
            }
        }
    }
}
