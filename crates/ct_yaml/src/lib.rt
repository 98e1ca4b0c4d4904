//! The project file as a tree: a profile of YAML.
#![tactic(auto)]

mod chars;
mod lines;
mod mark;
mod node;
mod scalars;
mod stack;
mod text;
mod values;

ghost use Rattle.std.specs.Prelude.{◌≡◌, ℕ, List};
ghost use Rattle.ct_yaml.specs.Text.{SpellsNode};
ghost use Rattle.ct_yaml.specs.declared.node.Node as declared;

pub use node::{Entry, Node};
pub use text::{YamlFault, read};

/// A text spells one node at most, so `read` gives that one.
pub fn one_node()
    ensures { (lines : List (List ℕ)) (first second : declared.Node) →
        SpellsNode lines first → SpellsNode lines second → first ≡ second }
{}
