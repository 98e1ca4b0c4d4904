//! The blocks that are open at a place of a text.

ghost use Rattle.std.specs.Prelude.{◌≡◌, ◌+◌, ◌≤◌, [], ◌∷◌, ◌++◌, length, List, MatchOption, IfOk, Some, None};
ghost use Rattle.ct_yaml.specs.Block.{entry_of};
ghost use Rattle.ct_yaml.specs.Gives.{Gives};
ghost use Rattle.ct_yaml.specs.Reading.{mapped};
ghost use Rattle.ct_yaml.specs.Stack as spec;
ghost use Rattle.ct_yaml.specs.declared.stack.Block as declared;

use crate::chars::Unspelled;
use crate::mark::{Inline, Mark};
use crate::node::{Entry, Node};
use ct_base::{Bytes, Fail, Items, Mem, Out};
use std::alloc::Global;
use std::mem;

/// How many block maps, block lists and flow lists may be open at one place.
const MAX_NESTING: usize = 32;

/// An open block, and what of it is done: all before its last entry or item.
#[derive(Debug, Drop)]
pub enum Block {
    /// A block map, with the key of the last entry.
    Map {
        column: usize,
        entries: Items<Entry>,
        key: Bytes,
    },
    /// A block list.
    List {
        column: usize,
        items: Items<Node>,
    },
}

/// The open blocks, the outermost first, and the last value of the innermost, where one is there.
#[derive(Debug, Drop)]
pub struct OpenBlocks {
    pub blocks: Items<Block>,
    pub value: Option<Inline>,
}

/// Whether a mark belongs to the last value of a block.
fn is_inside(mark: &Mark, block: &Block) -> bool
    ensures { result ≡ spec.is_inside mark.now block.now }
{
    match mark {
        Mark::Key { column, .. } => match block {
            Block::Map { column: at, .. } => at < column,
            Block::List { column: at, .. } => at < column,
        },
        Mark::Dash { column } => match block {
            Block::Map { column: at, .. } => at <= column,
            Block::List { column: at, .. } => at < column,
        },
        Mark::Value(_) => true,
    }
}

fn first_block(blocks: &[Block]) -> Option<(&Block, &[Block])>
    ensures { MatchOption result (blocks.now ≡ []) (λ found. blocks.now ≡ found.0.now ∷ found.1.now) }
{
    blocks.split_first()
}

/// In how many of the blocks, from the outermost on, a mark belongs to the last value.
fn inside_len(mark: &Mark, blocks: &[Block]) -> usize
    ensures value { result ≡ spec.inside_len mark.now blocks.now }
    ensures within { result ≤ length blocks.now }
{
    let mut len = 0;
    let mut rest = blocks;
    while let Some((block, more)) = first_block(rest) {
        if !is_inside(mark, block) {
            return len;
        }
        rest = more;
        len += 1;
    }
    len
}

/// The node of a value on its line. Where none is there, it is the empty scalar.
fn value_node(alloc: Global, value: Option<Inline>) -> Node
    ensures { result ≡ spec.value_node value }
{
    match value {
        None => Node::Scalar(Items::new(alloc)),
        Some(Inline::Scalar(text)) => Node::Scalar(text),
        Some(Inline::Flow(items)) => Node::List(items),
        Some(Inline::Braces) => Node::Map(Items::new(alloc)),
    }
}

/// Entries with one more, also where its key stands already.
fn with_entry(before: Items<Entry>, key: Bytes, value: Node) -> Mem<Items<Entry>>
    ensures { IfOk result (λ entries. entries ≡ before ++ entry_of key value ∷ []) }
{
    let mut entries = before;
    let entry = Entry { key, value };
    entries.push(entry)?;
    Ok(entries)
}

/// The node of a block with its last value.
fn closed_in(block: Block, node: Node) -> Mem<Node>
    ensures { IfOk result (λ whole. whole ≡ spec.closed_in block node) }
{
    match block {
        Block::Map { entries, key, .. } => {
            let entries = with_entry(entries, key, node)?;
            Ok(Node::Map(entries))
        }
        Block::List { mut items, .. } => {
            items.push(node)?;
            Ok(Node::List(items))
        }
    }
}

/// A block in which a mark begins the next entry or item behind the last value.
fn next_in(mark: Mark, block: Block, node: Node) -> Out<Block, Unspelled>
    ensures { Gives (λ next. (next ∷ [], None)) result (spec.next_in mark block node) }
{
    match mark {
        Mark::Key { column, key } => match block {
            Block::Map {
                column: at,
                entries,
                key: last,
            } => {
                if at != column {
                    return Err(Fail::Fault(Unspelled));
                }
                let entries = with_entry(entries, last, node)?;
                Ok(Block::Map {
                    column: at,
                    entries,
                    key,
                })
            }
            Block::List { .. } => Err(Fail::Fault(Unspelled)),
        },
        Mark::Dash { column } => match block {
            Block::List {
                column: at,
                mut items,
            } => {
                if at != column {
                    return Err(Fail::Fault(Unspelled));
                }
                items.push(node)?;
                Ok(Block::List { column: at, items })
            }
            Block::Map { .. } => Err(Fail::Fault(Unspelled)),
        },
        Mark::Value(_) => Err(Fail::Fault(Unspelled)),
    }
}

/// Whether a mark is a key.
fn is_key(mark: &Mark) -> bool
    ensures { result ≡ spec.may_begin [] mark.now }
{
    matches!(mark, Mark::Key { .. })
}

/// How many lists a value opens on its line.
fn value_depth(value: &Option<Inline>) -> usize
    ensures { result ≡ spec.value_depth value.now }
{
    match value {
        Some(Inline::Flow(_)) => 1,
        _ => 0,
    }
}

impl OpenBlocks {
    /// Nothing is open yet.
    pub fn new(alloc: Global) -> OpenBlocks
        ensures { spec.view result ≡ ([], None) }
    {
        OpenBlocks {
            blocks: Items::new(alloc),
            value: None,
        }
    }

    /// Closes all but the outermost blocks, and gives the value of the innermost that is left.
    fn close_above(&mut self, alloc: Global, keep: usize) -> Mem<Node>
        requires { keep ≤ length self.old.blocks }
        ensures { IfOk result (λ node. (above : List declared.Block) × (self.old.blocks ≡ self.new.blocks ++ above)
            × (length self.new.blocks ≡ keep) × (node ≡ spec.closed above self.old.value)) }
    {
        let value = mem::replace(&mut self.value, None);
        let mut node = value_node(alloc, value);
        while self.blocks.len() > keep {
            if let Some(block) = self.blocks.pop() {
                node = closed_in(block, node)?;
            }
        }
        Ok(node)
    }

    /// Begins a value where none is.
    fn begin(&mut self, alloc: Global, mark: Mark) -> Out<(), Unspelled>
        ensures { Gives (λ _. spec.view self.new) result
            (mapped (spec.around self.old.blocks) (spec.begun mark self.old.value)) }
    {
        if self.value.is_some() {
            return Err(Fail::Fault(Unspelled));
        }
        match mark {
            Mark::Key { column, key } => {
                let entries = Items::new(alloc);
                self.blocks.push(Block::Map {
                    column,
                    entries,
                    key,
                })?;
            }
            Mark::Dash { column } => {
                let items = Items::new(alloc);
                self.blocks.push(Block::List { column, items })?;
            }
            Mark::Value(value) => self.value = Some(value),
        }
        Ok(())
    }

    /// Begins the next entry or item of the innermost block, whose last value is the node.
    fn next(&mut self, mark: Mark, node: Node) -> Out<(), Unspelled>
        ensures { (before : List declared.Block) (block : declared.Block) → self.old.blocks ≡ before ++ block ∷ []
            → Gives (λ _. spec.view self.new) result (mapped (spec.around before) (spec.next_in mark block node)) }
    {
        let Some(block) = self.blocks.pop() else {
            return Err(Fail::Fault(Unspelled));
        };
        let next = next_in(mark, block, node)?;
        self.blocks.push(next)?;
        self.value = None;
        Ok(())
    }

    /// Puts a mark where it belongs, and closes the blocks that it ends.
    fn put(&mut self, alloc: Global, mark: Mark) -> Out<(), Unspelled>
        ensures { Gives (λ _. spec.view self.new) result (spec.put mark self.old.blocks self.old.value) }
    {
        let place = inside_len(&mark, self.blocks.as_slice());
        if place == self.blocks.len() {
            return self.begin(alloc, mark);
        }
        let node = self.close_above(alloc, place + 1)?;
        self.next(mark, node)
    }

    /// Takes the next mark of a text, where at most 32 blocks and lists are open at one place.
    #[tactic(auto, unfolding(crate::specs::Stack::step))]
    fn step(&mut self, alloc: Global, mark: Mark) -> Out<(), Unspelled>
        ensures { Gives (λ _. spec.view self.new) result (spec.step (spec.view self.old) mark) }
    {
        if self.blocks.is_empty() && !is_key(&mark) {
            return Err(Fail::Fault(Unspelled));
        }
        self.put(alloc, mark)?;
        if self.blocks.len() > MAX_NESTING - value_depth(&self.value) {
            return Err(Fail::Fault(Unspelled));
        }
        Ok(())
    }

    /// Takes the marks of a line.
    pub fn steps(&mut self, alloc: Global, marks: Vec<Mark>) -> Out<(), Unspelled>
        ensures { Gives (λ _. spec.view self.new) result (spec.steps (spec.view self.old) marks.items) }
    {
        for mark in marks {
            self.step(alloc, mark)?;
        }
        Ok(())
    }

    /// The node of a text that ends here.
    pub fn finish(self, alloc: Global) -> Mem<Node>
        ensures { IfOk result (λ node. node ≡ spec.text_node (spec.view self)) }
    {
        if self.blocks.is_empty() {
            return Ok(Node::Map(Items::new(alloc)));
        }
        let mut open = self;
        open.close_above(alloc, 0)
    }
}
