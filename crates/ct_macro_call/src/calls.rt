//! The arguments of a call.

ghost use Rattle.std.specs.Prelude.{◌≡◌, ◌∷◌, ◌++◌, [], true, false, List, ℕ, Option, None, Some, IsTrue, ◌↔◌, IfOk, OnOk, MatchOption};
ghost use Rattle.ct_macro_call.specs.declared.marked.Marked.{Marked};
ghost use Rattle.ct_macro_call.specs.Words.{is_open, is_close};
ghost use Rattle.ct_macro_call.specs.Calls as spec;
ghost use Rattle.ct_macro_call.specs.Collected.{Collected, IsDepthBehind};

use crate::marked::Marked;
use crate::source::Source;
use crate::words::{is_close, is_comma, is_open};
use ct_base::{Items, Mem, OutOfMemory, Token};
use std::alloc::Global;
use std::mem;

/// The arguments of a call, and its closing parenthesis.
#[derive(Drop)]
pub struct CallTokens {
    pub arguments: Items<Items<Marked>>,
    pub close: Marked,
}

/// The arguments that are collected so far, the last of which is open. So many inner parentheses are
/// open in it, and so many commas may still separate, where there is a limit.
#[derive(Drop)]
struct Collector {
    arguments: Items<Items<Marked>>,
    last: Items<Marked>,
    depth: usize,
    left: Option<usize>,
}

/// How many parentheses are open behind a token.
fn depth_behind(depth: usize, token: &Token) -> Mem<usize>
    requires { depth ≡ 0 → is_close token.now ≡ false }
    ensures { IfOk result (λ behind. IsDepthBehind depth token.now behind) }
{
    if is_open(token) {
        return depth.checked_add(1).ok_or(OutOfMemory);
    }
    if is_close(token) {
        return Ok(depth - 1);
    }
    Ok(depth)
}

/// Whether a comma may still separate.
fn may_separate(left: Option<usize>) -> bool
    ensures { IsTrue result ↔ spec.MaySeparate left }
{
    match left {
        None => true,
        Some(count) => count > 0,
    }
}

/// One comma fewer.
fn fewer(left: Option<usize>) -> Option<usize>
    ensures { result ≡ spec.fewer left }
{
    match left {
        None => None,
        Some(count) => Some(count.saturating_sub(1)),
    }
}

impl Collector {
    /// Takes the next token of the call.
    fn take(&mut self, alloc: Global, token: Marked) -> Mem<()>
        requires { self.old.depth ≡ 0 → is_close token.token ≡ false }
        ensures { OnOk result ((most : Option ℕ) (tokens rest : List Marked)
            → Collected most tokens (token ∷ rest) self.old.arguments self.old.last self.old.depth self.old.left
            → Collected most tokens rest self.new.arguments self.new.last self.new.depth self.new.left) }
    {
        if self.depth == 0 && is_comma(&token.token) && may_separate(self.left) {
            let last = mem::replace(&mut self.last, Items::new(alloc));
            self.arguments.push(last)?;
            self.left = fewer(self.left);
            return Ok(());
        }
        self.depth = depth_behind(self.depth, &token.token)?;
        self.last.push(token)?;
        Ok(())
    }

    /// The call, at its closing parenthesis.
    fn closed(self, close: Marked) -> Mem<CallTokens>
        requires depth { self.depth ≡ 0 }
        requires closes { is_close close.token ≡ true }
        ensures { IfOk result (λ call. (call.close ≡ close) × ((most : Option ℕ) (tokens rest : List Marked)
            → Collected most tokens (close ∷ rest) self.arguments self.last self.depth self.left
            → (inside : List Marked) × spec.IsCall tokens inside close rest × spec.AreArguments most inside call.arguments)) }
    {
        let Collector {
            mut arguments,
            last,
            depth: _,
            left: _,
        } = self;
        arguments.push(last)?;
        Ok(CallTokens { arguments, close })
    }
}

/// Reads the arguments of a call behind its opening parenthesis, where no more than some commas
/// separate them. There are none where no parenthesis closes the call.
pub fn read_call(
    alloc: Global,
    source: &mut Source<Marked>,
    most: Option<usize>,
) -> Mem<Option<CallTokens>>
    ensures { IfOk result (λ found. MatchOption found (spec.IsOpenCall source.old)
        (λ call. (inside : List Marked) × spec.IsCall source.old inside call.close source.new × spec.AreArguments most inside call.arguments)) }
{
    let mut collector = Collector {
        arguments: Items::new(alloc),
        last: Items::new(alloc),
        depth: 0,
        left: most,
    };
    while let Some(token) = source.next() {
        if collector.depth == 0 && is_close(&token.token) {
            let call = collector.closed(token)?;
            return Ok(Some(call));
        }
        collector.take(alloc, token)?;
    }
    Ok(None)
}

/// One argument for each of some parameters of a macro, the variable arguments, which may be left
/// out, as one more. There are none where the number is another.
pub fn arguments_for(
    alloc: Global,
    variadic: bool,
    count: usize,
    arguments: Items<Items<Marked>>,
) -> Mem<Option<Items<Items<Marked>>>>
    ensures { IfOk result (λ found. found ≡ spec.arguments_for variadic count arguments) }
{
    if arguments.len() == count {
        let mut arguments = arguments;
        if variadic {
            arguments.push(Items::new(alloc))?;
        }
        return Ok(Some(arguments));
    }
    if variadic {
        let one_more = arguments.len() > count && arguments.len() - count == 1;
        return Ok(if one_more { Some(arguments) } else { None });
    }
    let none = count == 0 && is_no_argument(arguments.as_slice());
    Ok(if none { Some(Items::new(alloc)) } else { None })
}

/// Whether a list of arguments is that of `()`.
fn is_no_argument(arguments: &[Items<Marked>]) -> bool
    ensures { result ≡ spec.is_no_argument arguments.now }
{
    match arguments {
        [] => true,
        [argument] => argument.is_empty(),
        _ => false,
    }
}
