//! Test files.

ghost use Rattle.std.specs.Prelude.{◌≡◌, ◌∷◌, [], ◌↔◌, List, Result, IfNone, IfOk, IfSome, IsTrue, codes, true};
ghost use Rattle.ct_base.specs.Answers.{OnAnswer};
ghost use Rattle.ct_base.specs.declared.lexical.Token.{Token as token};
ghost use Rattle.ct_core.specs.declared.units.CoreUnit.{CoreUnit as unit};
ghost use Rattle.ct_form.specs.declared.outside.Outside.{Outside as refusal};
ghost use Rattle.ct_form.specs.Form.{Before, EndsLine, HasForm, SpellEach, StandsInclude, outside_of as outside_for, unit_of as unit_for};
ghost use Rattle.ct_form.specs.Readers.{HasNoItem, ReadsUpTo};

use crate::functions::function;
use crate::outside::Outside;
use crate::words::{NoMatch, next};
use ct_base::{Bytes, Fail, Items, Mem, Out, OutOfMemory, Text, Token, TokenKind};
use ct_core::{CoreFunction, CoreUnit, Space};
use ct_ctype::Structs;
use std::alloc::Global;

/// How many functions a file may have.
const MOST_FUNCTIONS: usize = 1000;

/// What follows a token of this text, where it stands right at the front.
fn after_token<'a>(tokens: &'a [Token], text: &[u8]) -> Option<&'a [Token]>
    ensures found { IfSome result (λ rest. (token : token) × (tokens.now ≡ token ∷ rest.now) × SpellEach (text.now ∷ []) (token ∷ [])) }
    ensures none { IfNone result ((rest : List token) → (token : token) × (tokens.now ≡ token ∷ rest) × SpellEach (text.now ∷ []) (token ∷ []) → ⊥) }
{
    match tokens.split_first() {
        Some((token, rest))
            if !matches!(token.kind, TokenKind::Line) && token.text.as_slice() == text => {
            Some(rest)
        }
        _ => None,
    }
}

/// Whether a line ends at the front of these tokens, or the file does.
fn ends_line(tokens: &[Token]) -> bool
    ensures { IsTrue result ↔ EndsLine tokens.now }
{
    match tokens.first() {
        Some(token) => matches!(token.kind, TokenKind::Line),
        None => true,
    }
}

fn is_hash(token: &Token) -> bool
    ensures { IsTrue result ↔ (token.now.text ≡ codes "#") }
{
    token.text.as_slice() == b"#".as_slice()
}

/// What follows an include that stands at the front and ends its line, wherever it begins.
fn directive(tokens: &[Token]) -> Option<&[Token]>
    ensures found { IfSome result (λ rest. StandsInclude true tokens.now rest.now) }
    ensures none { IfNone result ((rest : List token) → StandsInclude true tokens.now rest → ⊥) }
{
    let (hash, behind) = next(tokens)?;
    if !is_hash(hash) {
        return None;
    }
    let middle = after_token(behind, b"include")?;
    let rest = after_token(middle, b"\"unity.h\"")?;
    if ends_line(rest) { Some(rest) } else { None }
}

/// What follows an include line that stands at the front.
fn include(tokens: &[Token], is_first: bool) -> Option<&[Token]>
    ensures found { IfSome result (λ rest. StandsInclude is_first tokens.now rest.now) }
    ensures none { IfNone result ((rest : List token) → StandsInclude is_first tokens.now rest → ⊥) }
{
    let follows_line = ends_line(tokens);
    if is_first || follows_line {
        directive(tokens)
    } else {
        None
    }
}

/// The functions of a file up to the first place where no item stands, and what is left there.
fn items(alloc: Global, tokens: &[Token]) -> Mem<(Items<CoreFunction>, &[Token])>
    ensures { IfOk result (λ found. (before : Before) × ReadsUpTo tokens.now found.0 before found.1.now × HasNoItem before found.1.now) }
{
    let mut functions = Items::new(alloc);
    let mut signatures = Vec::new(alloc);
    let mut serial = 0;
    let mut unity = false;
    let mut is_first = true;
    let mut rest = tokens;
    loop {
        if let Some(after) = include(rest, is_first) {
            is_first = false;
            unity = true;
            rest = after;
            continue;
        }
        if functions.len() >= MOST_FUNCTIONS {
            return Ok((functions, rest));
        }
        match function(alloc, &mut signatures, unity, serial, rest) {
            Ok((function, next, after)) => {
                functions.push(function)?;
                is_first = false;
                serial = next;
                rest = after;
            }
            Err(NoMatch::Elsewhere) => return Ok((functions, rest)),
            Err(NoMatch::OutOfMemory) => return Err(OutOfMemory),
        }
    }
}

/// The core unit of a test file with this path.
fn unit_of(alloc: Global, path: &str, functions: Items<CoreFunction>) -> Mem<CoreUnit>
    ensures { IfOk result (λ unit. unit ≡ unit_for path.now functions) }
{
    let mut files = Items::new(alloc);
    files.push(Text::copy_of(alloc, path)?)?;
    Ok(CoreUnit {
        space: Space::Project,
        files,
        functions,
        texts: Items::new(alloc),
        structs: Structs::new(alloc),
    })
}

/// A refusal that names this token.
fn outside_of(alloc: Global, token: &Token) -> Mem<Outside>
    ensures { IfOk result (λ outside. outside ≡ outside_for token.now) }
{
    Ok(Outside {
        line: token.span.line,
        word: Bytes::from_slice(alloc, token.text.as_slice())?,
    })
}

/// The core unit of a test file of this path and these tokens, or the first token that is outside
/// the form: that of the first function outside it, or of what is neither an include nor a
/// function.
pub fn read(alloc: Global, path: &str, tokens: &[Token]) -> Out<CoreUnit, Outside>
    ensures form { OnAnswer result (HasForm path.now tokens.now) }
    // So a file is refused exactly where it is outside the form, and with that one token.
    ensures alone { (other : Result unit refusal) → HasForm path.now tokens.now other → OnAnswer result (λ answer. answer ≡ other) }
{
    let (functions, rest) = items(alloc, tokens)?;
    match next(rest) {
        Some((token, _)) => Err(Fail::Fault(outside_of(alloc, token)?)),
        None => Ok(unit_of(alloc, path, functions)?),
    }
}
