//! A macro, and the form of its definition.

ghost use Rattle.std.specs.Prelude.{◌≡◌, ◌↔◌, IsTrue, map, false, Some};
ghost use Rattle.std.specs.List.{list_any};
ghost use Rattle.std.specs.Str.{bytes_eq};
ghost use Rattle.ct_macro_call.specs.Words.{with_variable};
ghost use Rattle.ct_macro_call.specs.Definition as spec;

use crate::words::{is_hash, is_paste, is_variable};
use ct_base::{Bytes, Items, Token};

/// A macro definition (C11 6.10.3). An object-like macro has no parameter list. `variadic` says that
/// the list of a function-like macro ends in `...`, which is no item of `parameters`.
#[derive(Debug, Drop)]
pub struct Macro {
    pub name: Bytes,
    pub parameters: Option<Items<Bytes>>,
    pub variadic: bool,
    pub body: Items<Token>,
}

/// Whether a name is one of some.
fn is_among(text: &[u8], names: &[Bytes]) -> bool
    ensures { result ≡ list_any (bytes_eq text.now) names.now }
{
    names.iter().any(|name| text == name.as_slice())
}

/// Whether a name stands for an argument in the body of a macro with these parameters.
pub fn is_parameter(text: &[u8], names: &[Bytes], variadic: bool) -> bool
    ensures { result ≡ list_any (bytes_eq text.now) (with_variable variadic names.now) }
{
    is_among(text, names) || (variadic && is_variable(text))
}

/// Whether `##` stands first or last.
fn has_outer_paste(body: &[Token]) -> bool
    ensures { result ≡ spec.has_outer_paste body.now }
{
    match body {
        [] => false,
        [only] => is_paste(only),
        [first, .., last] => is_paste(first) || is_paste(last),
    }
}

/// Whether the first token is a parameter.
fn begins_with_name(names: &[Bytes], variadic: bool, tokens: &[Token]) -> bool
    ensures { result ≡ spec.begins_with_name (with_variable variadic names.now) tokens.now }
{
    match tokens.first() {
        Some(token) => is_parameter(token.text.as_slice(), names, variadic),
        None => false,
    }
}

/// Whether a `#` stands before no parameter.
fn has_stray_hash(names: &[Bytes], variadic: bool, body: &[Token]) -> bool
    ensures { result ≡ spec.has_stray_hash (with_variable variadic names.now) body.now }
{
    let mut rest = body;
    while let Some((token, more)) = rest.split_first() {
        if is_hash(token) && !begins_with_name(names, variadic, more) {
            return true;
        }
        rest = more;
    }
    false
}

/// Whether a name stands twice.
fn has_double(names: &[Bytes]) -> bool
    ensures { result ≡ spec.has_double names.now }
{
    let mut rest = names;
    while let Some((name, more)) = rest.split_first() {
        if is_among(name.as_slice(), more) {
            return true;
        }
        rest = more;
    }
    false
}

/// Whether `__VA_ARGS__` stands in a body.
fn has_variable(body: &[Token]) -> bool
    ensures { result ≡ list_any spec.is_variable body.now }
{
    body.iter().any(|token| is_variable(token.text.as_slice()))
}

/// Whether the body of a function-like macro with these parameters is not well formed.
fn has_bad_body(names: &[Bytes], variadic: bool, body: &[Token]) -> bool
    ensures { result ≡ spec.has_bad_body (Some (with_variable variadic names.now)) body.now }
{
    has_stray_hash(names, variadic, body)
        || (has_variable(body) && !is_parameter(b"__VA_ARGS__".as_slice(), names, variadic))
}

impl Macro {
    /// Whether the definition breaks a rule on its own (C11 6.10.3p5, p6, 6.10.3.2p1, 6.10.3.3p1).
    pub fn is_malformed(&self) -> bool
        ensures { result ≡ spec.is_malformed self.now }
    {
        if is_variable(self.name.as_slice()) || has_outer_paste(self.body.as_slice()) {
            return true;
        }
        match &self.parameters {
            None => has_variable(self.body.as_slice()),
            Some(names) => {
                let names = names.as_slice();
                is_among(b"__VA_ARGS__".as_slice(), names)
                    || has_double(names)
                    || has_bad_body(names, self.variadic, self.body.as_slice())
            }
        }
    }

    /// Whether two definitions of one name are the same (C11 6.10.3p2).
    pub fn is_same(&self, other: &Macro) -> bool
        ensures same { IsTrue result → spec.SameDefinition self.now other.now }
        ensures another { result ≡ false → spec.SameDefinition self.now other.now → ⊥ }
    {
        same_parameters(&self.parameters, &other.parameters)
            && self.variadic == other.variadic
            && same_spelling(self.body.as_slice(), other.body.as_slice())
    }
}

/// Whether two lists of names are the same.
fn same_names(one: &[Bytes], other: &[Bytes]) -> bool
    ensures { IsTrue result ↔ (one.now ≡ other.now) }
{
    let mut left = one;
    let mut right = other;
    while let Some((name, more)) = left.split_first() {
        let Some((matching, rest)) = right.split_first() else {
            return false;
        };
        if name.as_slice() != matching.as_slice() {
            return false;
        }
        left = more;
        right = rest;
    }
    right.is_empty()
}

/// Whether two parameter lists are the same.
fn same_parameters(one: &Option<Items<Bytes>>, other: &Option<Items<Bytes>>) -> bool
    ensures { IsTrue result ↔ (one.now ≡ other.now) }
{
    match (one, other) {
        (None, None) => true,
        (Some(names), Some(others)) => same_names(names.as_slice(), others.as_slice()),
        _ => false,
    }
}

/// Whether two lists of tokens have the same bytes and the same white space before each.
fn same_separated(one: &[Token], other: &[Token]) -> bool
    ensures { IsTrue result ↔ (map spec.separated one.now ≡ map spec.separated other.now) }
{
    let mut left = one;
    let mut right = other;
    while let Some((token, more)) = left.split_first() {
        let Some((matching, rest)) = right.split_first() else {
            return false;
        };
        if token.text.as_slice() != matching.text.as_slice() || token.spaced != matching.spaced {
            return false;
        }
        left = more;
        right = rest;
    }
    right.is_empty()
}

/// Whether two replacement lists are spelled alike.
fn same_spelling(one: &[Token], other: &[Token]) -> bool
    ensures { IsTrue result ↔ (spec.spelling one.now ≡ spec.spelling other.now) }
{
    match (one.split_first(), other.split_first()) {
        (None, None) => true,
        (Some((first, rest)), Some((matching, others))) => {
            first.text.as_slice() == matching.text.as_slice() && same_separated(rest, others)
        }
        _ => false,
    }
}
