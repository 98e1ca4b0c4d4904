//! Paths of the files of a unit.

ghost use Rattle.std.specs.Prelude.{◌≡◌, ◌++◌, IfOk, OnOk};
ghost use Rattle.std.specs.List.{list_any};
ghost use Rattle.std.specs.Str.{bytes_eq};
ghost use Rattle.ct_preproc.specs.Reading as spec;

use ct_base::{Bytes, Items, Mem, OutOfMemory, Span, Text, Token, TokenKind};
use ct_directive::object_like;
use ct_macro::Macros;
use std::alloc::Global;

/// Whether a path is among some.
pub fn is_among(path: &str, files: &[Text]) -> bool
    ensures { result ≡ list_any (bytes_eq path.now) files.now }
{
    files.iter().any(|file| path == file.as_str())
}

/// Paths, and one more where it is not among them.
pub fn with_file(alloc: Global, path: &str, files: Items<Text>) -> Mem<Items<Text>>
    ensures { IfOk result (λ more. more ≡ spec.with_file path.now files) }
{
    let mut files = files;
    if !is_among(path, files.as_slice()) {
        files.push(Text::copy_of(alloc, path)?)?;
    }
    Ok(files)
}

/// The number that a path has among some, or would have behind them.
pub fn file_number(path: &str, files: &[Text]) -> usize
    ensures { result ≡ spec.file_number path.now files.now }
{
    let mut number = 0;
    let mut rest = files;
    while let Some((file, more)) = rest.split_first() {
        if path == file.as_str() {
            return number;
        }
        number += 1;
        rest = more;
    }
    number
}

/// Bytes as they stand in a string literal.
fn push_escaped(text: &mut Vec<u8>, bytes: &[u8]) -> Mem<()>
    ensures { OnOk result (text.new.items ≡ text.old.items ++ spec.escaped bytes.now) }
{
    let mut rest = bytes;
    while let Some((byte, more)) = rest.split_first() {
        if *byte == b'"' || *byte == b'\\' {
            text.push(b'\\')?;
        }
        text.push(*byte)?;
        rest = more;
    }
    Ok(())
}

/// The list of one token that replaces a name and is in no file.
pub fn one_token(alloc: Global, kind: TokenKind, text: Bytes) -> Mem<Items<Token>>
    ensures { IfOk result (λ tokens. tokens ≡ spec.one_token kind text) }
{
    let mut tokens = Items::new(alloc);
    tokens.push(Token {
        kind,
        text,
        span: Span { file: 0, line: 0 },
        spaced: false,
    })?;
    Ok(tokens)
}

/// Macros of which `__FILE__` is a path (C11 6.10.8.1).
#[tactic(auto, using(crate::proofs::Defining::anew_rules))]
pub fn with_path(alloc: Global, path: &str, macros: Macros) -> Mem<Macros>
    ensures { IfOk result (λ after. after ≡ spec.with_path path.now macros) }
{
    let mut text = Vec::new(alloc);
    text.push(b'"')?;
    push_escaped(&mut text, path.as_bytes())?;
    text.push(b'"')?;
    let tokens = one_token(alloc, TokenKind::Text, Bytes::from_vec(text))?;
    let file = object_like(alloc, b"__FILE__".as_slice(), tokens)?;
    let mut macros = macros;
    macros.undef(b"__FILE__".as_slice());
    match macros.define(file) {
        Ok(()) => Ok(macros),
        Err(_) => Err(OutOfMemory),
    }
}
