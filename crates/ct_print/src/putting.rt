//! Words, each with what stands behind it.
#![tactic(auto, using(crate::proofs::Chain::chaining))]

ghost use Rattle.std.specs.Prelude.{◌≡◌, ◌∷◌, [], ◌++◌, OnOk};
ghost use Rattle.ct_syntax.specs.Words.{Named, Numbered, Quote, Literal, Sign, Key};
ghost use Rattle.ct_syntax.specs.Spelling.{spell_texts, spell_qualifiers, spell_tag, spell_comma, spell_form};
ghost use Rattle.ct_print.specs.Text.{Appends, gap_behind};

use crate::words::qualifier_keyword;
use ct_base::{Bytes, Mem};
use ct_syntax::{Keyword, Mark, ParameterForm, Qualifier, SpecWord};

/// Appends a text, and a byte behind it.
fn put(text: &[u8], gap: u8, into: &mut Vec<u8>) -> Mem<()>
    ensures { OnOk result (into.new.items ≡ into.old.items ++ (text.now ++ gap ∷ [])) }
{
    into.extend_from_slice(text)?;
    into.push(gap)?;
    Ok(())
}

/// What stands behind a mark.
fn gap_behind_mark(mark: Mark) -> u8
    ensures { result ≡ gap_behind (Sign mark) }
{
    match mark {
        Mark::Semicolon | Mark::OpenBrace | Mark::CloseBrace => b'\n',
        _ => b' ',
    }
}

/// Appends a mark, and what stands behind it.
pub(crate) fn put_mark(mark: Mark, into: &mut Vec<u8>) -> Mem<()>
    ensures { OnOk result (Appends into.old.items into.new.items (λ rest. Sign mark ∷ rest)) }
{
    put(mark.text(), gap_behind_mark(mark), into)
}

/// Appends a keyword and a space.
pub(crate) fn put_keyword(keyword: Keyword, into: &mut Vec<u8>) -> Mem<()>
    ensures { OnOk result (Appends into.old.items into.new.items (λ rest. Key keyword ∷ rest)) }
{
    put(keyword.text(), b' ', into)
}

/// Appends a name, a number, a character constant or a string literal, and a space.
pub(crate) fn put_text(text: &Bytes, into: &mut Vec<u8>) -> Mem<()>
    ensures name { OnOk result (Appends into.old.items into.new.items (λ rest. Named text.now ∷ rest)) }
    ensures number { OnOk result (Appends into.old.items into.new.items (λ rest. Numbered text.now ∷ rest)) }
    ensures character { OnOk result (Appends into.old.items into.new.items (λ rest. Quote text.now ∷ rest)) }
    ensures string { OnOk result (Appends into.old.items into.new.items (λ rest. Literal text.now ∷ rest)) }
{
    put(text.as_slice(), b' ', into)
}

/// Appends a string literal and those behind it.
pub(crate) fn put_strings(first: &Bytes, others: &[Bytes], into: &mut Vec<u8>) -> Mem<()>
    ensures { OnOk result (Appends into.old.items into.new.items (λ rest. Literal first.now ∷ spell_texts others.now rest)) }
{
    put_text(first, into)?;
    put_texts(others, into)?;
    Ok(())
}

/// Appends string literals.
fn put_texts(texts: &[Bytes], into: &mut Vec<u8>) -> Mem<()>
    ensures { OnOk result (Appends into.old.items into.new.items (spell_texts texts.now)) }
{
    for text in texts {
        put_text(text, into)?;
    }
    Ok(())
}

/// Appends qualifiers.
pub(crate) fn put_qualifiers(qualifiers: &[Qualifier], into: &mut Vec<u8>) -> Mem<()>
    ensures { OnOk result (Appends into.old.items into.new.items (spell_qualifiers qualifiers.now)) }
{
    for qualifier in qualifiers {
        put_keyword(qualifier_keyword(*qualifier), into)?;
    }
    Ok(())
}

/// Appends a tag, where there is one.
pub(crate) fn put_tag(tag: &Option<Bytes>, into: &mut Vec<u8>) -> Mem<()>
    ensures { OnOk result (Appends into.old.items into.new.items (spell_tag tag.now)) }
{
    match tag {
        None => Ok(()),
        Some(name) => put_text(name, into),
    }
}

/// Appends a comma, where one stands behind the last of a list.
pub(crate) fn put_comma(comma: bool, into: &mut Vec<u8>) -> Mem<()>
    ensures { OnOk result (Appends into.old.items into.new.items (spell_comma comma)) }
{
    match comma {
        false => Ok(()),
        true => put_mark(Mark::Comma, into),
    }
}

/// Appends what stands in the parentheses of a list behind its parameters, or in the place of them.
pub(crate) fn put_form(form: ParameterForm, into: &mut Vec<u8>) -> Mem<()>
    ensures { OnOk result (Appends into.old.items into.new.items (spell_form form)) }
{
    match form {
        ParameterForm::Empty | ParameterForm::Fixed => Ok(()),
        ParameterForm::Void => put_keyword(Keyword::Spec(SpecWord::Void), into),
        ParameterForm::Variadic => {
            put_mark(Mark::Comma, into)?;
            put_mark(Mark::Ellipsis, into)?;
            Ok(())
        }
    }
}
