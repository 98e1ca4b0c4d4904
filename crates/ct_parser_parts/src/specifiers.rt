//! Specifiers, members and enumerators from their parts.

ghost use Rattle.std.specs.Prelude.{◌≡◌, ◌+◌, IfOk};
ghost use Rattle.ct_parser_parts.specs.Parts.{parts_built, is_typedef_word};
ghost use Rattle.ct_parser_parts.specs.Views.{expr_of, specs_part, members_part, enumerators_part, declarators_part};

use crate::operands::{enclosed, pair};
use crate::{Built, Declared, EnumeratorsPart, ExprPart, MembersPart, Nest, SpecsPart};
use ct_base::{Bytes, Items, Mem, OutOfMemory, Span};
use ct_syntax::{Declarator, Enumerator, Member, Spec, SpecWord};
use std::alloc::Global;

fn one_more(count: u64) -> Mem<u64>
    ensures { IfOk result (λ n. n ≡ count + 1) }
{
    count.checked_add(1).ok_or(OutOfMemory)
}

/// No specifier.
pub fn no_specs(alloc: Global, span: Span) -> SpecsPart
    ensures { specs_part result ≡ parts_built.no_specs }
{
    SpecsPart {
        built: Built {
            tree: Some(Vec::new(alloc)),
            reach: Items::new(alloc),
        },
        words: Items::new(alloc),
        wholes: 0,
        typedef: false,
        names: Items::new(alloc),
        span,
    }
}

fn is_typedef(word: SpecWord) -> bool
    ensures { result ≡ is_typedef_word word }
{
    matches!(word, SpecWord::Typedef)
}

/// One word more.
#[tactic(auto, using(crate::proofs::Rules::specs_last))]
pub fn with_word(mut before: SpecsPart, word: SpecWord, at: Span) -> Mem<SpecsPart>
    ensures { IfOk result (λ p. specs_part p ≡ parts_built.with_word (specs_part before) word) }
{
    before.words.push(word)?;
    before.typedef = before.typedef || is_typedef(word);
    let Some(mut specs) = before.built.tree.take() else {
        return Ok(before);
    };
    specs.push(Spec::Word(at, word))?;
    before.built.tree = Some(specs);
    Ok(before)
}

/// A typedef name more.
#[tactic(auto, using(crate::proofs::Rules::specs_last, crate::proofs::Rules::no_more_names))]
pub fn with_typedef(mut before: SpecsPart, name: Bytes, at: Span) -> Mem<SpecsPart>
    ensures { IfOk result (λ p. specs_part p ≡ parts_built.with_typedef (specs_part before) name) }
{
    before.wholes = one_more(before.wholes)?;
    let Some(mut specs) = before.built.tree.take() else {
        return Ok(before);
    };
    specs.push(Spec::TypedefName(at, name))?;
    before.built.tree = Some(specs);
    Ok(before)
}

/// `struct` and a tag more.
#[tactic(auto, using(crate::proofs::Rules::specs_last, crate::proofs::Rules::no_more_names))]
pub fn with_struct_tag(mut before: SpecsPart, name: Bytes, at: Span) -> Mem<SpecsPart>
    ensures { IfOk result (λ p. specs_part p ≡ parts_built.with_struct_tag (specs_part before) name) }
{
    before.wholes = one_more(before.wholes)?;
    let Some(mut specs) = before.built.tree.take() else {
        return Ok(before);
    };
    specs.push(Spec::StructTag(at, name))?;
    before.built.tree = Some(specs);
    Ok(before)
}

/// `enum` and a tag more.
#[tactic(auto, using(crate::proofs::Rules::specs_last, crate::proofs::Rules::no_more_names))]
pub fn with_enum_tag(mut before: SpecsPart, name: Bytes, at: Span) -> Mem<SpecsPart>
    ensures { IfOk result (λ p. specs_part p ≡ parts_built.with_enum_tag (specs_part before) name) }
{
    before.wholes = one_more(before.wholes)?;
    let Some(mut specs) = before.built.tree.take() else {
        return Ok(before);
    };
    specs.push(Spec::EnumTag(at, name))?;
    before.built.tree = Some(specs);
    Ok(before)
}

/// A struct with its members more.
#[tactic(auto, using(crate::proofs::Rules::names_append, crate::proofs::Rules::specs_last, crate::proofs::Rules::one_inside, crate::proofs::Rules::tree_views))]
pub fn with_struct(
    alloc: Global,
    before: SpecsPart,
    at: Span,
    tag: Option<Bytes>,
    members: MembersPart,
) -> Mem<SpecsPart>
    ensures { IfOk result (λ p. specs_part p ≡ parts_built.with_struct (specs_part before) tag (members_part members)) }
{
    let wholes = one_more(before.wholes)?;
    let mut names = before.names;
    names.append(members.names)?;
    let inside = enclosed(alloc, Nest::Declarator, members.built)?;
    let Built { tree, reach } = pair(before.built, inside)?;
    let mut part = SpecsPart {
        built: Built { tree: None, reach },
        words: before.words,
        wholes,
        typedef: before.typedef,
        names,
        span: before.span,
    };
    let Some((mut specs, list)) = tree else {
        return Ok(part);
    };
    specs.push(Spec::StructList(at, tag, list))?;
    part.built.tree = Some(specs);
    Ok(part)
}

/// An enumeration with its enumerators more.
#[tactic(auto, using(crate::proofs::Rules::names_append, crate::proofs::Rules::specs_last, crate::proofs::Rules::one_more, crate::proofs::Rules::tree_views))]
pub fn with_enum(
    before: SpecsPart,
    at: Span,
    tag: Option<Bytes>,
    enumerators: EnumeratorsPart,
    comma: bool,
) -> Mem<SpecsPart>
    ensures { IfOk result (λ p. specs_part p ≡ parts_built.with_enum (specs_part before) tag (enumerators_part enumerators) comma) }
{
    let wholes = one_more(before.wholes)?;
    let mut names = before.names;
    names.append(enumerators.names)?;
    let Built { tree, reach } = pair(before.built, enumerators.built)?;
    let mut part = SpecsPart {
        built: Built { tree: None, reach },
        words: before.words,
        wholes,
        typedef: before.typedef,
        names,
        span: before.span,
    };
    let Some((mut specs, list)) = tree else {
        return Ok(part);
    };
    specs.push(Spec::EnumList(at, tag, list, comma))?;
    part.built.tree = Some(specs);
    Ok(part)
}

/// No member.
pub fn no_members(alloc: Global) -> MembersPart
    ensures { members_part result ≡ parts_built.no_members }
{
    MembersPart {
        built: Built {
            tree: Some(Vec::new(alloc)),
            reach: Items::new(alloc),
        },
        names: Items::new(alloc),
    }
}

/// One declaration of members more.
#[tactic(auto, using(crate::proofs::Rules::members_last, crate::proofs::Rules::names_append, crate::proofs::Rules::two_more))]
pub fn push_member(
    before: MembersPart,
    specs: SpecsPart,
    list: Built<Vec<Declarator>>,
) -> Mem<MembersPart>
    ensures { IfOk result (λ p. members_part p ≡ parts_built.push_member (members_part before) (specs_part specs) (declarators_part list)) }
{
    let span = specs.span;
    let mut names = before.names;
    names.append(specs.names)?;
    let Built { tree, reach } = pair(before.built, pair(specs.built, list)?)?;
    let mut part = MembersPart {
        built: Built { tree: None, reach },
        names,
    };
    let Some((mut members, (specs, declarators))) = tree else {
        return Ok(part);
    };
    members.push(Member {
        span,
        specs,
        declarators,
    })?;
    part.built.tree = Some(members);
    Ok(part)
}

/// No enumerator.
pub fn no_enumerators(alloc: Global) -> EnumeratorsPart
    ensures { enumerators_part result ≡ parts_built.no_enumerators }
{
    EnumeratorsPart {
        built: Built {
            tree: Some(Vec::new(alloc)),
            reach: Items::new(alloc),
        },
        names: Items::new(alloc),
    }
}

/// One enumerator more, without a value.
#[tactic(auto, using(crate::proofs::Rules::enumerators_last, crate::proofs::Rules::names_last))]
pub fn push_enumerator(
    alloc: Global,
    mut before: EnumeratorsPart,
    at: Span,
    name: Bytes,
) -> Mem<EnumeratorsPart>
    ensures { IfOk result (λ p. enumerators_part p ≡ parts_built.push_enumerator (enumerators_part before) name) }
{
    let declared = Bytes::from_slice(alloc, name.as_slice())?;
    before.names.push(Declared {
        name: declared,
        is_type: false,
    })?;
    let Some(mut list) = before.built.tree.take() else {
        return Ok(before);
    };
    list.push(Enumerator {
        span: at,
        name,
        value: None,
    })?;
    before.built.tree = Some(list);
    Ok(before)
}

/// One enumerator more, with its value.
#[tactic(auto, using(crate::proofs::Rules::enumerators_last, crate::proofs::Rules::names_last, crate::proofs::Rules::one_more))]
pub fn push_valued(
    alloc: Global,
    before: EnumeratorsPart,
    at: Span,
    name: Bytes,
    value: ExprPart,
) -> Mem<EnumeratorsPart>
    ensures { IfOk result (λ p. enumerators_part p ≡ parts_built.push_valued (enumerators_part before) name (expr_of value)) }
{
    let declared = Bytes::from_slice(alloc, name.as_slice())?;
    let mut names = before.names;
    names.push(Declared {
        name: declared,
        is_type: false,
    })?;
    let Built { tree, reach } = pair(before.built, value.built)?;
    let mut part = EnumeratorsPart {
        built: Built { tree: None, reach },
        names,
    };
    let Some((mut list, value)) = tree else {
        return Ok(part);
    };
    list.push(Enumerator {
        span: at,
        name,
        value: Some(value),
    })?;
    part.built.tree = Some(list);
    Ok(part)
}
